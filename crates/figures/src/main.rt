//! Reads a sheet from standard input and prints the listing of its board for each kind of cost, or its one refusal.
#![tactic(auto)]

use load::read_bytes;
use report::report;
use std::io;
use std::io::Write;

fn main(rt: HostRuntime) -> io::Result<()> {
    let sheet = read_bytes(rt.alloc(), rt.stdin())?;
    let text = report(rt.alloc(), sheet.as_slice())?;
    rt.stdout().write_all(text.as_bytes())
}
