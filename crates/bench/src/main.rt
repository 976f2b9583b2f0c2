//! Reads a sheet from standard input and prints an account of it, or its one refusal.
#![tactic(auto)]

use account::respond;
use load::read_bytes;
use std::io;
use std::io::{BufWriter, Write};

fn main(rt: HostRuntime) -> io::Result<()> {
    let sheet = read_bytes(rt.alloc(), rt.stdin())?;
    let mut out = BufWriter::new(rt.alloc(), rt.stdout())?;
    respond(rt.alloc(), sheet.as_slice(), &mut out)?;
    out.flush()
}
