//! Prints the report on each sheet that its arguments name, after the sheet's name.
#![tactic(auto)]

use report::report;
use std::io::{BufWriter, Write};
use std::{env, fs, io};

fn main(rt: HostRuntime) -> io::Result<()> {
    let mut out = BufWriter::new(rt.alloc(), rt.stdout())?;
    // kept: the other program of cases has this loop too; a function of both would take a closure and be longer.
    for name in env::args(&rt)?.skip(1) {
        let sheet = fs::read(&rt, name.as_str())?;
        let text = report(rt.alloc(), sheet.as_slice())?;
        write!(out, "{name}: {text}")?;
    }
    out.flush()
}
