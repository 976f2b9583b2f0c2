//! Follows a run on the board of a sheet: `follow KIND SHEETFILE`, and then one event a line on standard input, each answered at once.
#![tactic(auto)]

use anyhow::bail;
use console::follow;
use load::read_bytes;
use std::io::BufReader;
use std::{env, fs};
use wording::CostKind;

fn main(rt: HostRuntime) -> anyhow::Result<()> {
    let mut args = env::args(&rt)?.skip(1);
    let (Some(kind), Some(file), None) = (args.next(), args.next(), args.next()) else {
        bail!("usage: follow KIND SHEETFILE");
    };
    let kind: CostKind = kind.parse()?;
    let sheet = read_bytes(rt.alloc(), fs::open(&rt, file.as_str())?)?;
    follow(
        rt.alloc(),
        kind,
        sheet.as_slice(),
        BufReader::new(rt.alloc(), rt.stdin())?,
        rt.stdout(),
    )?;
    Ok(())
}
