// Lines of the account.
use crate::responding::Summary;
use board::{Board, Step};
use load::Tables;
use std::io;
use std::io::Write;

// The counts of the sections, the start and the budget.
pub(crate) fn write_tables<W: Write>(out: &mut W, tables: &Tables) -> io::Result<()> {
    writeln!(out, "positions {}", tables.positions.len())?;
    writeln!(out, "moves {}", tables.moves.len())?;
    writeln!(out, "states {}", tables.states.len())?;
    writeln!(out, "arrows {}", tables.arrows.len())?;
    writeln!(out, "rules {}", tables.rules.len())?;
    writeln!(out, "start {}", tables.start.position)?;
    writeln!(
        out,
        "budget {} {}",
        tables.start.bruise, tables.start.energy
    )
}

// The count and the start of the joined board.
pub(crate) fn write_joined<W: Write>(out: &mut W, joined: Summary) -> io::Result<()> {
    writeln!(out, "joined {} {}", joined.count, joined.start)
}

// A position: its number, turn, resting mark and label, then each move as target, bruise and energy.
fn write_position<W: Write, B: Board>(out: &mut W, board: &B, p: u32) -> io::Result<()> {
    if let (Some(turn), Some(rests), Some(label)) = (
        board.turn(p),
        board.rests(p),
        board.label(p),
    ) {
        let mark = if rests { 'r' } else { '-' };
        write!(out, "{p} {turn} {mark} {label}")?;
    }
    // kept: a loop, here and below, since each part is written with `?`.
    for k in 0..board.degree(p).unwrap_or(0) {
        if let Some(
            Step {
                target,
                bruise,
                energy,
            },
        ) = board.step(p, k)
        {
            write!(out, " {target}:{bruise}:{energy}")?;
        }
    }
    writeln!(out)
}

// A line for each position.
pub(crate) fn write_board<W: Write, B: Board>(out: &mut W, board: &B) -> io::Result<()> {
    for p in 0..board.count() {
        write_position(out, board, p)?;
    }
    Ok(())
}
