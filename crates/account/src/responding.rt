// The answer to a sheet.
use crate::printing::{write_board, write_joined, write_tables};
use automaton::Automaton;
use board::Board;
use joined::join;
use load::{LoadError, Tables};
use refusal::Refusal;
use rules::Rules;
use std::alloc::Global;
use std::io;
use std::io::Write;
use twice::room_for_both;

// What the account tells of a joined board.
#[derive(Clone, Copy)]
pub(crate) struct Summary {
    pub(crate) count: u32,
    pub(crate) start: u32,
}

// The count and the start of a board with the tasks of the tables joined to it.
// The joined board is asked for these two and not copied, since a copy takes time and memory for each of its moves.
fn joined_summary<B: Board>(board: &B, tables: &Tables) -> Result<Summary, Refusal> {
    let automaton = Automaton::over(tables.states.as_slice(), tables.arrows.as_slice())?;
    let rules = Rules::over(tables.rules.as_slice())?;
    room_for_both(board, &automaton, &rules)?;
    let followed = join(board, &automaton);
    let joined = join(&followed, &rules);
    Ok(Summary {
        count: joined.count(),
        start: joined.start(),
    })
}

// The tables of a sheet, and what is told of its board with the tasks joined.
fn loaded(heap: Global, sheet: &[u8]) -> Result<(Tables, Summary), LoadError> {
    let tables = Tables::read(heap, sheet)?;
    let joined = joined_summary(&tables.board(), &tables)?;
    Ok((tables, joined))
}

/// Writes the account of a sheet, or its refusal. Nothing is written before it is known that the tasks can be joined.
pub fn respond<W: Write>(heap: Global, sheet: &[u8], out: &mut W) -> io::Result<()> {
    match loaded(heap, sheet) {
        Ok((tables, joined)) => {
            write_tables(out, &tables)?;
            write_joined(out, joined)?;
            write_board(out, &tables.board())
        }
        Err(error) => {
            let fault = error.fault()?;
            writeln!(out, "{fault}")
        }
    }
}
