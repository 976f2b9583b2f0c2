// Table boards out of tables.
ghost use Rattle.std.specs.Prelude.{◌≡◌, length};
ghost use Rattle.std.specs.List.{list_all};
ghost use Rattle.sheet_format.specs.Boards.{tables_board};
ghost use Rattle.table.specs.Fit.{TablesHold, move_fits, entry_fits, tables_fit};
ghost use Rattle.table.specs.Laws.{SheetsHold, TestsHold};
ghost use Rattle.table.specs.Meaning.{board_of, idle_board, table_meaning};

use crate::holder::TableBoard;
use board::Turn;
use entries::{Move, Position, PositionEntry};

// The position table of the idle board.
// kept: a static is made of literals, so it calls no `new`.
static IDLE: [PositionEntry; 1] = [PositionEntry {
    position: Position {
        turn: Turn::Arm,
        rests: true,
        label: 0,
    },
    first: 0,
    degree: 0,
}];

impl<'a> TableBoard<'a> {
    /// The board that a position table and a move table hold.
    /// They hold one where it is within the ranges and the moves of each entry lie inside the move table.
    /// Where they hold none, the answer is the idle board: one resting position of the arm, without signs or moves.
    #[tactic(auto, using(crate::proofs::Tests::held_fit, crate::proofs::Tests::fit_held))]
    pub fn over(entries: &'a [PositionEntry], moves: &'a [Move], start: u32) -> TableBoard<'a>
        ensures means { table_meaning result ≡ board_of entries.now moves.now start }
        ensures held { TablesHold entries.now moves.now start → table_meaning result ≡ tables_board entries.now moves.now start }
        ensures idle { (TablesHold entries.now moves.now start → ⊥) → table_meaning result ≡ idle_board }
    {
        if tables_fit(entries, moves, start) {
            TableBoard {
                entries,
                moves,
                start,
            }
        } else {
            TableBoard {
                entries: &IDLE,
                moves: &[],
                start: 0,
            }
        }
    }
}

/// The test that `TableBoard::over` makes passes exactly the tables that hold a board; those of a well-formed sheet do, and the board is the one that the sheet spells.
pub fn sheet_boards()
    ensures test { TestsHold }
    ensures sheets { SheetsHold }
{}

// Whether tables hold a board.
fn tables_fit(entries: &[PositionEntry], moves: &[Move], start: u32) -> bool
    ensures { result ≡ tables_fit entries.now moves.now start }
{
    let count = entries.len();
    count <= 4096 && (start as usize) < count && entries_fit(entries, moves)
}

// Whether each entry is within the ranges.
fn entries_fit(entries: &[PositionEntry], moves: &[Move]) -> bool
    ensures { result ≡ list_all (entry_fits (length entries.now) moves.now) entries.now }
{
    let count = entries.len();
    entries.iter().all(|e| entry_fits(count, moves, *e))
}

// Whether an entry of a board of `count` positions is within the ranges.
fn entry_fits(count: usize, moves: &[Move], e: PositionEntry) -> bool
    ensures { result ≡ entry_fits count moves.now e }
{
    let first = e.first as usize;
    let degree = e.degree as usize;
    e.position.label < 65536
        && degree <= 64
        && first + degree <= moves.len()
        && moves_fit(count, e.position.turn, &moves[first..first + degree])
}

// Whether each move of a position is within the ranges.
fn moves_fit(count: usize, turn: Turn, moves: &[Move]) -> bool
    ensures { result ≡ list_all (move_fits count turn) moves.now }
{
    moves.iter().all(|m| move_fits(count, turn, *m))
}

// Whether a move is within the ranges, and free if it is a person's.
fn move_fits(count: usize, turn: Turn, m: Move) -> bool
    ensures { result ≡ move_fits count turn m }
{
    let free = turn == Turn::Arm || m.bruise == 0 && m.energy == 0;
    (m.to as usize) < count && m.bruise <= 1000 && m.energy <= 1000000 && free
}
