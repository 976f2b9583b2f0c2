// A position table and a move table.
ghost use Rattle.std.specs.Prelude.{◌≡◌, true};
ghost use Rattle.table.specs.Fit.{tables_fit};

use entries::{Move, PositionEntry};

/// A board over a position table and a move table that hold one.
// kept: an entry names its moves by their place in the move table, since both tables are lent.
#[derive(Clone, Copy)]
pub struct TableBoard<'a> {
    pub(crate) entries: &'a [PositionEntry],
    pub(crate) moves: &'a [Move],
    pub(crate) start: u32,
    // the tables hold a board
    ghost fits: { tables_fit entries.now moves.now start ≡ true },
}
