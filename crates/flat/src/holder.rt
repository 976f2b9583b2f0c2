// The rows and the moves of a flat board.
ghost use Rattle.board.specs.Ranges.{InRange};
ghost use Rattle.flat.specs.Flat.{Inside, flat_table};

use crate::parts::FlatRow;
use board::Step;

/// A board in two lists of its own: the positions, and the moves of all positions one after another.
#[derive(Drop)]
pub struct FlatBoard {
    pub(crate) rows: Vec<FlatRow>,
    pub(crate) steps: Vec<Step>,
    pub(crate) start: u32,
    // the moves of each position are among the moves
    ghost inside: { Inside rows.items steps.items },
    // the lists hold a board
    ghost within: { ∥ InRange (flat_table rows.items steps.items start) ∥₁ },
}
