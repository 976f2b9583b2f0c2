// The questions that a board answers.
ghost use Rattle.std.specs.Prelude.{◌≡◌, Bool, length};
ghost use Rattle.board.specs.Table.{Table};
ghost use Rattle.board.specs.Ranges.{InRange};
ghost use Rattle.board.specs.Questions.{turn_at, label_at, rests_at, degree_at, step_at};

use crate::parts::{Step, Turn};

/// A board: positions with a turn, a label, a resting mark and moves, and a start.
/// Asking changes nothing, and a position or a move that is not there answers none.
pub trait Board {
    // the finite table of its answers
    ghost meaning: { Self → Table };

    // every table that is meant is within the ranges
    ghost ranges: { (b : Self) → InRange (meaning b) };

    /// How many positions there are.
    fn count(&self) -> u32
        ensures { result ≡ length (meaning self.now).rows };

    /// Where plays start.
    fn start(&self) -> u32
        ensures { result ≡ (meaning self.now).start };

    /// Who moves at `p`.
    fn turn(&self, p: u32) -> Option<Turn>
        ensures { result ≡ turn_at (meaning self.now) p };

    /// The signs at `p`, as the sum of 2 to the power of each.
    fn label(&self, p: u32) -> Option<u32>
        ensures { result ≡ label_at (meaning self.now) p };

    /// Whether `p` is a resting place.
    fn rests(&self, p: u32) -> Option<bool>
        ensures { result ≡ rests_at (meaning self.now) p };

    /// How many moves `p` has.
    fn degree(&self, p: u32) -> Option<u32>
        ensures { result ≡ degree_at (meaning self.now) p };

    /// Move `k` of `p`.
    fn step(&self, p: u32, k: u32) -> Option<Step>
        ensures { result ≡ step_at (meaning self.now) p k };
}
