// A board's answers, with those of the absent row and the absent move where there is none.
ghost use Rattle.std.specs.Prelude.{◌≡◌};
ghost use Rattle.board.specs.Table.{row_at};
ghost use Rattle.game.specs.Plays.{degree, move_of};

use board::{Board, Step, Turn};

/// Whether `p` is a resting place; one that is not there is none.
pub fn rests_at<B: Board>(board: &B, p: u32) -> bool
    ensures { result ≡ (row_at (B.meaning board.now) p).rests }
{
    board.rests(p).unwrap_or(false)
}

/// Who moves at `p`; the arm where it is not there.
pub fn turn_at<B: Board>(board: &B, p: u32) -> Turn
    ensures { result ≡ (row_at (B.meaning board.now) p).turn }
{
    board.turn(p).unwrap_or(Turn::Arm)
}

/// How many moves `p` has; none where it is not there.
pub fn degree_at<B: Board>(board: &B, p: u32) -> u32
    ensures { result ≡ degree (B.meaning board.now) p }
{
    board.degree(p).unwrap_or(0)
}

/// Move `m` of `p`; a free move to position 0 where it is not there.
pub fn step_at<B: Board>(board: &B, p: u32, m: u32) -> Step
    ensures { result ≡ move_of (B.meaning board.now) p m }
{
    board.step(p, m).unwrap_or_default()
}
