// Rounds until one changes nothing.
ghost use Rattle.std.specs.Prelude.{◌≡◌, ◌≤◌, ◌++◌, length, take, drop, MatchResult};
ghost use Rattle.cells.specs.Cells.{solved_cells};
ghost use Rattle.game.specs.Rounds.{NumberOfRounds};
ghost use Rattle.refusal.specs.Number.{refusal_number};
ghost use Rattle.rounds.specs.Room.{Room, Short};

use crate::sweep::{first_cells, next_cells};
use board::Board;
use cells::Cell;
use cost::Cost;
use refusal::Refusal;

// Copies the first `count` cells of one list to the other.
fn copy(from: &[Cell], to: &mut [Cell], count: usize)
    requires { (count ≤ length from.now) × (count ≤ length to.old) }
    ensures { to.new ≡ take count from.now ++ drop count to.old }
{
    to[..count].copy_from_slice(&from[..count]);
}

// kept: the two lists stand apart with their room, here and in a sweep, since each is read and written in turn, and a struct of two `&mut` would say again that both are the same references.
// Rounds to the fixed point: how many there are, and the final cells in both lists.
fn settle<B: Board, C: Cost>(board: &B, one: &mut [Cell], two: &mut [Cell]) -> u32
    requires { (length (B.meaning board.now).rows ≤ length one.old) × (length (B.meaning board.now).rows ≤ length two.old) }
    ensures rounds { NumberOfRounds C.kind (B.meaning board.now) result }
    ensures one { one.new ≡ solved_cells C.kind (B.meaning board.now) result one.old }
    ensures two { two.new ≡ solved_cells C.kind (B.meaning board.now) result two.old }
{
    let count = board.count() as usize;
    first_cells::<B, C>(board, one);
    let mut n: u32 = 0;
    // kept: two rounds a turn: where two references are swapped in the loop, a proof does not know which list is which after it, and a function that calls itself with the lists exchanged may take stack for each round
    loop {
        if !next_cells::<B, C>(board, one, two, n) {
            copy(two, one, count);
            return n;
        }
        if !next_cells::<B, C>(board, two, one, n + 1) {
            copy(one, two, count);
            return n + 1;
        }
        n += 2;
    }
}

/// The number of rounds, with the final cells written to both lists; cells past the count keep what they held.
/// A list that is shorter than the board is refused, and then nothing is written.
pub fn final_cells<B: Board, C: Cost>(
    board: &B,
    one: &mut [Cell],
    two: &mut [Cell],
) -> Result<u32, Refusal>
    ensures rounds { MatchResult result (λ n. NumberOfRounds C.kind (B.meaning board.now) n) (λ e. (e ≡ Refusal.ShortCells) × (refusal_number e ≡ 30)) }
    ensures one { MatchResult result (λ n. one.new ≡ solved_cells C.kind (B.meaning board.now) n one.old) (λ _. one.new ≡ one.old) }
    ensures two { MatchResult result (λ n. two.new ≡ solved_cells C.kind (B.meaning board.now) n two.old) (λ _. two.new ≡ two.old) }
    ensures when { MatchResult result (λ _. Room (B.meaning board.now) one.old two.old) (λ _. Short (B.meaning board.now) one.old two.old) }
{
    let count = board.count() as usize;
    if one.len() < count || two.len() < count {
        return Err(Refusal::ShortCells);
    }
    Ok(settle::<B, C>(board, one, two))
}
