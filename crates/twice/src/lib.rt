//! A board joined with one task, and the joined board with another: an automaton first, rules over it.
#![tactic(auto)]

ghost use Rattle.std.specs.Prelude.{◌≡◌, ◌*◌, ◌<◌, length, MatchResult};
ghost use Rattle.refusal.specs.Number.{refusal_number};
ghost use Rattle.board.specs.Table.{Table};
ghost use Rattle.task.specs.Dfa.{Dfa};
ghost use Rattle.twice.specs.Twice.{RoomForBoth};

use board::Board;
use joined::{join, room};
use refusal::Refusal;
use task::Task;

/// Refuses to join a board with one task and then with another where that would be more than 4,096 positions.
/// Otherwise the board that two calls of `join` give rests at the end of a play exactly when the board below rests there and both tasks accept the labels of all positions held.
pub fn room_for_both<B: Board, T: Task, U: Task>(
    board: &B,
    first: &T,
    second: &U,
) -> Result<(), Refusal>
    ensures { MatchResult result (λ _. RoomForBoth (B.Board.meaning board.now) (T.Task.meaning first.now) (U.Task.meaning second.now)) (λ e. (e ≡ Refusal.JoinTooLarge) × (refusal_number e ≡ 22) × (4096 < length (B.Board.meaning board.now).rows * (T.Task.meaning first.now).states * (U.Task.meaning second.now).states)) }
{
    room(board, first)?;
    room(&join(board, first), second)
}
