// What a joined board answers.
ghost use Rattle.std.specs.Prelude.{◌≡◌, ℕ, ◌<◌, ◌≤◌, Bool, length, MatchResult};
ghost use Rattle.refusal.specs.Number.{refusal_number};
ghost use Rattle.board.specs.Table.{Table, row_at};
ghost use Rattle.task.specs.Dfa.{Dfa};
ghost use Rattle.product.specs.Joins.{IsJoin};
ghost use Rattle.product.specs.Product.{joined};
ghost use Rattle.joined.specs.Meant.{join_size, meant, meant_in_range, below_of, width_of, Room};

use crate::pair::Joined;
use board::{Board, Step, Turn};
use refusal::Refusal;
use task::Task;

// A board has at most so many positions.
const MOST_POSITIONS: u64 = 4096;

/// Refuses to join a board and a task where that would be more than 4,096 positions. Otherwise what `join` gives is the whole join.
pub fn room<B: Board, T: Task>(below: &B, task: &T) -> Result<(), Refusal>
    ensures { MatchResult result (λ _. Room (B.Board.meaning below.now) (T.Task.meaning task.now)) (λ e. (e ≡ Refusal.JoinTooLarge) × (refusal_number e ≡ 22) × (4096 < join_size (B.Board.meaning below.now) (T.Task.meaning task.now))) }
{
    if width(below, task).is_some() {
        Ok(())
    } else {
        Err(Refusal::JoinTooLarge)
    }
}

// The number of states, where the join has at most 4,096 positions.
fn width<B: Board, T: Task>(below: &B, task: &T) -> Option<u32>
    ensures { result ≡ width_of (B.Board.meaning below.now) (T.Task.meaning task.now) }
{
    let states = task.states();
    (below.count() as u64 * states as u64 <= MOST_POSITIONS).then_some(states)
}

/// Joins a board and a task that `room` does not refuse.
/// A play of the joined board is a list of moves below; it rests exactly when the board below rests where these moves lead and the task accepts the labels of all positions held, first to last.
pub fn join<'a, 'b, B: Board, T: Task>(below: &'a B, task: &'b T) -> Joined<'a, 'b, B, T>
    ensures kept { (result.below.now ≡ below.now) × (result.task.now ≡ task.now) }
    ensures whole { join_size (B.Board.meaning below.now) (T.Task.meaning task.now) ≤ 4096 → meant (B.Board.meaning result.below.now) (T.Task.meaning result.task.now) ≡ joined (B.Board.meaning below.now) (T.Task.meaning task.now) }
    ensures plays { join_size (B.Board.meaning below.now) (T.Task.meaning task.now) ≤ 4096 → IsJoin (B.Board.meaning below.now) (T.Task.meaning task.now) (meant (B.Board.meaning result.below.now) (T.Task.meaning result.task.now)) }
{
    Joined { below, task }
}

impl<'a, 'b, B: Board, T: Task> Joined<'a, 'b, B, T> {
    // The number of states, where the join has at most 4,096 positions.
    fn width(&self) -> Option<u32>
        ensures { result ≡ width_of (B.Board.meaning self.now.below.now) (T.Task.meaning self.now.task.now) }
    {
        width(self.below, self.task)
    }

    // The position below that `p` stands for.
    fn below_of(&self, p: u32) -> u32
        ensures { result ≡ below_of (B.Board.meaning self.now.below.now) (T.Task.meaning self.now.task.now) p }
    {
        self.width().map_or(p, |width| p / width)
    }

    // The state after `z` reads the label of `p`.
    #[tactic(auto, using(crate::proofs::Wide::label_there, crate::proofs::Wide::next_there))]
    fn state_after(&self, z: u32, p: u32) -> u32
        requires state { z < (T.Task.meaning self.now.task.now).states }
        requires there { p < length (B.Board.meaning self.now.below.now).rows }
        ensures { result ≡ (T.Task.meaning self.now.task.now).next z (row_at (B.Board.meaning self.now.below.now) p).label }
    {
        let label = self.below.label(p).unwrap();
        self.task.next(z, label).unwrap()
    }
}

#[tactic(auto, using(crate::proofs::Wide::below_turn, crate::proofs::Wide::below_label, crate::proofs::Wide::below_degree))]
impl<'a, 'b, B: Board, T: Task> Board for Joined<'a, 'b, B, T> {
    ghost meaning = { λ j. meant (B.Board.meaning j.below.now) (T.Task.meaning j.task.now) };

    ghost ranges = { λ j. meant_in_range (B.Board.meaning j.below.now) (T.Task.meaning j.task.now) (B.Board.ranges j.below.now) (T.Task.ranges j.task.now) };

    fn count(&self) -> u32 {
        let count = self.below.count();
        self.width().map_or(count, |width| count * width)
    }

    fn start(&self) -> u32 {
        let p = self.below.start();
        match self.width() {
            Some(width) => p * width + self.state_after(self.task.first(), p),
            None => p,
        }
    }

    fn turn(&self, p: u32) -> Option<Turn> {
        self.below.turn(self.below_of(p))
    }

    fn label(&self, p: u32) -> Option<u32> {
        self.below.label(self.below_of(p))
    }

    fn rests(&self, p: u32) -> Option<bool> {
        let Some(width) = self.width() else {
            return self.below.rests(p)
        };
        let rests = self.below.rests(p / width)?;
        if rests {
            self.task.accepting(p % width)
        } else {
            Some(false)
        }
    }

    fn degree(&self, p: u32) -> Option<u32> {
        self.below.degree(self.below_of(p))
    }

    fn step(&self, p: u32, k: u32) -> Option<Step> {
        let Some(width) = self.width() else {
            return self.below.step(p, k)
        };
        let step = self.below.step(p / width, k)?;
        let target = step.target * width + self.state_after(p % width, step.target);
        Some(Step { target, ..step })
    }
}
