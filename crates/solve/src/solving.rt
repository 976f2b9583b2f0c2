// Solving.
ghost use Rattle.std.specs.Prelude.{◌≡◌, MatchResult};
ghost use Rattle.cells.specs.Cells.{solved_cells};
ghost use Rattle.refusal.specs.Number.{refusal_number};
ghost use Rattle.rounds.specs.Room.{Room, Short};
ghost use Rattle.solve.specs.Solves.{Solves};
ghost use Rattle.solve.specs.Verdicts.{verdict_of};

use crate::plan::{Plan, Unsolved};
use crate::verdict::Verdict;
use board::Board;
use cells::{Cell, read};
use cost::Cost;
use refusal::Refusal;
use rounds::final_cells;
use std::marker::PhantomData;

// The verdict on a start of this value.
fn judge<C: Cost>(value: Option<C>, budget: C) -> Verdict
    ensures { result ≡ verdict_of C.kind budget value }
{
    match value {
        Some(cost) if cost.at_most(budget) => Verdict::Within,
        Some(_) => Verdict::Over,
        None => Verdict::Never,
    }
}

// kept: when lists are refused stands in each contract in the words of its own lists, here, in the rounds and in a session, since a shorter name would say less to a reader.
/// Solves the board for the kind of cost `C`, with a budget that is read as a move's charge.
/// The final cells are written to both lists, cells past the count keep what they held, and the plan keeps the first list.
/// A list that is shorter than the board is refused: nothing is written, and the first list is handed back.
pub fn solve<'a, B: Board, C: Cost>(
    board: &B,
    bruise: u32,
    energy: u32,
    one: &'a mut [Cell],
    two: &mut [Cell],
) -> Result<Plan<'a, C>, Unsolved<'a>>
    ensures plan { MatchResult result (λ p. Solves C.kind (B.meaning board.now) bruise energy one.old p) (λ e. (e.why ≡ Refusal.ShortCells) × (refusal_number e.why ≡ 30) × (e.cells.now ≡ one.old) × (e.cells.ghost_name ≡ one.entry.ghost_name)) }
    ensures other { MatchResult result (λ p. two.new ≡ solved_cells C.kind (B.meaning board.now) p.rounds two.old) (λ _. two.new ≡ two.old) }
    ensures when { MatchResult result (λ _. Room (B.meaning board.now) one.old two.old) (λ _. Short (B.meaning board.now) one.old two.old) }
{
    // kept: bruise and energy as parameters, as the charge of a move; the lists apart, since the plan keeps the first and gives the other back at once; and a match, since a closure for `map_err` would take `one`.
    match final_cells::<B, C>(board, one, two) {
        Ok(rounds) => {
            let budget = C::charge(bruise, energy);
            let start = board.start();
            let verdict = judge(read::<C>(one[start as usize].cost), budget);
            Ok(Plan {
                cells: one,
                count: board.count(),
                start,
                rounds,
                budget: budget.numbers(),
                verdict,
                kind: PhantomData,
            })
        }
        Err(why) => Err(Unsolved { why, cells: one }),
    }
}
