// Serving a desk.
ghost use Rattle.std.specs.Prelude.{◌≡◌, [], ◌∷◌, ◌++◌, IfOk, IfErr, MatchResult};
ghost use Rattle.cells.specs.Cells.{solved_cells};
ghost use Rattle.cost.specs.Numbers.{on_numbers};
ghost use Rattle.refusal.specs.Number.{refusal_number};
ghost use Rattle.rounds.specs.Room.{Room, Short};
ghost use Rattle.run.specs.Answers.{plan_move};
ghost use Rattle.session.specs.Attends.{Attended, CutShort};
ghost use Rattle.session.specs.Serves.{Serves};
ghost use Rattle.session.specs.declared.parts.Shown.TheVariants.{Begun};
ghost use Rattle.solve.specs.Solves.{Solves};

use crate::desk::Desk;
use crate::parts::{Cut, Ending, Note, Served, Shown};
use board::Board;
use cells::Cell;
use cost::Cost;
use refusal::Refusal;
use run::{Run, Unbegun};
use solve::{Unsolved, solve};

// Shows the desk that a run has begun, and tells the run the desk's events one by one, until the desk has none left. Cut where the desk failed, or did not come to an end.
fn attend<'a, B: Board, C: Cost, D: Desk>(
    run: &mut Run<'a, C>,
    board: &B,
    desk: &mut D,
) -> Result<(), Cut>
    ensures plan { run.new.plan ≡ run.old.plan }
    ensures attended { IfOk result (λ _. Attended (on_numbers C.kind) (B.meaning board.now) run.old.plan.count (plan_move run.old.plan) run.old.progress run.new.progress (D.Desk.told desk.old) (D.Desk.told desk.new) (D.Desk.log desk.old ++ (Begun run.old.progress ∷ [])) (D.Desk.log desk.new)) }
    ensures closed { IfOk result (λ _. D.Desk.closed desk.new) }
    ensures cut { IfErr result (λ _. CutShort (D.Desk.told desk.old) (D.Desk.told desk.new) (D.Desk.broken desk.new)) }
{
    desk.show(Shown::Begun(run.progress()))?;
    // kept: a count that is never reached stands for a loop that the desk ends.
    for _ in 0..u64::MAX {
        let Some(event) = desk.next() else {
            return Ok(());
        };
        let answer = run.tell(board, event);
        let note = Note {
            event,
            answer,
            progress: run.progress(),
        };
        desk.show(Shown::Answered(note))?;
    }
    Err(Cut)
}

// kept: the budget and the lists as parameters, as solving takes them.
/// Solves a board, begins a run, tells it the desk's events one by one, shows the desk what each answered, and ends it.
/// Every time it is not refused, the plan that it hands back keeps the whole promise, and the desk's log is what the definition of a run gives for the events told.
/// A cell list that is shorter than the board is refused, and then nothing has happened.
pub fn serve<'a, B: Board, C: Cost, D: Desk>(
    board: &B,
    bruise: u32,
    energy: u32,
    one: &'a mut [Cell],
    two: &mut [Cell],
    desk: &mut D,
) -> Result<Served<'a, C>, Unsolved<'a>>
    ensures promise { MatchResult result (λ w. Serves C.kind (B.meaning board.now) (C.kind.charge bruise energy) (D.Desk.told desk.old) (D.Desk.told desk.new) (D.Desk.log desk.old) (D.Desk.log desk.new) (D.Desk.closed desk.new) (D.Desk.broken desk.new) w) (λ _. (D.Desk.told desk.new ≡ D.Desk.told desk.old) × (D.Desk.log desk.new ≡ D.Desk.log desk.old)) }
    ensures cells { MatchResult result (λ w. Solves C.kind (B.meaning board.now) bruise energy one.old w.plan) (λ e. (e.why ≡ Refusal.ShortCells) × (refusal_number e.why ≡ 30) × (e.cells.now ≡ one.old) × (e.cells.ghost_name ≡ one.entry.ghost_name)) }
    ensures other { MatchResult result (λ w. two.new ≡ solved_cells C.kind (B.meaning board.now) w.plan.rounds two.old) (λ _. two.new ≡ two.old) }
    ensures when { MatchResult result (λ _. Room (B.meaning board.now) one.old two.old) (λ _. Short (B.meaning board.now) one.old two.old) }
{
    let plan = solve::<B, C>(board, bruise, energy, one, two)?;
    match Run::begin(plan, board) {
        Ok(mut run) => {
            let ending = match attend(&mut run, board, desk) {
                Ok(()) => Ending::Ended(run.progress()),
                Err(Cut) => Ending::Cut,
            };
            Ok(Served {
                plan: run.end(),
                ending,
            })
        }
        Err(Unbegun { why, plan }) => Ok(Served {
            plan,
            ending: Ending::NotBegun(why),
        }),
    }
}
