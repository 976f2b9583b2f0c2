// Beginning and ending a run.
ghost use Rattle.std.specs.Prelude.{◌≡◌, Some, None, MatchResult};
ghost use Rattle.cost.specs.Numbers.{on_numbers};
ghost use Rattle.game.specs.Progress.{phase_at, begun};
ghost use Rattle.run.specs.Begins.{begin_refusal};

use crate::parts::{Run, Unbegun};
use board::{Board, Turn};
use cells::{rests_at, turn_at};
use cost::Cost;
use game::{Phase, Progress};
use refusal::Refusal;
use solve::{Plan, Verdict};

// The phase of a run that has come to `p`: ended where it rests, otherwise by its turn.
pub(crate) fn phase_at<B: Board>(board: &B, p: u32) -> Phase
    ensures { result ≡ phase_at (B.meaning board.now) p }
{
    if rests_at(board, p) {
        return Phase::Ended;
    }
    match turn_at(board, p) {
        Turn::Arm => Phase::ArmTurn,
        Turn::Person => Phase::PersonTurn,
    }
}

// Why no run begins on a board by a plan of this count and verdict; none where one does.
fn refusal<B: Board>(board: &B, count: u32, verdict: Verdict) -> Option<Refusal>
    ensures { result ≡ begin_refusal (B.meaning board.now) count verdict }
{
    if board.count() != count {
        return Some(Refusal::OtherCount);
    }
    match verdict {
        Verdict::Within => None,
        Verdict::Over => Some(Refusal::OverBudget),
        Verdict::Never => Some(Refusal::NeverDone),
    }
}

impl<'a, C: Cost> Run<'a, C> {
    /// Begins a run: it takes the plan, stands at the plan's start, has spent nothing and made no move.
    /// It is refused where the board's count is not the plan's, and then where the verdict is not within. A refusal hands the plan back.
    pub fn begin<B: Board>(plan: Plan<'a, C>, board: &B) -> Result<Run<'a, C>, Unbegun<'a, C>>
        ensures { MatchResult result (λ u. (begin_refusal (B.meaning board.now) plan.entry.count plan.entry.verdict ≡ None) × (u.plan ≡ plan.entry) × (u.progress ≡ begun (on_numbers C.kind) (B.meaning board.now) plan.entry.start)) (λ e. (begin_refusal (B.meaning board.now) plan.entry.count plan.entry.verdict ≡ Some e.why) × (e.plan ≡ plan.entry)) }
    {
        if let Some(why) = refusal(board, plan.count(), plan.verdict()) {
            return Err(Unbegun { why, plan });
        }
        let position = plan.start();
        let progress = Progress {
            position,
            spent: C::zero().numbers(),
            made: 0,
            phase: phase_at(board, position),
        };
        Ok(Run { plan, progress })
    }

    /// How far the run has come.
    pub fn progress(&self) -> Progress<(u32, u32)>
        ensures { result ≡ self.now.progress }
    {
        self.progress
    }

    /// Ends the run, in any phase, and gives its plan back.
    pub fn end(self) -> Plan<'a, C>
        ensures { result ≡ self.entry.plan }
    {
        let Run { plan, progress: _ } = self;
        plan
    }
}
