// Events of a run.
ghost use Rattle.std.specs.Prelude.{◌≡◌, IfErr};
ghost use Rattle.cells.specs.Said.{plan_cell};
ghost use Rattle.cost.specs.Numbers.{on_numbers};
ghost use Rattle.game.specs.Events.{refused, if_there, outcome, after_event};
ghost use Rattle.game.specs.Progress.{moved};
ghost use Rattle.refusal.specs.Number.{refusal_number};
ghost use Rattle.run.specs.Answers.{answer_of, plan_move};

use crate::beginning::phase_at;
use crate::parts::{Answer, Run};
use board::Board;
use cells::{degree_at, step_at};
use cost::Cost;
use game::{Event, Phase, Progress};
use refusal::Refusal;

// The move, where it is there at `p`.
fn if_there<B: Board>(board: &B, p: u32, m: Option<u32>) -> Option<u32>
    ensures { result ≡ if_there (B.meaning board.now) p m }
{
    let degree = degree_at(board, p);
    m.filter(|m| *m < degree)
}

impl<'a, C: Cost> Run<'a, C> {
    // The chosen move where the run stands, if it is there on the board shown.
    fn chosen<B: Board>(&self, board: &B) -> Option<u32>
        ensures { result ≡ if_there (B.meaning board.now) self.now.progress.position (plan_move self.now.plan self.now.progress.position) }
    {
        let position = self.progress.position;
        if_there(board, position, self.plan.planned(position).choice)
    }

    // Makes a move: goes to its target, adds its charge, counts it, and sets the phase.
    fn make<B: Board>(&mut self, board: &B, m: u32)
        ensures plan { self.new.plan ≡ self.old.plan }
        ensures after { self.new.progress ≡ moved (on_numbers C.kind) (B.meaning board.now) self.old.progress m }
    {
        let step = step_at(board, self.progress.position, m);
        let charge = C::charge(step.bruise, step.energy);
        self.progress = Progress {
            position: step.target,
            spent: C::from_numbers(self.progress.spent).plus(charge).numbers(),
            made: self.progress.made.saturating_add(1),
            phase: phase_at(board, step.target),
        };
    }

    /// Tells the run an event, on the board shown. The event and the phase decide what happens; a refusal changes nothing.
    pub fn tell<B: Board>(&mut self, board: &B, event: Event) -> Result<Answer, Refusal>
        ensures plan { self.new.plan ≡ self.old.plan }
        ensures after { self.new.progress ≡ after_event (on_numbers C.kind) (B.meaning board.now) self.old.plan.count (plan_move self.old.plan) self.old.progress event }
        ensures answer { result ≡ answer_of (outcome (B.meaning board.now) self.old.plan.count (plan_move self.old.plan) self.old.progress event) }
        ensures number { IfErr result (λ e. outcome (B.meaning board.now) self.old.plan.count (plan_move self.old.plan) self.old.progress event ≡ refused (refusal_number e)) }
    {
        if board.count() != self.plan.count() {
            return Err(Refusal::OtherCount);
        }
        match (self.progress.phase, event) {
            (Phase::Ended, _) => Err(Refusal::RunEnded),
            (Phase::ArmTurn, Event::Go) => {
                let next = self.chosen(board).ok_or(Refusal::NoSuchMove)?;
                self.progress.phase = Phase::Moving;
                Ok(Answer::Begins(next))
            }
            (Phase::Moving, Event::There) => {
                let m = self.chosen(board).ok_or(Refusal::NoSuchMove)?;
                self.make(board, m);
                Ok(Answer::Made)
            }
            (Phase::PersonTurn, Event::Hand(k)) => {
                let m = if_there(board, self.progress.position, Some(k)).ok_or(
                    Refusal::NoSuchMove,
                )?;
                self.make(board, m);
                Ok(Answer::Made)
            }
            _ => Err(Refusal::UnfitEvent),
        }
    }
}
