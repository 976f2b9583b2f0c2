// Who tells a run what happened on the bench.
ghost use Rattle.std.specs.Prelude.{◌≡◌, List, [], ◌∷◌, ◌++◌, IfNone, IfOk, IfErr};
ghost use Rattle.game.specs.declared.parts.Event.{Event as BenchEvent};
ghost use Rattle.session.specs.declared.parts.Shown.{Shown as LogEntry};
ghost use Rattle.std.specs.Option.{option_to_list};

use crate::parts::{Cut, Shown};
use game::Event;

/// The bench's side of a session: it tells the events, one at a time, and is shown what the run answers before the next.
pub trait Desk {
    // the events told so far, first to last
    ghost told: { Self → List BenchEvent };

    // what it was shown so far, first to last
    ghost log: { Self → List LogEntry };

    // it has no event left to tell
    ghost closed: { Self → Type 0 };

    // it could not log what it was shown
    ghost broken: { Self → Type 0 };

    // kept: an error beside the option would cut a session that now ends with its whole log
    /// The next event, or none to end the run.
    fn next(&mut self) -> Option<Event>
        ensures told { told self.new ≡ told self.old ++ option_to_list result }
        ensures log { log self.new ≡ log self.old }
        ensures closed { IfNone result (closed self.new) };

    /// Is shown that a run has begun, or what it answered to the last event. An error where it could not be logged, which cuts the session.
    fn show(&mut self, shown: Shown) -> Result<(), Cut>
        ensures told { told self.new ≡ told self.old }
        ensures log { IfOk result (λ _. log self.new ≡ log self.old ++ (shown ∷ [])) }
        ensures broken { IfErr result (λ _. broken self.new) };
}
