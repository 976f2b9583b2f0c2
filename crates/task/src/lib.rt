//! Tasks: the interface that the joined board asks, and its meaning as an automaton that reads labels.
#![tactic(auto)]

ghost use Rattle.std.specs.Prelude.{◌≡◌, Bool};
ghost use Rattle.task.specs.Dfa.{Dfa, DfaInRange, next_at, accepting_at};

/// A task: states, a first one, a next one for a state and a label, and which states accept.
/// Asking changes nothing, and a state that is not there answers none.
pub trait Task {
    // the automaton of its answers
    ghost meaning: { Self → Dfa };

    // the first state and every next state are there
    ghost ranges: { (t : Self) → DfaInRange (meaning t) };

    /// How many states there are.
    fn states(&self) -> u32
        ensures { result ≡ (meaning self.now).states };

    /// Where reading begins.
    fn first(&self) -> u32
        ensures { result ≡ (meaning self.now).first };

    /// The state after `z` reads `label`.
    fn next(&self, z: u32, label: u32) -> Option<u32>
        ensures { result ≡ next_at (meaning self.now) z label };

    /// Whether `z` accepts.
    fn accepting(&self, z: u32) -> Option<bool>
        ensures { result ≡ accepting_at (meaning self.now) z };
}
