// What a run is, and what it answers.
use game::Progress;
use refusal::Refusal;
use solve::Plan;

/// A run: a plan, and how far it has come. The cost spent is kept as its two numbers.
/// Only beginning makes one, and it is ended, not copied or dropped.
pub struct Run<'a, C> {
    pub(crate) plan: Plan<'a, C>,
    pub(crate) progress: Progress<(u32, u32)>,
}

/// Why a run did not begin, with the plan that it would have taken.
pub struct Unbegun<'a, C> {
    pub why: Refusal,
    pub plan: Plan<'a, C>,
}

/// What a run answers to an event that it accepts.
// kept: no Option of a move, since both cases say what happened.
#[derive(Clone, Copy, Debug, PartialEq)]
pub enum Answer {
    /// The arm begins this move.
    Begins(u32),
    /// A move was made.
    Made,
}
