// What a session shows and answers.
use game::{Event, Progress};
use refusal::Refusal;
use run::Answer;
use solve::Plan;

/// An event, what the run answered, and how far it had come then.
#[derive(Clone, Copy, Debug, PartialEq)]
pub struct Note {
    pub event: Event,
    pub answer: Result<Answer, Refusal>,
    pub progress: Progress<(u32, u32)>,
}

/// What a desk is shown.
#[derive(Clone, Copy, Debug, PartialEq)]
pub enum Shown {
    /// A run has begun.
    Begun(Progress<(u32, u32)>),
    /// An event was answered.
    Answered(Note),
}

/// How a session ended.
// kept: no Result, since it has two ways of not ending here, of which one has a refusal.
#[derive(Clone, Copy, Debug, PartialEq)]
pub enum Ending {
    /// The run was ended here.
    Ended(Progress<(u32, u32)>),
    /// No run began.
    NotBegun(Refusal),
    /// The run was ended since the desk could not log what it was shown, or told 2^64 - 1 events.
    Cut,
}

/// A session is cut: the desk could not log what it was shown, or told 2^64 - 1 events.
#[derive(Clone, Copy, Debug, PartialEq)]
pub struct Cut;

/// What a session hands back: the plan, and how it ended.
pub struct Served<'a, C> {
    pub plan: Plan<'a, C>,
    pub ending: Ending,
}
