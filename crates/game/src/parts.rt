// What a run holds, and what is told to it.

/// What a run waits for.
#[derive(Clone, Copy, Debug, PartialEq)]
pub enum Phase {
    ArmTurn,
    Moving,
    PersonTurn,
    Ended,
}

/// What happened on the bench.
#[derive(Clone, Copy, Debug, PartialEq)]
pub enum Event {
    /// The arm may begin to move.
    Go,
    /// The arm has made its move.
    There,
    /// The person has made this move.
    Hand(u32),
}

/// How far a run has come: where it stands, what its moves cost, how many there were, and what it waits for.
#[derive(Clone, Copy, Debug, PartialEq)]
pub struct Progress<C> {
    pub position: u32,
    pub spent: C,
    pub made: u32,
    pub phase: Phase,
}
