//! What a sheet's lines say: the entries of its tables.
#![tactic(auto)]

ghost use Rattle.std.specs.Prelude.{◌≡◌};

use board::Turn;

/// A position line: who moves, whether it is a resting place, and its label.
#[derive(Clone, Copy, Debug, Default, PartialEq)]
pub struct Position {
    pub turn: Turn,
    pub rests: bool,
    pub label: u32,
}

/// A move line.
#[derive(Clone, Copy, Debug, Default, PartialEq)]
pub struct Move {
    pub from: u32,
    pub to: u32,
    pub bruise: u32,
    pub energy: u32,
}

impl Move {
    /// The move of these four numbers.
    pub fn new(from: u32, to: u32, bruise: u32, energy: u32) -> Move
        ensures { result ≡ record { from = from; to = to; bruise = bruise; energy = energy } }
    {
        Move {
            from,
            to,
            bruise,
            energy,
        }
    }
}

/// An arrow of the automaton: it fits a label that has all signs of `need` and none of `bar`.
#[derive(Clone, Copy, Debug, Default, PartialEq)]
pub struct Arrow {
    pub from: u32,
    pub need: u32,
    pub bar: u32,
    pub to: u32,
}

impl Arrow {
    /// The arrow of these four numbers.
    pub fn new(from: u32, need: u32, bar: u32, to: u32) -> Arrow
        ensures { result ≡ record { from = from; need = need; bar = bar; to = to } }
    {
        Arrow {
            from,
            need,
            bar,
            to,
        }
    }
}

/// A rule, over signs.
#[derive(Clone, Copy, Debug, PartialEq)]
pub enum Rule {
    Met(u32),
    Never(u32),
    Before(u32, u32),
    After(u32, u32),
}

/// The start line: the position where plays start, and the budget.
#[derive(Clone, Copy, Debug, Default, PartialEq)]
pub struct Start {
    pub position: u32,
    pub bruise: u32,
    pub energy: u32,
}

/// An entry of the position table: a position, and where its moves stand in the move table.
#[derive(Clone, Copy, Debug, Default, PartialEq)]
pub struct PositionEntry {
    pub position: Position,
    pub first: u32,
    pub degree: u32,
}

impl PositionEntry {
    /// The entry of a position of this turn, resting mark and label, whose moves are `degree` of the move table's, from `first` on.
    pub fn new(turn: Turn, rests: bool, label: u32, first: u32, degree: u32) -> PositionEntry
        ensures { result ≡ record { position = record { turn = turn; rests = rests; label = label }; first = first; degree = degree } }
    {
        PositionEntry {
            position: Position { turn, rests, label },
            first,
            degree,
        }
    }
}
