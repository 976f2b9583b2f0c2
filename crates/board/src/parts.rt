// What a board's answers are made of.
ghost use Rattle.std.specs.Prelude.{Some};
ghost use Rattle.board.specs.Turns.{turn_word};

use std::fmt;

/// Who moves at a position.
#[derive(Clone, Copy, Debug, Default, PartialEq)]
pub enum Turn {
    #[default]
    Arm,
    Person,
}

/// The mark of the turn.
impl fmt::Display for Turn {
    ghost output = { λ t. Some (turn_word t) };

    fn fmt<W: fmt::Write>(&self, f: &mut fmt::Formatter<W>) -> fmt::Result {
        f.write_str(match self {
            Turn::Arm => "a",
            Turn::Person => "p",
        })
    }
}

/// A move: where it leads, and what it costs.
#[derive(Clone, Copy, Debug, Default, PartialEq)]
pub struct Step {
    pub target: u32,
    pub bruise: u32,
    pub energy: u32,
}
