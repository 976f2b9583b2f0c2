// Costs and chosen moves as text.
ghost use Rattle.std.specs.Prelude.{◌≡◌, Some};
ghost use Rattle.wording.specs.Texts.{value_text, choice_text};

use crate::kinds::CostKind;
use std::fmt;

// kept: texts by a type of their own, since a cost is printed by its kind and an option has no Display.

/// A cost of a kind, or none, by its two numbers.
#[derive(Clone, Copy)]
pub struct CostText {
    pub kind: CostKind,
    pub cost: Option<(u32, u32)>,
}

impl fmt::Display for CostText {
    ghost output = { λ c. Some (value_text c.kind c.cost) };

    fn fmt<W: fmt::Write>(&self, f: &mut fmt::Formatter<W>) -> fmt::Result {
        match (self.cost, self.kind) {
            (None, _) => f.write_str("none"),
            (Some((bruise, energy)), CostKind::Care) => write!(f, "{bruise}/{energy}"),
            (Some((number, _)), _) => write!(f, "{number}"),
        }
    }
}

/// A chosen move, or none.
#[derive(Clone, Copy)]
pub struct ChoiceText {
    pub choice: Option<u32>,
}

impl fmt::Display for ChoiceText {
    ghost output = { λ c. Some (choice_text c.choice) };

    fn fmt<W: fmt::Write>(&self, f: &mut fmt::Formatter<W>) -> fmt::Result {
        match self.choice {
            None => f.write_str("-"),
            Some(number) => write!(f, "{number}"),
        }
    }
}
