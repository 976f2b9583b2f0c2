// The kinds of cost by name.
ghost use Rattle.std.specs.Prelude.{◌≡◌, Some, MatchResult, ◌≢◌, codes};
ghost use Rattle.wording.specs.declared.kinds.CostKind.{CostKind as KindOfCost};
ghost use Rattle.wording.specs.Words.{kind_word};

use std::error::Error;
use std::fmt;
use std::str::FromStr;

/// A kind of cost.
#[derive(Clone, Copy, Debug, PartialEq)]
pub enum CostKind {
    Energy,
    Peak,
    Care,
}

impl CostKind {
    /// The word of the kind.
    pub fn word(self) -> &'static str
        ensures { result.now ≡ kind_word self }
    {
        match self {
            CostKind::Energy => "energy",
            CostKind::Peak => "peak",
            CostKind::Care => "care",
        }
    }
}

/// The word is no kind of cost.
#[derive(Clone, Copy, Debug, PartialEq)]
pub struct UnknownKind;

/// The kinds that there are.
impl fmt::Display for UnknownKind {
    ghost output = { λ _. Some (codes "the kind is energy, peak or care") };

    fn fmt<W: fmt::Write>(&self, f: &mut fmt::Formatter<W>) -> fmt::Result {
        f.write_str("the kind is energy, peak or care")
    }
}

impl Error for UnknownKind {}

/// The kind of a word.
impl FromStr for CostKind {
    type Err = UnknownKind;

    ghost from_str_gives = { λ word r. MatchResult r (λ k. word ≡ kind_word k) (λ _. (k : KindOfCost) → word ≢ kind_word k) };

    fn from_str(word: &str) -> Result<CostKind, UnknownKind> {
        match word {
            "energy" => Ok(CostKind::Energy),
            "peak" => Ok(CostKind::Peak),
            "care" => Ok(CostKind::Care),
            _ => Err(UnknownKind),
        }
    }
}

/// The word of the kind.
impl fmt::Display for CostKind {
    ghost output = { λ k. Some (kind_word k) };

    fn fmt<W: fmt::Write>(&self, f: &mut fmt::Formatter<W>) -> fmt::Result {
        f.write_str(self.word())
    }
}
