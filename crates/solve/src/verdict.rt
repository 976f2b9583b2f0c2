// The verdict on the start.
ghost use Rattle.std.specs.Prelude.{Some};
ghost use Rattle.solve.specs.Verdicts.{verdict_word};

use std::fmt;

/// Whether the start's cost is within the budget, over it, or none.
#[derive(Clone, Copy, Debug, PartialEq)]
pub enum Verdict {
    Within,
    Over,
    Never,
}

/// The word of the verdict.
impl fmt::Display for Verdict {
    ghost output = { λ v. Some (verdict_word v) };

    fn fmt<W: fmt::Write>(&self, f: &mut fmt::Formatter<W>) -> fmt::Result {
        f.write_str(self.text())
    }
}
