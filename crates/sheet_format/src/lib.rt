//! The format of a bench sheet: what a sheet says, how it is read, how it is spelled, and the laws that tie the two.
#![tactic(auto)]

ghost use Rattle.std.specs.Prelude.{◌≡◌, Some};
ghost use Rattle.sheet_format.specs.Faults.{fault_text};
ghost use Rattle.sheet_format.specs.Fields.{line_fault};
ghost use Rattle.sheet_format.specs.Reading.{fault};

use refusal::Refusal;
use std::fmt;

/// The most bytes of a sheet.
pub const MOST_BYTES: usize = 65536;

/// The most entries of each section.
pub const MOST_POSITIONS: usize = 4096;

pub const MOST_MOVES: usize = 4096;

pub const MOST_STATES: usize = 64;

pub const MOST_ARROWS: usize = 256;

pub const MOST_RULES: usize = 5;

/// A fault of a sheet: the refusal, and the line and the word where it was found, both from 1, or 0 for the whole line or sheet.
// kept: 0 and no Option, here and in a line's fault, since 0 is what the format says and prints.
#[derive(Clone, Copy, Debug, PartialEq)]
pub struct Fault {
    pub refusal: Refusal,
    pub line: usize,
    pub word: usize,
}

impl Fault {
    /// The fault of this refusal, at a word of a line, or at word 0 for the whole line.
    pub fn new(refusal: Refusal, line: usize, word: usize) -> Fault
        ensures { result ≡ fault refusal line word }
    {
        Fault {
            refusal,
            line,
            word,
        }
    }
}

/// The refusal, the line and the word.
impl fmt::Display for Fault {
    ghost output = { λ f. Some (fault_text f) };

    fn fmt<W: fmt::Write>(&self, f: &mut fmt::Formatter<W>) -> fmt::Result {
        write!(f, "{} {} {}", self.refusal, self.line, self.word)
    }
}

/// A fault within a line: the refusal, and the word, from 1, or 0 for the whole line.
#[derive(Clone, Copy, Debug, PartialEq)]
pub struct LineFault {
    pub refusal: Refusal,
    pub word: usize,
}

impl LineFault {
    /// The fault of this refusal, at a word, or at 0 for the whole line.
    pub fn new(refusal: Refusal, word: usize) -> LineFault
        ensures { result ≡ line_fault refusal word }
    {
        LineFault { refusal, word }
    }
}
