//! Why a call refuses: one case for each refusal, with the number that the formats give it.
#![tactic(auto)]

ghost use Rattle.std.specs.Prelude.{◌≡◌, Some};
ghost use Rattle.refusal.specs.Number.{refusal_number};
ghost use Rattle.refusal.specs.Text.{refusal_text};

use std::fmt;

/// The refusals of the product.
#[derive(Clone, Copy, Debug, PartialEq)]
pub enum Refusal {
    /// The sheet ends before a line that is due, or that line has no LF.
    EndsEarly = 1,
    /// The section word is another.
    WrongSection = 2,
    /// The word is not a number.
    NotANumber = 3,
    /// The number is outside its range.
    OutOfRange = 4,
    /// The line has too few or too many words.
    WordCount = 5,
    /// The mark or the rule name is unknown.
    UnknownMark = 6,
    /// The move starts below the position that the move before it starts from.
    FromFalls = 7,
    /// The position has 64 moves already.
    TooManyMoves = 8,
    /// Bytes stand after the last line.
    PastTheEnd = 9,
    /// The table is shorter than the section's count.
    ShortTable = 10,
    /// The sheet has more than 65,536 bytes.
    TooLong = 11,
    /// A person's move has a bruise or an energy.
    PersonPays = 12,
    /// The joined board would have more than 4,096 positions.
    JoinTooLarge = 22,
    /// One of the cell lists is shorter than the board.
    ShortCells = 30,
    /// The start's cost is above the budget.
    OverBudget = 41,
    /// The start has no cost.
    NeverDone = 42,
    /// The board shown has another count of positions than the plan.
    OtherCount = 50,
    /// The run has ended.
    RunEnded = 51,
    /// The event does not fit the run's state.
    UnfitEvent = 52,
    /// The move is none, or is not there.
    NoSuchMove = 53,
}

impl Refusal {
    /// The number that is printed for the refusal.
    pub fn number(self) -> u32
        ensures { result ≡ refusal_number self }
    {
        self as u32
    }
}

/// `refused` and the number.
impl fmt::Display for Refusal {
    ghost output = { λ r. Some (refusal_text r) };

    fn fmt<W: fmt::Write>(&self, f: &mut fmt::Formatter<W>) -> fmt::Result {
        write!(f, "refused {}", self.number())
    }
}
