// What a plan and a verdict answer.
ghost use Rattle.std.specs.Prelude.{◌≡◌, take};
ghost use Rattle.std.specs.List.{slice_get};
ghost use Rattle.cells.specs.Said.{plan_cell};
ghost use Rattle.solve.specs.Verdicts.{verdict_word};

use crate::plan::Plan;
use crate::verdict::Verdict;
use cells::Cell;

impl Verdict {
    /// The word that is printed for the verdict.
    pub fn word(self) -> &'static [u8]
        ensures { result.now ≡ verdict_word self }
    {
        match self {
            Verdict::Within => b"within",
            Verdict::Over => b"over",
            Verdict::Never => b"never",
        }
    }

    /// The word that is printed for the verdict, as text.
    pub fn text(self) -> &'static str
        ensures { result.now ≡ verdict_word self }
    {
        match self {
            Verdict::Within => "within",
            Verdict::Over => "over",
            Verdict::Never => "never",
        }
    }
}

impl<'a, C> Plan<'a, C> {
    /// The number of rounds.
    pub fn rounds(&self) -> u32
        ensures { result ≡ self.now.rounds }
    {
        self.rounds
    }

    /// How many positions the solved board has.
    pub fn count(&self) -> u32
        ensures { result ≡ self.now.count }
    {
        self.count
    }

    /// The start of the solved board.
    pub fn start(&self) -> u32
        ensures { result ≡ self.now.start }
    {
        self.start
    }

    /// The budget as the two numbers of its cost.
    pub fn budget(&self) -> (u32, u32)
        ensures { result ≡ self.now.budget }
    {
        self.budget
    }

    /// The verdict on the start.
    pub fn verdict(&self) -> Verdict
        ensures { result ≡ self.now.verdict }
    {
        self.verdict
    }

    /// The cell of `p`, where there is such a position.
    pub fn cell(&self, p: u32) -> Option<Cell>
        ensures { result ≡ slice_get (take self.now.count self.now.cells.now) p }
    {
        if p < self.count {
            self.cells.get(p as usize).copied()
        } else {
            None
        }
    }

    /// The cell of `p`, or an empty one where there is no such position.
    pub fn planned(&self, p: u32) -> Cell
        ensures { result ≡ plan_cell self.now.count self.now.cells.now p }
    {
        self.cell(p).unwrap_or_default()
    }

    /// Ends the plan, and gives its list back.
    pub fn close(self) -> &'a [Cell]
        ensures { result ≡ self.entry.cells }
    {
        // kept: each field by name, since a plan is not dropped and `..` would drop the rest
        let Plan {
            cells: list,
            count: _,
            start: _,
            rounds: _,
            budget: _,
            verdict: _,
            kind: _,
        } = self;
        list
    }
}
