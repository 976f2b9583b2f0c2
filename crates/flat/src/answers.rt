// What a flat board answers.
ghost use Rattle.std.specs.Prelude.{◌≡◌, IfSome};
ghost use Rattle.std.specs.List.{slice_get};
ghost use Rattle.flat.specs.Flat.{Among};
ghost use Rattle.flat.specs.Meaning.{flat_meaning, flat_ranges};

use crate::holder::FlatBoard;
use crate::parts::FlatRow;
use board::{Board, Step, Turn};

impl FlatBoard {
    // The row of a position.
    fn row(&self, p: u32) -> Option<FlatRow>
        ensures value { result ≡ slice_get self.now.rows.items p }
        ensures among { IfSome result (Among self.now.steps.items) }
    {
        self.rows.get(p as usize).copied()
    }
}

impl Board for FlatBoard {
    ghost meaning = { flat_meaning };

    ghost ranges = { flat_ranges };

    fn count(&self) -> u32 {
        self.rows.len() as u32
    }

    fn start(&self) -> u32 {
        self.start
    }

    fn turn(&self, p: u32) -> Option<Turn> {
        self.row(p).map(|row| row.turn)
    }

    fn label(&self, p: u32) -> Option<u32> {
        self.row(p).map(|row| row.label)
    }

    fn rests(&self, p: u32) -> Option<bool> {
        self.row(p).map(|row| row.rests)
    }

    fn degree(&self, p: u32) -> Option<u32> {
        self.row(p).map(|row| row.degree)
    }

    fn step(&self, p: u32, k: u32) -> Option<Step> {
        let row = self.row(p)?;
        let first = row.first as usize;
        let steps = &self.steps[first..first + row.degree as usize];
        steps.get(k as usize).copied()
    }
}
