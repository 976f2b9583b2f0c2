// What a table board answers.
ghost use Rattle.std.specs.Prelude.{◌≡◌, ◌+◌, ◌≤◌, length, IfSome};
ghost use Rattle.std.specs.List.{slice_get};
ghost use Rattle.table.specs.Meaning.{table_meaning, table_ranges};

use crate::holder::TableBoard;
use board::{Board, Step, Turn};
use entries::PositionEntry;

impl<'a> TableBoard<'a> {
    // The entry of a position.
    fn entry(&self, p: u32) -> Option<PositionEntry>
        ensures value { result ≡ slice_get self.now.entries.now p }
        ensures inside { IfSome result (λ e. e.first + e.degree ≤ length self.now.moves.now) }
    {
        self.entries.get(p as usize).copied()
    }
}

impl<'a> Board for TableBoard<'a> {
    ghost meaning = { table_meaning };

    ghost ranges = { table_ranges };

    fn count(&self) -> u32 {
        self.entries.len() as u32
    }

    fn start(&self) -> u32 {
        self.start
    }

    fn turn(&self, p: u32) -> Option<Turn> {
        self.entry(p).map(|entry| entry.position.turn)
    }

    fn label(&self, p: u32) -> Option<u32> {
        self.entry(p).map(|entry| entry.position.label)
    }

    fn rests(&self, p: u32) -> Option<bool> {
        self.entry(p).map(|entry| entry.position.rests)
    }

    fn degree(&self, p: u32) -> Option<u32> {
        self.entry(p).map(|entry| entry.degree)
    }

    fn step(&self, p: u32, k: u32) -> Option<Step> {
        let entry = self.entry(p)?;
        let first = entry.first as usize;
        let moves = &self.moves[first..first + entry.degree as usize];
        // kept: no From, since a line of a sheet becomes a step here alone.
        moves.get(k as usize).map(|m| Step {
            target: m.to,
            bruise: m.bruise,
            energy: m.energy,
        })
    }
}
