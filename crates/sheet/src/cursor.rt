// Reading line by line.
ghost use Rattle.std.specs.Prelude.{◌≡◌, ℕ, ◌≤◌, List, reverse, length};
ghost use Rattle.std.specs.Fn.{FnOnceReturnsAt};
ghost use Rattle.sheet_format.specs.Reading.{LineReading, fault, next_line, header, section};
ghost use Rattle.sheet.specs.Takes.{NextLine, Reads, Takes, TakesInto};

use crate::reader::Reader;
use lines::{LineKind, header_line};
use refusal::Refusal;
use sheet_format::{Fault, LineFault};
use words::Line;

// A fault within a line, with the line's number.
fn at_line(line: usize, e: LineFault) -> Fault
    ensures { result ≡ fault e.refusal line e.word }
{
    Fault::new(e.refusal, line, e.word)
}

impl<'a> Reader<'a> {
    // The line that is due, or the fault of a sheet that ends before it.
    fn next_line(&mut self) -> Result<Line<'a>, Fault>
        ensures { NextLine self.old self.new result }
    {
        let ends_early = Fault::new(Refusal::EndsEarly, self.line, 0);
        let line = Line::first(self.sheet, self.at, self.line).ok_or(ends_early)?;
        self.at += line.bytes.len() + 1;
        self.line += 1;
        Ok(line)
    }

    // What a function reads of the line that is due, or its fault.
    pub(crate) fn read_line<T, F: FnOnce(&Line<'a>) -> Result<T, LineFault>>(
        &mut self,
        read: F,
    ) -> Result<T, Fault>
        requires { F.IsAlwaysCallable read }
        ensures { (f : LineReading T) → Reads (FnOnceReturnsAt F.FnOnce read) f → Takes (next_line f) self.old self.new result }
    {
        let line = self.next_line()?;
        read(&line).map_err(|e| at_line(line.number, e))
    }

    // A section: its header, then an entry for each line, written to the front of a table.
    // kept: the name, the limits and the room as parameters, since a struct of them would be made six times and taken apart once.
    pub(crate) fn read_section<E: Copy, K: LineKind<E>>(
        &mut self,
        kind: &K,
        name: &[u8],
        low: u32,
        high: u32,
        room: usize,
        table: &mut [E],
    ) -> Result<usize, Fault>
        requires { high ≤ length table.old }
        ensures { TakesInto (section name.now low high room (K.reading kind.now)) high self.old self.new table.new result }
    {
        let count = self.read_line(|line| header_line(line, name, low, high, room))? as usize;
        // kept: an index, since each line is shown the entries before it.
        for i in 0..count {
            let before = &table[..i];
            table[i] = self.read_line(|line| kind.entry(line, before))?;
        }
        Ok(count)
    }
}
