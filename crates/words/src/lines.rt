// The lines of a sheet, and the words of a line.
ghost use Rattle.std.specs.Prelude.{◌≡◌, ℕ, ◌+◌, ◌-◌, ◌≤◌, Bool, length, ◌==◌, count_by, position};
ghost use Rattle.sheet_format.specs.Cuts.{words};
ghost use Rattle.words.specs.Parts.{LineTo, FirstLine, WordTo, WordFrom, WordAt};

use crate::parts::{Line, PlacedWord, Word};

// The place of the first such byte, from 0.
fn place_of(bytes: &[u8], byte: u8) -> Option<usize>
    ensures { result ≡ position (λ b. b == byte) bytes.now }
{
    bytes.iter().position(|b| *b == byte)
}

// Where the line that begins at `from` ends, if it has an LF.
fn line_end(sheet: &[u8], from: usize) -> Option<usize>
    ensures { LineTo sheet.now from result }
{
    let rest = sheet.get(from..)?;
    let length = place_of(rest, b'\n')?;
    Some(from + length)
}

// Where the word that begins at `from` ends: at a space, or with the line.
#[tactic(auto, using(crate::proofs::Cutting::word_end_is))]
fn word_end(line: &[u8], from: usize) -> usize
    requires { from ≤ length line.now }
    ensures { WordTo line.now from result }
{
    place_of(&line[from..], b' ').map_or(line.len(), |length| from + length)
}

// Where a word begins, by its place from 1; the line's end where it has fewer words.
// kept: a loop. `split` gives no column; `enumerate`, `filter`, `map` and `nth` on the spaces was tried: a function more, a proof file, and twice the lemmas.
#[tactic(auto, using(crate::proofs::Cutting::pass_one, crate::proofs::Cutting::first_passed, crate::proofs::Cutting::none_left))]
fn word_start(line: &[u8], place: usize) -> usize
    ensures { WordFrom line.now (place - 1) result }
{
    let mut at = 0;
    for k in 1..place {
        let end = word_end(line, at);
        if end == line.len() {
            return end;
        }
        at = end + 1;
    }
    at
}

// How many spaces a line has: one fewer than words.
fn count_spaces(line: &[u8]) -> usize
    ensures { result ≡ count_by (λ b. b == 32) line.now }
{
    line.iter().filter(|b| **b == b' ').count()
}

impl<'a> Line<'a> {
    /// The line that begins at a byte of a sheet, under a number; none if it has no LF.
    pub fn first(sheet: &'a [u8], start: usize, number: usize) -> Option<Line<'a>>
        ensures { FirstLine sheet.now start number result }
    {
        let end = line_end(sheet, start)?;
        Some(Line {
            bytes: &sheet[start..end],
            number,
            start,
        })
    }

    /// Whether the line has just `n` words.
    #[tactic(auto, using(crate::proofs::Cutting::length_words))]
    pub fn has_words(&self, n: usize) -> bool
        ensures { result ≡ (length (words self.now.bytes.now) == n) }
    {
        count_spaces(self.bytes) + 1 == n
    }

    /// The word at a place, from 1; an empty name where the line has fewer words.
    pub fn word(&self, place: usize) -> PlacedWord<'a>
        ensures { WordAt self.now place result }
    {
        let line = self.bytes;
        let column = word_start(line, place);
        let end = word_end(line, column);
        PlacedWord {
            word: Word::of(&line[column..end]),
            line: self.number,
            place,
            column,
        }
    }
}
