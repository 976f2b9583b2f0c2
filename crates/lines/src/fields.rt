// The words of a line, one by one.
ghost use Rattle.std.specs.Prelude.{◌≡◌, ℕ, ◌≤◌, Bool, ◌&&◌, [], ◌∷◌, length, if◌then◌else◌, Ok, Err, codes, nat_eq, nat_le, nat_lt};
ghost use Rattle.refusal.specs.declared.Refusal.TheVariants.{WordCount, WrongSection};
ghost use Rattle.std.specs.Str.{bytes_eq};
ghost use Rattle.std.specs.Str.Parse.{digits_value};
ghost use Rattle.sheet_format.specs.Cuts.{words};
ghost use Rattle.sheet_format.specs.Fields.{one_of, between, below, at_word, line_fault, ranged, read_field};
ghost use Rattle.sheet_format.specs.Lines.{mark, turn_of};
ghost use Rattle.words.specs.Kinds.{mark_word};
ghost use Rattle.lines.specs.Words.{word_at, on_value, first_of_two};

use board::Turn;
use refusal::Refusal;
use sheet_format::LineFault;
use std::ops::Range;
use words::{Line, Mark, Word};

// kept: a line and a place as parameters, here and below, since a word is asked for by them and each line does so in one order.

// A number of a range.
fn number_in(line: &Line<'_>, place: usize, range: Range<u64>) -> Result<u32, LineFault>
    requires { range.end ≤ 4294967296 }
    ensures { result ≡ at_word place (let w = word_at line.now place in ranged (nat_le range.start (digits_value 10 w) && nat_lt (digits_value 10 w) range.end) w) }
{
    match line.word(place).word {
        Word::Number(n, _) if range.contains(&n) => Ok(n as u32),
        Word::Number(..) => Err(LineFault::new(Refusal::OutOfRange, place)),
        _ => Err(LineFault::new(Refusal::NotANumber, place)),
    }
}

// A number from `low` to `high`.
pub(crate) fn number(line: &Line<'_>, place: usize, low: u32, high: u32) -> Result<u32, LineFault>
    ensures { result ≡ at_word place (read_field (between low high) (word_at line.now place)) }
{
    number_in(line, place, u64::from(low)..u64::from(high) + 1)
}

// A number below `n`.
pub(crate) fn number_below(line: &Line<'_>, place: usize, n: u32) -> Result<u32, LineFault>
    ensures { result ≡ at_word place (read_field (below n) (word_at line.now place)) }
{
    number_in(line, place, 0..u64::from(n))
}

// Whether the first of two marks stands at a place, or the second.
fn first_mark(line: &Line<'_>, place: usize, first: Mark, second: Mark) -> Result<bool, LineFault>
    ensures { result ≡ on_value first_of_two (at_word place (read_field (mark (mark_word first) (mark_word second)) (word_at line.now place))) }
{
    match line.word(place).word {
        Word::Mark(m, _) if m == first => Ok(true),
        Word::Mark(m, _) if m == second => Ok(false),
        _ => Err(LineFault::new(Refusal::UnknownMark, place)),
    }
}

// `a` or `p`.
pub(crate) fn turn(line: &Line<'_>, place: usize) -> Result<Turn, LineFault>
    ensures { result ≡ on_value turn_of (at_word place (read_field (mark (codes "a") (codes "p")) (word_at line.now place))) }
{
    let arm = first_mark(line, place, Mark::Arm, Mark::Person)?;
    Ok(if arm { Turn::Arm } else { Turn::Person })
}

// `r` or `-`.
pub(crate) fn rests(line: &Line<'_>, place: usize) -> Result<bool, LineFault>
    ensures { result ≡ on_value first_of_two (at_word place (read_field (mark (codes "r") (codes "-")) (word_at line.now place))) }
{
    first_mark(line, place, Mark::Rests, Mark::Moves)
}

// `y` or `n`.
pub(crate) fn accepts(line: &Line<'_>, place: usize) -> Result<bool, LineFault>
    ensures { result ≡ on_value first_of_two (at_word place (read_field (mark (codes "y") (codes "n")) (word_at line.now place))) }
{
    first_mark(line, place, Mark::Accepts, Mark::Rejects)
}

// Refuses a line that has not just `n` words.
pub(crate) fn word_count(line: &Line<'_>, n: usize) -> Result<(), LineFault>
    ensures { result ≡ (if nat_eq (length (words line.now.bytes.now)) n then Ok tt else Err (line_fault WordCount 0)) }
{
    line.has_words(n)
        .then_some(())
        .ok_or(LineFault::new(Refusal::WordCount, 0))
}

// Refuses a line that does not begin with the name of its section.
pub(crate) fn section_name(line: &Line<'_>, name: &[u8]) -> Result<(), LineFault>
    ensures { on_value (λ _. 0) result ≡ at_word 1 (read_field (one_of WrongSection (name.now ∷ [])) (word_at line.now 1)) }
{
    (line.word(1).word.bytes() == name)
        .then_some(())
        .ok_or(LineFault::new(Refusal::WrongSection, 1))
}
