// What a word says.
ghost use Rattle.std.specs.Prelude.{◌≡◌, ℕ, ◌+◌, ◌*◌, ◌<◌, min, MatchOption, ◌≢◌};
ghost use Rattle.std.specs.Str.Parse.{digits_value};
ghost use Rattle.words.specs.Kinds.{mark_word, number_word, Says, word_bytes};
ghost use Rattle.words.specs.Numerals.{Numeral};

use crate::parts::{Mark, Word};

// A number with one digit more, or the greatest number of 64 bits where it is larger.
fn with_digit(n: u64, digit: u64) -> u64
    requires { digit < 10 }
    ensures { result ≡ min (min (n * 10) 18446744073709551615 + digit) 18446744073709551615 }
{
    // kept: a number that is far from the greatest is added plainly, since stopping there takes twice as long for each digit
    if n < 1000000000000000000 {
        n * 10 + digit
    } else {
        n.saturating_mul(10).saturating_add(digit)
    }
}

/// The value of a numeral, or the greatest number of 64 bits where it is larger.
#[tactic(auto, using(crate::proofs::Digits::other_byte))]
pub fn numeral(word: &[u8]) -> Option<u64>
    ensures { MatchOption result (Numeral word.now → ⊥) (λ k. Numeral word.now × (k ≡ min (digits_value 10 word.now) 18446744073709551615)) }
{
    if matches!(word, [] | [b'0', _, ..]) {
        return None;
    }
    // kept: a loop. `all` and then `fold` proves too, but reads the word twice: 9.0 ns for 5.8 in the same lines of Rust. `try_fold` was tried, and what it returns is not proved.
    let mut n: u64 = 0;
    for b in word {
        if !b.is_ascii_digit() {
            return None;
        }
        n = with_digit(n, u64::from(*b - b'0'));
    }
    Some(n)
}

// The value of a number word.
fn number(word: &[u8]) -> Option<u64>
    ensures { result ≡ number_word word.now }
{
    if word.len() > 10 {
        return None;
    }
    numeral(word)
}

// kept: functions and no TryFrom or From, here and in `Word::of`, since a word that is no mark is no error, and a word keeps the bytes that it is.
// The mark that a word is.
fn mark(word: &[u8]) -> Option<Mark>
    ensures { MatchOption result ((m : Mark) → word.now ≢ mark_word m) (λ m. word.now ≡ mark_word m) }
{
    match word {
        b"a" => Some(Mark::Arm),
        b"p" => Some(Mark::Person),
        b"r" => Some(Mark::Rests),
        b"-" => Some(Mark::Moves),
        b"y" => Some(Mark::Accepts),
        b"n" => Some(Mark::Rejects),
        _ => None,
    }
}

impl<'a> Word<'a> {
    /// What the bytes of a word say.
    pub fn of(bytes: &'a [u8]) -> Word<'a>
        ensures { Says result bytes.now }
    {
        if let Some(n) = number(bytes) {
            return Word::Number(n, bytes);
        }
        match mark(bytes) {
            Some(m) => Word::Mark(m, bytes),
            None => Word::Name(bytes),
        }
    }

    /// The part of the sheet that the word is.
    pub fn bytes(self) -> &'a [u8]
        ensures { result.now ≡ word_bytes self.entry }
    {
        match self {
            Word::Number(_, bytes) | Word::Mark(_, bytes) | Word::Name(bytes) => bytes,
        }
    }
}
