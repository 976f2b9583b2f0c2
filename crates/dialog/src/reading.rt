// Reading a line.
ghost use Rattle.std.specs.Prelude.{◌≡◌, ℕ, List, ◌++◌, min, MatchOption};
ghost use Rattle.std.specs.Str.Parse.{digits_value};
ghost use Rattle.dialog.specs.Commands.{Hands, Says};

use crate::parts::Command;
use game::Event;
use words::numeral;

// The move of the person that a line names, or the greatest number of 32 bits where it is larger.
fn hand(line: &[u8]) -> Option<u32>
    ensures { MatchOption result ((w : List ℕ) → Hands line.now w → ⊥) (λ k. (w : List ℕ) × Hands line.now w × (k ≡ min (digits_value 10 w) 4294967295)) }
{
    let word = line.strip_prefix(b"hand ")?;
    let k = numeral(word)?;
    Some(u32::try_from(k).unwrap_or(u32::MAX))
}

/// What a line, without its LF, says.
pub fn command(line: &[u8]) -> Command
    ensures { Says line.now result }
{
    match line {
        b"go" => Command::Told(Event::Go),
        b"there" => Command::Told(Event::There),
        b"end" => Command::End,
        _ => hand(line).map_or(Command::Unreadable, |k| Command::Told(Event::Hand(k))),
    }
}
