// Lines that come in sections.
ghost use Rattle.std.specs.Prelude.{◌≡◌, ℕ, List, [], reverse};
ghost use Rattle.sheet_format.specs.Cuts.{words};
ghost use Rattle.sheet_format.specs.Lines.{position_line, state_line, arrow_line};
ghost use Rattle.sheet_format.specs.Reading.{LineReading};

use crate::fields;
use entries::{Arrow, Position};
use sheet_format::LineFault;
use words::Line;

/// A kind of line, of which a section has one for each entry.
pub trait LineKind<E> {
    // what is read of a line's words, where these entries came before, the last first
    ghost reading: { Self → List E → LineReading E };

    /// The entry that a line spells after those before it, or the line's fault.
    fn entry(&self, line: &Line<'_>, before: &[E]) -> Result<E, LineFault>
        ensures { result ≡ reading self.now (reverse before.now) (words line.now.bytes.now) };
}

/// `a` or `p`, `r` or `-`, and a label.
#[derive(Clone, Copy)]
pub struct PositionLines;

impl LineKind<Position> for PositionLines {
    ghost reading = { λ _. position_line };

    fn entry(&self, line: &Line<'_>, before: &[Position]) -> Result<Position, LineFault> {
        fields::word_count(line, 3)?;
        let turn = fields::turn(line, 1)?;
        let rests = fields::rests(line, 2)?;
        let label = fields::number(line, 3, 0, 65535)?;
        Ok(Position { turn, rests, label })
    }
}

/// `y` or `n`.
#[derive(Clone, Copy)]
pub struct StateLines;

impl LineKind<bool> for StateLines {
    ghost reading = { λ _. state_line };

    fn entry(&self, line: &Line<'_>, before: &[bool]) -> Result<bool, LineFault> {
        fields::word_count(line, 1)?;
        fields::accepts(line, 1)
    }
}

/// From, need, bar and to, between states that are there.
#[derive(Clone, Copy)]
pub struct ArrowLines {
    pub states: u32,
}

// The arrow of a line, between so many states.
fn arrow(line: &Line<'_>, states: u32) -> Result<Arrow, LineFault>
    ensures { result ≡ arrow_line states [] (words line.now.bytes.now) }
{
    fields::word_count(line, 4)?;
    let from = fields::number_below(line, 1, states)?;
    let need = fields::number(line, 2, 0, 65535)?;
    let bar = fields::number(line, 3, 0, 65535)?;
    let to = fields::number_below(line, 4, states)?;
    Ok(Arrow {
        from,
        need,
        bar,
        to,
    })
}

impl LineKind<Arrow> for ArrowLines {
    ghost reading = { λ k. arrow_line k.states };

    fn entry(&self, line: &Line<'_>, before: &[Arrow]) -> Result<Arrow, LineFault> {
        arrow(line, self.states)
    }
}
