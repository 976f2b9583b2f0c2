// Lines that stand alone.
ghost use Rattle.std.specs.Prelude.{◌≡◌, ℕ};
ghost use Rattle.sheet_format.specs.Cuts.{words};
ghost use Rattle.sheet_format.specs.Lines.{start_line};
ghost use Rattle.sheet_format.specs.Reading.{header};

use crate::fields;
use entries::Start;
use refusal::Refusal;
use sheet_format::LineFault;
use words::Line;

/// The count of a section's header: the section's name, a count from `low` to `high`, and no more than there is room for.
pub fn header_line(
    line: &Line<'_>,
    name: &[u8],
    low: u32,
    high: u32,
    room: usize,
) -> Result<u32, LineFault>
    ensures { result ≡ header name.now low high room (words line.now.bytes.now) }
{
    fields::word_count(line, 2)?;
    fields::section_name(line, name)?;
    let count = fields::number(line, 2, low, high)?;
    if count as usize > room {
        return Err(LineFault::new(Refusal::ShortTable, 2));
    }
    Ok(count)
}

/// The start line of a sheet with so many positions.
pub fn start_line(line: &Line<'_>, positions: u32) -> Result<Start, LineFault>
    ensures { result ≡ start_line positions (words line.now.bytes.now) }
{
    fields::word_count(line, 3)?;
    let position = fields::number_below(line, 1, positions)?;
    let bruise = fields::number(line, 2, 0, u32::MAX)?;
    let energy = fields::number(line, 3, 0, u32::MAX)?;
    Ok(Start {
        position,
        bruise,
        energy,
    })
}
