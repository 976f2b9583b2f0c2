// The sections of a sheet, in their order.
ghost use Rattle.std.specs.Prelude.{◌≡◌};
ghost use Rattle.sheet_format.specs.Read.{most_arrows, read_sections};
ghost use Rattle.sheet.specs.Sections.{room_of, TakesSheet};

use crate::parts::{Capacity, Lists, Outline};
use crate::reader::Reader;
use lines::{ArrowLines, MoveLines, PositionLines, RuleLines, StateLines, header_line, start_line};
use sheet_format::Fault;

// Arrows need states.
fn most_arrows(states: usize) -> u32
    ensures { result ≡ most_arrows states }
{
    if states == 0 { 0 } else { 256 }
}

// Reads all sections, each to the front of its list.
pub(crate) fn read_sections<'a>(
    reader: &mut Reader<'a>,
    room: Capacity,
    lists: &mut Lists,
) -> Result<Outline, Fault>
    ensures { TakesSheet (read_sections (room_of room)) reader.old reader.new lists.new result }
{
    let n = reader.read_section(
        &PositionLines,
        b"positions",
        1,
        4096,
        room.positions,
        &mut lists.positions,
    )?;
    let between = MoveLines {
        positions: &lists.positions[..n],
    };
    let m = reader.read_section(&between, b"moves", 0, 4096, room.moves, &mut lists.moves)?;
    let s = reader.read_section(
        &StateLines,
        b"states",
        0,
        64,
        room.states,
        &mut lists.states,
    )?;
    let kind = ArrowLines { states: s as u32 };
    let most = most_arrows(s);
    let a = reader.read_section(&kind, b"arrows", 0, most, room.arrows, &mut lists.arrows)?;
    let r = reader.read_section(&RuleLines, b"rules", 0, 5, room.rules, &mut lists.rules)?;
    reader.read_line(|line| header_line(line, b"start", 1, 1, 1))?;
    let start = reader.read_line(|line| start_line(line, n as u32))?;
    Ok(Outline {
        positions: n,
        moves: m,
        states: s,
        arrows: a,
        rules: r,
        start,
    })
}
