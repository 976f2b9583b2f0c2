// The public call that reads a sheet.
ghost use Rattle.std.specs.Prelude.{◌≡◌};
ghost use Rattle.sheet_format.specs.Boards.{sheet_entries, BoardLaws};
ghost use Rattle.sheet_format.specs.Laws.{FormatLaws};
ghost use Rattle.sheet_format.specs.Read.{read_sheet};
ghost use Rattle.sheet.specs.Filled.{room_in, outlined, filled};
ghost use Rattle.sheet.specs.Spells.{Spells};

use crate::parts::{Capacity, Lists, Outline};
use crate::tables::{copy_front, write_positions};
use crate::whole::read_whole;
use entries::{Arrow, Move, PositionEntry, Rule};
use sheet_format::Fault;

/// Reads a sheet into tables: the front of each holds the sheet's entries, in their order.
/// A sheet with a fault leaves every table as it was, an accepted one what stands past its counts.
// kept: five tables and no struct of them, since each clause would say again that a field is the same reference.
#[tactic(auto, using(sheet_format::proofs::Laws::format_laws, sheet_format::proofs::Boards::board_laws))]
pub fn read(
    sheet: &[u8],
    positions: &mut [PositionEntry],
    moves: &mut [Move],
    states: &mut [bool],
    arrows: &mut [Arrow],
    rules: &mut [Rule],
) -> Result<Outline, Fault>
    ensures answer { result ≡ outlined (read_sheet (room_in positions.old moves.old states.old arrows.old rules.old) sheet.now) }
    ensures positions { positions.new ≡ filled sheet_entries (read_sheet (room_in positions.old moves.old states.old arrows.old rules.old) sheet.now) positions.old }
    ensures moves { moves.new ≡ filled (λ s. s.moves) (read_sheet (room_in positions.old moves.old states.old arrows.old rules.old) sheet.now) moves.old }
    ensures states { states.new ≡ filled (λ s. s.states) (read_sheet (room_in positions.old moves.old states.old arrows.old rules.old) sheet.now) states.old }
    ensures arrows { arrows.new ≡ filled (λ s. s.arrows) (read_sheet (room_in positions.old moves.old states.old arrows.old rules.old) sheet.now) arrows.old }
    ensures rules { rules.new ≡ filled (λ s. s.rules) (read_sheet (room_in positions.old moves.old states.old arrows.old rules.old) sheet.now) rules.old }
    ensures spelled { Spells (room_in positions.old moves.old states.old arrows.old rules.old) sheet.now result }
    ensures format { FormatLaws }
    ensures boards { BoardLaws }
{
    let room = Capacity {
        positions: positions.len(),
        moves: moves.len(),
        states: states.len(),
        arrows: arrows.len(),
        rules: rules.len(),
    };
    let mut lists = Lists::new();
    let outline = read_whole(sheet, room, &mut lists)?;
    write_positions(
        positions,
        &lists.positions[..outline.positions],
        &lists.moves[..outline.moves],
    );
    copy_front(moves, &lists.moves[..outline.moves]);
    copy_front(states, &lists.states[..outline.states]);
    copy_front(arrows, &lists.arrows[..outline.arrows]);
    copy_front(rules, &lists.rules[..outline.rules]);
    Ok(outline)
}
