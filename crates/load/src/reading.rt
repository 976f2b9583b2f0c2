// Loading a sheet.
ghost use Rattle.load.specs.Loads.{ReadsTables, Loads};

use crate::parts::{Bench, LoadError};
use crate::tables::Tables;
use entries::{Arrow, Move, PositionEntry, Rule};
use sheet::read;
use sheet_format::{MOST_ARROWS, MOST_MOVES, MOST_POSITIONS, MOST_RULES, MOST_STATES};
use std::alloc::Global;

impl Tables {
    /// Reads a sheet into tables of its entries. A sheet with a fault is refused.
    pub fn read(heap: Global, sheet: &[u8]) -> Result<Tables, LoadError>
        ensures { ReadsTables sheet.now result }
    {
        let mut positions = vec![in heap; PositionEntry::default(); MOST_POSITIONS]?;
        let mut moves = vec![in heap; Move::default(); MOST_MOVES]?;
        let mut states = vec![in heap; false; MOST_STATES]?;
        let mut arrows = vec![in heap; Arrow::default(); MOST_ARROWS]?;
        let mut rules = vec![in heap; Rule::Met(0); MOST_RULES]?;
        let outline = read(
            sheet,
            positions.as_mut_slice(),
            moves.as_mut_slice(),
            states.as_mut_slice(),
            arrows.as_mut_slice(),
            rules.as_mut_slice(),
        )?;
        positions.truncate(outline.positions);
        moves.truncate(outline.moves);
        states.truncate(outline.states);
        arrows.truncate(outline.arrows);
        rules.truncate(outline.rules);
        Ok(Tables {
            positions,
            moves,
            states,
            arrows,
            rules,
            start: outline.start,
        })
    }
}

/// Reads a sheet, and joins its tasks to its board: the automaton first, the rules over it.
/// The board rests after the moves of a play exactly when the sheet's position rests, the automaton accepts and every rule holds of the labels of all positions held.
/// A sheet with a fault is refused, and so is a join of more than 4,096 positions.
pub fn load(heap: Global, sheet: &[u8]) -> Result<Bench, LoadError>
    ensures { Loads sheet.now result }
{
    let tables = Tables::read(heap, sheet)?;
    Ok(Bench {
        board: tables.joined(heap)?,
        start: tables.start,
    })
}
