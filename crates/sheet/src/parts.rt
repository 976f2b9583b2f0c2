// What reading a sheet answers and asks.
use entries::{Arrow, Move, Position, Rule, Start};
use sheet_format::{MOST_ARROWS, MOST_MOVES, MOST_POSITIONS, MOST_RULES, MOST_STATES};

/// What an accepted sheet holds: how many entries stand at the front of each table, and its start line.
#[derive(Clone, Copy, Debug, PartialEq)]
pub struct Outline {
    pub positions: usize,
    pub moves: usize,
    pub states: usize,
    pub arrows: usize,
    pub rules: usize,
    pub start: Start,
}

// How many entries each table has room for.
// kept: an outline names the same counts, but callers read them as fields of its own.
#[derive(Clone, Copy)]
pub(crate) struct Capacity {
    pub(crate) positions: usize,
    pub(crate) moves: usize,
    pub(crate) states: usize,
    pub(crate) arrows: usize,
    pub(crate) rules: usize,
}

// kept: arrays with their counts in the outline, since the outline answers the counts in any case.
// What a sheet is read into before the caller's tables: a list for each section, as long as the section may be.
#[derive(Drop)]
pub(crate) struct Lists {
    pub(crate) positions: [Position; MOST_POSITIONS],
    pub(crate) moves: [Move; MOST_MOVES],
    pub(crate) states: [bool; MOST_STATES],
    pub(crate) arrows: [Arrow; MOST_ARROWS],
    pub(crate) rules: [Rule; MOST_RULES],
}

impl Lists {
    // Lists to be written over.
    pub(crate) fn new() -> Lists {
        Lists {
            positions: [Position::default(); MOST_POSITIONS],
            moves: [Move::default(); MOST_MOVES],
            states: [false; MOST_STATES],
            arrows: [Arrow::default(); MOST_ARROWS],
            rules: [Rule::Met(0); MOST_RULES],
        }
    }
}
