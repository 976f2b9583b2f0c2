// What a flat board is made of.
// kept: a table board's entries look alike, but it lends a sheet's tables and takes no heap, and a flat board stands on boards alone.
// kept: places in one list of moves and no list of moves for each row, since a flat board is to have two lists, filled once and read in a few instructions.
use board::Turn;

/// A position: who moves, its label, and whether it rests. Its moves are `degree` of the moves, from `first` on.
#[derive(Clone, Copy)]
pub struct FlatRow {
    pub(crate) turn: Turn,
    pub(crate) label: u32,
    pub(crate) rests: bool,
    pub(crate) first: u32,
    pub(crate) degree: u32,
}
