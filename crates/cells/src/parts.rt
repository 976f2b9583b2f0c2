// What a solver keeps.

// kept: a cost as a pair of numbers, here and above, since a cell is a plain record that each kind of cost reads.
/// A position's cell: its cost as two numbers or none, its chosen move or none, and the first round in which this cost stood.
#[derive(Clone, Copy, Debug, Default, PartialEq)]
pub struct Cell {
    pub cost: Option<(u32, u32)>,
    pub choice: Option<u32>,
    pub round: u32,
}

/// The best value among the moves of a position, and the lowest move that has it.
#[derive(Clone, Copy)]
pub struct Lead<C> {
    pub value: Option<C>,
    pub choice: Option<u32>,
}
