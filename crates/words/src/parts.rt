// What a sheet is cut into.

/// A word of one byte that stands for a choice.
#[derive(Clone, Copy, PartialEq)]
pub enum Mark {
    /// `a`: the arm's turn.
    Arm,
    /// `p`: the person's turn.
    Person,
    /// `r`: a resting place.
    Rests,
    /// `-`: no resting place.
    Moves,
    /// `y`: an accepting state.
    Accepts,
    /// `n`: a state that does not accept.
    Rejects,
}

/// A word: the part of the sheet that it is, and what it says.
#[derive(Clone, Copy)]
pub enum Word<'a> {
    /// 1 to 10 decimal digits with no leading zero, and their value.
    Number(u64, &'a [u8]),
    Mark(Mark, &'a [u8]),
    /// Any other word.
    Name(&'a [u8]),
}

/// A word with its line, its place in the line, both from 1, and the byte of the line that it begins at.
#[derive(Clone, Copy)]
pub struct PlacedWord<'a> {
    pub word: Word<'a>,
    pub line: usize,
    pub place: usize,
    pub column: usize,
}

/// A line of a sheet, without its LF: its bytes, its number from 1, and the byte of the sheet that it begins at.
#[derive(Clone, Copy)]
pub struct Line<'a> {
    pub bytes: &'a [u8],
    pub number: usize,
    pub start: usize,
}
