// Reading labels one by one, and walking a board.
use board::Board;
use task::Task;

// Whether a label has sign 0, 1 or 2.
pub fn has(label: u32, sign: u32) -> bool {
    match sign {
        0 => label % 2 == 1,
        1 => label / 2 % 2 == 1,
        _ => label / 4 % 2 == 1,
    }
}

// Four labels of signs 0 and 1, by the base-4 digits of a number.
pub fn labels_of(code: u32) -> [u32; 4] {
    [code % 4, code / 4 % 4, code / 16 % 4, code / 64 % 4]
}

// Whether a task accepts a list of labels; false too where it answers none.
pub fn accepts<T: Task>(task: &T, labels: &[u32]) -> bool {
    labels
        .iter()
        .try_fold(task.first(), |z, label| task.next(z, *label))
        .and_then(|z| task.accepting(z))
        .unwrap_or(false)
}

// Where `n` moves 0 lead from the start; the count where one is not there.
pub fn walk<B: Board>(board: &B, n: usize) -> u32 {
    (0..n)
        .try_fold(
            board.start(),
            |p, _| board.step(p, 0).map(|step| step.target),
        )
        .unwrap_or(board.count())
}

// Whether a position is there and rests.
pub fn rests<B: Board>(board: &B, p: u32) -> bool {
    board.rests(p).unwrap_or(false)
}
