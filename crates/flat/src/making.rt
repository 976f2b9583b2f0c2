// Flat copies of boards.
ghost use Rattle.std.specs.Prelude.{◌≡◌, ◌*◌, ◌<◌, ◌≤◌, ◌++◌, length, IfOk, OnOk};
ghost use Rattle.board.specs.Table.{row_at};
ghost use Rattle.flat.specs.Flat.{Among, row_of};
ghost use Rattle.flat.specs.Meaning.{flat_meaning};

use crate::holder::FlatBoard;
use crate::parts::FlatRow;
use board::{Board, Step};
use std::alloc::{AllocError, Global};

impl FlatBoard {
    /// A flat copy of a board. It means the same table, and fails only for want of memory.
    pub fn copy<B: Board>(heap: Global, board: &B) -> Result<FlatBoard, AllocError>
        ensures { IfOk result (λ f. flat_meaning f ≡ B.Board.meaning board.now) }
    {
        let count = board.count();
        let mut rows = Vec::with_capacity(heap, count as usize)?;
        let mut steps = Vec::new(heap);
        // kept: a loop. With `map` and `try_collect`, which were tried, what `push_moves` requires is not proved in the closure, which changes `steps`.
        for p in 0..count {
            let row = push_moves(board, p, &mut steps)?;
            rows.push(row)?;
        }
        Ok(FlatBoard {
            rows,
            steps,
            start: board.start(),
        })
    }
}

// Appends the moves of a position to a list of moves, and gives its row.
fn push_moves<B: Board>(board: &B, p: u32, steps: &mut Vec<Step>) -> Result<FlatRow, AllocError>
    requires there { p < length (B.Board.meaning board.now).rows }
    requires few { length steps.old.items ≤ 64 * p }
    ensures moves { OnOk result (steps.new.items ≡ steps.old.items ++ (row_at (B.Board.meaning board.now) p).moves) }
    ensures row { IfOk result (λ w. row_of steps.new.items w ≡ row_at (B.Board.meaning board.now) p) }
    ensures among { IfOk result (λ w. Among steps.new.items w) }
{
    let first = steps.len() as u32;
    let degree = board.degree(p).unwrap();
    // kept: a loop. With `extend` and `map`, which were tried, the closure does not know that `k` is below `degree`; with `filter_map` it is not proved what was appended.
    for k in 0..degree {
        steps.push(board.step(p, k).unwrap())?;
    }
    Ok(FlatRow {
        turn: board.turn(p).unwrap(),
        label: board.label(p).unwrap(),
        rests: board.rests(p).unwrap(),
        first,
        degree,
    })
}
