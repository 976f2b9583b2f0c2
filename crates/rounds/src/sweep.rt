// One round over all positions: one list is read, the other written.
ghost use Rattle.std.specs.Prelude.{◌≡◌, suc, ◌<◌, ◌≤◌, length};
ghost use Rattle.cells.specs.Cells.{written_over};
ghost use Rattle.cells.specs.Written.{Holds, Tells, round_cell};

use crate::position::Round;
use board::Board;
use cells::{Cell, rests_at};
use cost::Cost;

// The cell of `p` in round 0: zero at rest, and otherwise none.
fn first_cell<B: Board, C: Cost>(board: &B, p: u32) -> Cell
    ensures { result ≡ round_cell C.kind (B.meaning board.now) 0 p }
{
    Cell {
        cost: rests_at(board, p).then_some(C::zero().numbers()),
        choice: None,
        round: 0,
    }
}

// Writes the cells of round 0.
pub(crate) fn first_cells<B: Board, C: Cost>(board: &B, to: &mut [Cell])
    requires { length (B.meaning board.now).rows ≤ length to.old }
    ensures { to.new ≡ written_over (B.meaning board.now) (round_cell C.kind (B.meaning board.now) 0) to.old }
{
    // kept: written by index, here and below: after `zip` with `iter_mut` a proof knows no element of the list, and `to[..count].iter_mut().enumerate()` adds a bound and a cast
    for p in 0..board.count() {
        to[p as usize] = first_cell::<B, C>(board, p);
    }
}

// Writes the cells after round `n + 1` from those after round `n`; whether the round changed a value.
pub(crate) fn next_cells<B: Board, C: Cost>(
    board: &B,
    from: &[Cell],
    to: &mut [Cell],
    n: u32,
) -> bool
    requires { (n < 4294967295) × ((length (B.meaning board.now).rows ≤ length to.old) × (Holds C.kind (B.meaning board.now) n from.now)) }
    ensures cells { to.new ≡ written_over (B.meaning board.now) (round_cell C.kind (B.meaning board.now) (suc n)) to.old }
    ensures changed { Tells C.kind (B.meaning board.now) n result }
{
    let round = Round { board, cells: from };
    let mut changed = false;
    for p in 0..board.count() {
        let cell = round.next_cell::<C>(p, n);
        changed |= cell.round > n;
        to[p as usize] = cell;
    }
    changed
}
