// The listings of a board.
ghost use Rattle.std.specs.Prelude.{◌≤◌, length, string_bytes, OnOk};
ghost use Rattle.report.specs.Reports.{AppendsKind, AppendsKinds};

use board::Board;
use cells::Cell;
use cost::{Care, Energy, Peak};
use entries::Start;
use listing::push_listing;
use solve::solve;
use std::alloc::{AllocError, Global};
use wording::Named;

// Solves a board for one kind of cost, and appends its listing.
// kept: the lists stand apart, since solving takes them so.
fn push_kind<B: Board, C: Named>(
    out: &mut String,
    board: &B,
    start: Start,
    one: &mut [Cell],
    two: &mut [Cell],
) -> Result<(), AllocError>
    requires one { length (B.meaning board.now).rows ≤ length one.old }
    requires two { length (B.meaning board.now).rows ≤ length two.old }
    ensures { OnOk result (AppendsKind C.Named.KIND C.kind (B.meaning board.now) start (string_bytes out.old) (string_bytes out.new)) }
{
    let Ok(plan) = solve::<B, C>(board, start.bruise, start.energy, one, two) else {
        unreachable!()
    };
    let listed = push_listing(out, board, &plan);
    let _ = plan.close();
    listed
}

// Appends the listings of a board for energy, peak and care.
pub(crate) fn push_kinds<B: Board>(
    heap: Global,
    out: &mut String,
    board: &B,
    start: Start,
) -> Result<(), AllocError>
    ensures { OnOk result (AppendsKinds (B.meaning board.now) start (string_bytes out.old) (string_bytes out.new)) }
{
    let empty = Cell::default();
    let count = board.count() as usize;
    let mut one = vec![in heap; empty; count]?;
    let mut two = vec![in heap; empty; count]?;
    push_kind::<B, Energy>(out, board, start, one.as_mut_slice(), two.as_mut_slice())?;
    push_kind::<B, Peak>(out, board, start, one.as_mut_slice(), two.as_mut_slice())?;
    push_kind::<B, Care>(out, board, start, one.as_mut_slice(), two.as_mut_slice())?;
    Ok(())
}
