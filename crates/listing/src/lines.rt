// Lines of the listing.
ghost use Rattle.std.specs.Prelude.{◌≡◌, ◌++◌, string_bytes, OnOk};
ghost use Rattle.board.specs.Table.{row_at};
ghost use Rattle.cells.specs.Said.{plan_cell};
ghost use Rattle.listing.specs.Listing.{head_line, position_line, listing};

use board::Board;
use cells::{Cell, turn_at};
use solve::Plan;
use std::alloc::AllocError;
use wording::{ChoiceText, CostKind, CostText, Named};

// The first line: kind, rounds, verdict and the cost of the start.
fn push_head<C: Named>(out: &mut String, plan: &Plan<'_, C>) -> Result<(), AllocError>
    ensures { OnOk result (string_bytes out.new ≡ string_bytes out.old ++ head_line C.Named.KIND plan.now.rounds plan.now.verdict (plan_cell plan.now.count plan.now.cells.now plan.now.start)) }
{
    let kind = C::KIND;
    let cost = CostText {
        kind,
        cost: plan.planned(plan.start()).cost,
    };
    writeln!(out, "{kind} {} {} {cost}", plan.rounds(), plan.verdict())
}

// The line of a position: number, turn, cost and chosen move.
fn push_position<B: Board>(
    out: &mut String,
    kind: CostKind,
    board: &B,
    p: u32,
    cell: Cell,
) -> Result<(), AllocError>
    ensures { OnOk result (string_bytes out.new ≡ string_bytes out.old ++ position_line kind (B.meaning board.now) p cell) }
{
    let turn = turn_at(board, p);
    let cost = CostText {
        kind,
        cost: cell.cost,
    };
    let choice = ChoiceText {
        choice: cell.choice,
    };
    writeln!(out, "{p} {turn} {cost} {choice}")
}

/// Appends the listing of a solved board: a line of kind, rounds, verdict and the start's cost, then a line for each position of number, turn, cost and chosen move.
/// It fails only for want of memory.
pub fn push_listing<B: Board, C: Named>(
    out: &mut String,
    board: &B,
    plan: &Plan<'_, C>,
) -> Result<(), AllocError>
    ensures { OnOk result (string_bytes out.new ≡ string_bytes out.old ++ listing C.Named.KIND (B.meaning board.now) plan.now.count plan.now.start plan.now.rounds plan.now.verdict (plan_cell plan.now.count plan.now.cells.now)) }
{
    push_head(out, plan)?;
    // kept: a loop, since each line is written with `?`.
    for p in 0..plan.count() {
        push_position(out, C::KIND, board, p, plan.planned(p))?;
    }
    Ok(())
}
