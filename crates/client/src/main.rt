//! A small client: it solves a board, follows a run, ends it, and solves the board again into the same cells.
#![tactic(auto)]

use board::{Board, Turn};
use cells::Cell;
use cost::{Care, Cost, Energy};
use entries::{Move, PositionEntry};
use game::{Event, Progress};
use refusal::Refusal;
use run::{Run, Unbegun};
use solve::{Plan, solve};
use std::io;
use table::TableBoard;

// What was learnt: how far the run came by energy, and how many rounds care takes.
#[derive(Clone, Copy)]
struct Learnt {
    progress: Progress<(u32, u32)>,
    rounds: u32,
}

// The plan of a board, with a budget of energy 5.
fn planned<'a, B: Board, C: Cost>(
    board: &B,
    one: &'a mut [Cell],
    two: &mut [Cell],
) -> Result<Plan<'a, C>, Refusal> {
    // kept: a match; map_err was tried, and takes the lent cells into a closure, which gets no proof
    match solve::<B, C>(board, 0, 5, one, two) {
        Ok(plan) => Ok(plan),
        Err(unsolved) => Err(unsolved.why),
    }
}

// Solves a board by energy, lets the arm move once, ends the run, and solves the board by care into the same cells.
fn solve_twice<B: Board>(board: &B, one: &mut [Cell], two: &mut [Cell]) -> Result<Learnt, Refusal> {
    let plan = planned::<B, Energy>(board, one, two)?;
    let mut run = match Run::begin(plan, board) {
        Ok(run) => run,
        Err(Unbegun { why, plan }) => {
            let _ = plan.close();
            return Err(why);
        }
    };
    let _ = run.tell(board, Event::Go);
    let _ = run.tell(board, Event::There);
    let progress = run.progress();
    let _ = run.end().close();
    let plan = planned::<B, Care>(board, one, two)?;
    let rounds = plan.rounds();
    let _ = plan.close();
    Ok(Learnt { progress, rounds })
}

fn main(rt: HostRuntime) -> io::Result<()> {
    // The arm hands over for energy 3 or packs roughly for 1; the person packs or puts aside; the arm then fetches for 4.
    let positions = [
        PositionEntry::new(Turn::Arm, false, 0, 0, 2),
        PositionEntry::new(Turn::Person, false, 0, 2, 2),
        PositionEntry::new(Turn::Arm, false, 0, 4, 1),
        PositionEntry::new(Turn::Arm, true, 0, 5, 0),
    ];
    let moves = [
        Move::new(0, 1, 0, 3),
        Move::new(0, 3, 2, 1),
        Move::new(1, 2, 0, 0),
        Move::new(1, 3, 0, 0),
        Move::new(2, 3, 0, 4),
    ];
    let board = TableBoard::over(&positions, &moves, 0);
    let mut one = [Cell::default(); 4];
    let mut two = [Cell::default(); 4];
    match solve_twice(&board, &mut one, &mut two) {
        Ok(Learnt { progress, rounds }) => {
            println!(rt;
                "at {} for {}; {rounds} rounds by care",
                progress.position, progress.spent.0
            )
        }
        Err(refusal) => println!(rt; "refused {}", refusal.number()),
    }
}
