// A bench of four positions, solved for each kind of cost; arms that could circle; and lists that are too short.
use board::{Board, Turn};
use cells::Cell;
use cost::{Care, Cost, Energy, Peak};
use entries::{Move, PositionEntry};
use refusal::Refusal;
use solve::{Verdict, solve};
use std::process::Abort;
use table::TableBoard;

// what is wanted of a solved board
#[derive(Clone, Copy)]
struct Wanted<'a> {
    rounds: u32,
    verdict: Verdict,
    cells: &'a [Cell],
}

fn cell(bruise: u32, energy: u32, choice: Option<u32>, round: u32) -> Cell {
    Cell {
        cost: Some((bruise, energy)),
        choice,
        round,
    }
}

fn solves<B: Board, C: Cost>(rt: &impl Abort, board: &B, budget: (u32, u32), wanted: &Wanted) {
    let mut one = [Cell::default(); 6];
    let mut two = [Cell::default(); 6];
    match solve::<B, C>(board, budget.0, budget.1, &mut one, &mut two) {
        Ok(plan) => {
            let rounds = plan.rounds();
            let verdict = plan.verdict();
            assert!(rt; plan.close().starts_with(wanted.cells));
            assert!(rt; rounds == wanted.rounds);
            assert!(rt; verdict == wanted.verdict);
        }
        Err(_) => assert!(rt; false),
    }
}

#[test]
fn four_positions(rt: HostRuntime) {
    let positions = [
        PositionEntry::new(Turn::Arm, false, 0, 0, 2),
        PositionEntry::new(Turn::Person, false, 0, 2, 2),
        PositionEntry::new(Turn::Arm, false, 0, 4, 1),
        PositionEntry::new(Turn::Arm, true, 0, 5, 0),
    ];
    let moves = [
        Move::new(0, 1, 0, 3),
        Move::new(0, 3, 2, 1),
        Move::new(1, 2, 0, 0),
        Move::new(1, 3, 0, 0),
        Move::new(2, 3, 0, 4),
    ];
    let board = TableBoard::over(&positions, &moves, 0);
    let cheap = [
        cell(1, 0, Some(1), 1),
        cell(4, 0, Some(0), 2),
        cell(4, 0, Some(0), 1),
        cell(0, 0, None, 0),
    ];
    let careful = [
        cell(0, 7, Some(0), 3),
        cell(0, 4, Some(0), 2),
        cell(0, 4, Some(0), 1),
        cell(0, 0, None, 0),
    ];
    solves::<TableBoard, Energy>(
        &rt,
        &board,
        (0, 5),
        &Wanted {
            rounds: 2,
            verdict: Verdict::Within,
            cells: &cheap,
        },
    );
    solves::<TableBoard, Peak>(
        &rt,
        &board,
        (0, 5),
        &Wanted {
            rounds: 2,
            verdict: Verdict::Within,
            cells: &cheap,
        },
    );
    solves::<TableBoard, Care>(
        &rt,
        &board,
        (0, 5),
        &Wanted {
            rounds: 3,
            verdict: Verdict::Over,
            cells: &careful,
        },
    );
}

#[test]
fn arms_could_circle(rt: HostRuntime) {
    let positions = [
        PositionEntry::new(Turn::Arm, false, 0, 0, 2),
        PositionEntry::new(Turn::Arm, false, 0, 2, 1),
        PositionEntry::new(Turn::Arm, true, 0, 3, 0),
    ];
    let moves = [
        Move::new(0, 1, 0, 0),
        Move::new(0, 2, 0, 5),
        Move::new(1, 0, 0, 0),
    ];
    let board = TableBoard::over(&positions, &moves, 0);
    let cells = [
        cell(5, 0, Some(1), 1),
        cell(5, 0, Some(0), 2),
        cell(0, 0, None, 0),
    ];
    solves::<TableBoard, Energy>(
        &rt,
        &board,
        (0, 5),
        &Wanted {
            rounds: 2,
            verdict: Verdict::Within,
            cells: &cells,
        },
    );
    solves::<TableBoard, Energy>(
        &rt,
        &board,
        (0, 4),
        &Wanted {
            rounds: 2,
            verdict: Verdict::Over,
            cells: &cells,
        },
    );
}

#[test]
fn person_may_stay(rt: HostRuntime) {
    let positions = [
        PositionEntry::new(Turn::Person, false, 0, 0, 2),
        PositionEntry::new(Turn::Person, true, 0, 2, 0),
        PositionEntry::new(Turn::Person, false, 0, 2, 0),
    ];
    let moves = [Move::new(0, 0, 0, 0), Move::new(0, 1, 0, 0)];
    let board = TableBoard::over(&positions, &moves, 0);
    let cells = [
        Cell {
            choice: Some(0),
            ..Cell::default()
        },
        cell(0, 0, None, 0),
        Cell::default(),
    ];
    solves::<TableBoard, Energy>(
        &rt,
        &board,
        (0, 5),
        &Wanted {
            rounds: 0,
            verdict: Verdict::Never,
            cells: &cells,
        },
    );
}

#[test]
fn short_lists(rt: HostRuntime) {
    let positions = [
        PositionEntry::new(Turn::Arm, false, 0, 0, 0),
        PositionEntry::new(Turn::Arm, true, 0, 0, 0),
    ];
    let moves = [Move::default(); 0];
    let board = TableBoard::over(&positions, &moves, 0);
    let mut one = [Cell::default(); 2];
    let mut two = [Cell::default(); 1];
    match solve::<TableBoard, Energy>(&board, 0, 5, &mut one, &mut two) {
        Ok(plan) => {
            let _ = plan.close();
            assert!(rt; false);
        }
        Err(e) => assert!(rt; e.why == Refusal::ShortCells),
    }
}
