// A bench of four positions, the second a person's; and tables that hold no board.
use board::{Board, Step, Turn};
use entries::{Move, PositionEntry};
use std::process::Abort;
use table::TableBoard;

fn step(target: u32, bruise: u32, energy: u32) -> Option<Step> {
    Some(Step {
        target,
        bruise,
        energy,
    })
}

// Asks a board about positions: turn, label, rest and degree of each, or none where it is not there.
fn says<B: Board>(rt: &impl Abort, board: &B, wanted: &[(u32, Option<(Turn, u32, bool, u32)>)]) {
    for (p, row) in wanted {
        assert!(rt; board.turn(*p) == row.map(|row| row.0));
        assert!(rt; board.label(*p) == row.map(|row| row.1));
        assert!(rt; board.rests(*p) == row.map(|row| row.2));
        assert!(rt; board.degree(*p) == row.map(|row| row.3));
    }
}

#[test]
fn four_positions(rt: HostRuntime) {
    let entries = [
        PositionEntry::new(Turn::Arm, false, 0, 0, 2),
        PositionEntry::new(Turn::Person, false, 1, 2, 2),
        PositionEntry::new(Turn::Arm, false, 2, 4, 1),
        PositionEntry::new(Turn::Arm, true, 65535, 5, 0),
    ];
    let moves = [
        Move::new(0, 1, 0, 3),
        Move::new(0, 3, 2, 1),
        Move::new(1, 2, 0, 0),
        Move::new(1, 3, 0, 0),
        Move::new(2, 3, 1000, 1000000),
    ];
    let board = TableBoard::over(&entries, &moves, 2);
    assert!(rt; board.count() == 4);
    assert!(rt; board.start() == 2);
    says(
        &rt,
        &board,
        &[
            (0, Some((Turn::Arm, 0, false, 2))),
            (1, Some((Turn::Person, 1, false, 2))),
            (2, Some((Turn::Arm, 2, false, 1))),
            (3, Some((Turn::Arm, 65535, true, 0))),
            (4, None),
        ],
    );
    for (p, k, wanted) in [
        (0, 1, step(3, 2, 1)),
        (0, 2, None),
        (1, 0, step(2, 0, 0)),
        (2, 0, step(3, 1000, 1000000)),
        (3, 0, None),
        (4, 0, None),
    ] {
        assert!(rt; board.step(p, k) == wanted);
    }
}

// one arm's position and one person's, with a move each
fn idle(
    rt: &impl Abort,
    arm: PositionEntry,
    person: PositionEntry,
    there: Move,
    back: Move,
    start: u32,
) {
    let entries = [arm, person];
    let moves = [there, back];
    let board = TableBoard::over(&entries, &moves, start);
    assert!(rt; board.count() == 1);
    assert!(rt; board.start() == 0);
    says(rt, &board, &[(0, Some((Turn::Arm, 0, true, 0))), (1, None)]);
}

#[test]
fn no_board(rt: HostRuntime) {
    let arm = PositionEntry::new(Turn::Arm, false, 0, 0, 1);
    let person = PositionEntry::new(Turn::Person, false, 0, 1, 1);
    let there = Move::new(0, 1, 1, 1);
    let back = Move::new(1, 0, 0, 0);
    idle(&rt, arm, person, there, back, 2);
    idle(
        &rt,
        PositionEntry::new(Turn::Arm, false, 65536, 0, 1),
        person,
        there,
        back,
        0,
    );
    idle(
        &rt,
        PositionEntry::new(Turn::Arm, false, 0, 2, 1),
        person,
        there,
        back,
        0,
    );
    idle(&rt, arm, person, Move::new(0, 2, 1, 1), back, 0);
    idle(&rt, arm, person, Move::new(0, 1, 1001, 1), back, 0);
    idle(&rt, arm, person, Move::new(0, 1, 1, 1000001), back, 0);
    idle(&rt, arm, person, there, Move::new(1, 0, 1, 0), 0);
    idle(&rt, arm, person, there, Move::new(1, 0, 0, 1), 0);
}
