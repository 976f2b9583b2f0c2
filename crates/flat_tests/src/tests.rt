// A flat copy answers as the board that it copies.
use board::{Board, Step, Turn};
use entries::Rule;
use flat::FlatBoard;
use joined::join;
use line::Line;
use rules::Rules;
use std::process::Abort;
use std::test::Fail;

// Asks two boards the same questions, also past the last position and the last move.
fn alike<A: Board, B: Board>(rt: &impl Abort, one: &A, two: &B) -> Result<(), Fail> {
    assert!(rt; one.count() == two.count());
    assert!(rt; one.start() == two.start());
    for p in 0..one.count().saturating_add(2) {
        assert!(rt; one.turn(p) == two.turn(p));
        assert!(rt; one.label(p) == two.label(p));
        assert!(rt; one.rests(p) == two.rests(p));
        assert!(rt; one.degree(p) == two.degree(p));
        for k in 0..one.degree(p).unwrap_or(0).saturating_add(2) {
            assert!(rt; one.step(p, k) == two.step(p, k));
        }
    }
    Ok(())
}

// A line of three positions: label, rest and target of each.
#[test]
fn copy_of_a_line(rt: HostRuntime) -> Result<(), Fail> {
    let line = Line {
        labels: &[5, 65537, 0],
    };
    let flat = FlatBoard::copy(rt.alloc(), &line)?;
    assert!(rt; flat.count() == 3 && flat.start() == 0);
    for (p, label, rests, target) in [(0, 5, false, 1), (1, 1, false, 2), (2, 0, true, 2)] {
        assert!(rt; flat.turn(p) == Some(Turn::Arm));
        assert!(rt; flat.label(p) == Some(label));
        assert!(rt; flat.rests(p) == Some(rests));
        assert!(rt; flat.degree(p) == Some(1));
        let step = Step {
            target,
            bruise: 0,
            energy: 1,
        };
        assert!(rt; flat.step(p, 0) == Some(step));
        assert!(rt; flat.step(p, 1) == None);
    }
    alike(&rt, &line, &flat)
}

// A line of one position, and a copy of a copy.
#[test]
fn copy_of_a_copy(rt: HostRuntime) -> Result<(), Fail> {
    let line = Line { labels: &[] };
    let once = FlatBoard::copy(rt.alloc(), &line)?;
    let twice = FlatBoard::copy(rt.alloc(), &once)?;
    alike(&rt, &line, &twice)
}

// A joined board.
#[test]
fn copy_of_a_join(rt: HostRuntime) -> Result<(), Fail> {
    let line = Line {
        labels: &[0, 1, 2, 3],
    };
    let rules = Rules::over(&[Rule::Met(0), Rule::Before(0, 1)])?;
    let board = join(&line, &rules);
    let flat = FlatBoard::copy(rt.alloc(), &board)?;
    alike(&rt, &board, &flat)
}
