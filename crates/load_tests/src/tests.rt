// A sheet is read into tables, and its tasks are joined to its board.
use board::{Board, Turn};
use entries::{Arrow, Move, PositionEntry, Rule, Start};
use load::{Tables, read_bytes};
use std::test::Fail;

const SHEET: &[u8] =
    b"positions 2\na - 0\na r 1\nmoves 1\n0 1 0 2\nstates 2\nn\ny\narrows 1\n0 1 0 1\nrules 1\nmet 0\nstart 1\n0 3 5\n";

#[test]
fn tables(rt: HostRuntime) -> Result<(), Fail> {
    let tables = Tables::read(rt.alloc(), SHEET)?;
    assert!(rt;
        tables.positions.as_slice()
            == [
                PositionEntry::new(Turn::Arm, false, 0, 0, 1),
                PositionEntry::new(Turn::Arm, true, 1, 1, 0),
            ]
            .as_slice()
    );
    assert!(rt; tables.moves.as_slice() == [Move::new(0, 1, 0, 2)].as_slice());
    assert!(rt; tables.states.as_slice() == [false, true].as_slice());
    assert!(rt; tables.arrows.as_slice() == [Arrow::new(0, 1, 0, 1)].as_slice());
    assert!(rt; tables.rules.as_slice() == [Rule::Met(0)].as_slice());
    assert!(rt;
        tables.start
            == Start {
                position: 0,
                bruise: 3,
                energy: 5,
            }
    );
    assert!(rt; tables.board().count() == 2);
    let joined = tables.joined(rt.alloc())?;
    assert!(rt; joined.count() == 12 && joined.start() == 0);
    Ok(())
}

// What is read of a sheet of the longest length, and of longer ones.
#[test]
fn bytes(rt: HostRuntime) -> Result<(), Fail> {
    let long = [7u8; 65540];
    for n in [0usize, 65536, 65537, 65538] {
        assert!(rt; n <= 65540);
        let bytes = read_bytes(rt.alloc(), &long[..n])?;
        assert!(rt; bytes.len() == n.min(65537));
    }
    Ok(())
}
