// Each table has four entries, which hold something else before a sheet is read.
use board::Turn;
use entries::{Arrow, Move, PositionEntry, Rule, Start};
use refusal::Refusal;
use sheet::{Outline, read};
use sheet_format::Fault;
use std::process::Abort;

// Three positions, three moves, two states, two arrows, two rules.
const SHEET: &[u8] =
    b"positions 3\na - 1\na r 65535\np - 2\nmoves 3\n0 1 5 1\n0 2 0 3\n2 1 0 0\nstates 2\nn\ny\narrows 2\n1 4 0 0\n0 2 4 1\nrules 2\nbefore 0 3\nnever 2\nstart 1\n2 7 9\n";

#[derive(Clone, Copy, Debug, PartialEq)]
struct Tables {
    positions: [PositionEntry; 4],
    moves: [Move; 4],
    states: [bool; 4],
    arrows: [Arrow; 4],
    rules: [Rule; 4],
}

// How many entries of each table are lent.
#[derive(Clone, Copy)]
struct Room {
    positions: usize,
    moves: usize,
    states: usize,
    arrows: usize,
    rules: usize,
}

const WHOLE: Room = Room {
    positions: 4,
    moves: 4,
    states: 4,
    arrows: 4,
    rules: 4,
};

// what the tables hold before
fn before() -> Tables {
    Tables {
        positions: [PositionEntry::new(Turn::Person, true, 77, 78, 79); 4],
        moves: [Move::new(71, 72, 73, 74); 4],
        states: [true, false, true, false],
        arrows: [Arrow::new(61, 62, 63, 64); 4],
        rules: [Rule::After(51, 52); 4],
    }
}

// the first entries of a table, all where it has no more than n
fn front<T>(table: &mut [T], n: usize) -> &mut [T] {
    let n = n.min(table.len());
    &mut table[..n]
}

fn read_into(tables: &mut Tables, sheet: &[u8], room: Room) -> Result<Outline, Fault> {
    read(
        sheet,
        front(&mut tables.positions, room.positions),
        front(&mut tables.moves, room.moves),
        front(&mut tables.states, room.states),
        front(&mut tables.arrows, room.arrows),
        front(&mut tables.rules, room.rules),
    )
}

// a sheet is refused, and the tables hold what they held
fn refused(rt: &impl Abort, sheet: &[u8], room: Room, fault: Fault) {
    let mut tables = before();
    assert_eq!(rt; read_into(&mut tables, sheet, room), Err(fault));
    assert_eq!(rt; tables, before());
}

#[test]
fn short_tables(rt: HostRuntime) {
    for &(room, line) in &[
        (
            Room {
                positions: 2,
                ..WHOLE
            },
            1,
        ),
        (
            Room {
                positions: 0,
                ..WHOLE
            },
            1,
        ),
        (Room { moves: 2, ..WHOLE }, 5),
        (Room { states: 1, ..WHOLE }, 9),
        (Room { arrows: 1, ..WHOLE }, 12),
        (Room { rules: 1, ..WHOLE }, 15),
        (
            Room {
                rules: 0,
                moves: 0,
                ..WHOLE
            },
            5,
        ),
    ] {
        refused(&rt, SHEET, room, Fault::new(Refusal::ShortTable, line, 2));
    }
}

#[test]
fn refused_sheets(rt: HostRuntime) {
    refused(&rt, b"", WHOLE, Fault::new(Refusal::EndsEarly, 1, 0));
    refused(
        &rt,
        b"positions 4096\n",
        WHOLE,
        Fault::new(Refusal::ShortTable, 1, 2),
    );
    refused(
        &rt,
        b"positions 4097\n",
        WHOLE,
        Fault::new(Refusal::OutOfRange, 1, 2),
    );
    refused(
        &rt,
        b"positions 1\np r 0\nmoves 2\n0 0 0 0\n0 0 0 1\n",
        WHOLE,
        Fault::new(Refusal::PersonPays, 5, 0),
    );
    refused(
        &rt,
        b"positions 1\na - 0\nmoves 1\n0 0 1 1\nstates 1\nn\narrows 1\n0 0 0 0\nrules 1\nmet 0\nstart 1\n0 0 4294967296\n",
        WHOLE,
        Fault::new(Refusal::OutOfRange, 12, 3),
    );
    refused(
        &rt,
        b"positions 1\na - 0\nmoves 1\n0 0 1 1\nstates 1\nn\narrows 1\n0 0 0 0\nrules 1\nmet 0\nstart 1\n0 0 0\nx",
        WHOLE,
        Fault::new(Refusal::PastTheEnd, 13, 0),
    );
    refused(&rt, &[10; 65537], WHOLE, Fault::new(Refusal::TooLong, 0, 0));
}

// the sheet's entries, and the last ones as they were
fn after() -> Tables {
    let old = before();
    Tables {
        positions: [
            PositionEntry::new(Turn::Arm, false, 1, 0, 2),
            PositionEntry::new(Turn::Arm, true, 65535, 2, 0),
            PositionEntry::new(Turn::Person, false, 2, 2, 1),
            old.positions[3],
        ],
        moves: [
            Move::new(0, 1, 5, 1),
            Move::new(0, 2, 0, 3),
            Move::new(2, 1, 0, 0),
            old.moves[3],
        ],
        states: [false, true, old.states[2], old.states[3]],
        arrows: [
            Arrow::new(1, 4, 0, 0),
            Arrow::new(0, 2, 4, 1),
            old.arrows[2],
            old.arrows[3],
        ],
        rules: [
            Rule::Before(0, 3),
            Rule::Never(2),
            old.rules[2],
            old.rules[3],
        ],
    }
}

fn accepted(rt: &impl Abort, room: Room) {
    let mut tables = before();
    let outline = Outline {
        positions: 3,
        moves: 3,
        states: 2,
        arrows: 2,
        rules: 2,
        start: Start {
            position: 2,
            bruise: 7,
            energy: 9,
        },
    };
    assert_eq!(rt; read_into(&mut tables, SHEET, room), Ok(outline));
    assert_eq!(rt; tables, after());
}

#[test]
fn accepted_sheet(rt: HostRuntime) {
    accepted(&rt, WHOLE);
    accepted(
        &rt,
        Room {
            positions: 3,
            moves: 3,
            states: 2,
            arrows: 2,
            rules: 2,
        },
    );
}
