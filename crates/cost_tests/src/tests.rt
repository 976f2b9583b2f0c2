// Costs are written as their two numbers.
use cost::{Care, Cost, Energy, Peak};
use std::process::Abort;

const TOP: u32 = u32::MAX;

// a sum: what comes first, what comes later, and what they come to
struct Sum {
    first: (u32, u32),
    later: (u32, u32),
    sum: (u32, u32),
}

// a comparison: whether `one` is not above `other`
struct Compared {
    one: (u32, u32),
    other: (u32, u32),
    at_most: bool,
}

fn sums<C: Cost>(rt: &impl Abort, rows: &[Sum]) {
    for row in rows {
        let sum = C::from_numbers(row.first).plus(C::from_numbers(row.later));
        assert!(rt; sum.numbers() == row.sum);
    }
}

fn comparisons<C: Cost>(rt: &impl Abort, rows: &[Compared]) {
    for row in rows {
        assert!(rt; C::from_numbers(row.one).at_most(C::from_numbers(row.other)) == row.at_most);
    }
}

// what zero and a charge of bruise 3 and energy 7 are, and how the numbers 5 and 6 are read
fn made<C: Cost>(rt: &impl Abort, charge: (u32, u32), read: (u32, u32)) {
    assert!(rt; C::zero().numbers() == (0, 0));
    assert!(rt; C::charge(3, 7).numbers() == charge);
    assert!(rt; C::from_numbers((5, 6)).numbers() == read);
}

#[test]
fn energy(rt: HostRuntime) {
    made::<Energy>(&rt, (7, 0), (5, 0));
    sums::<Energy>(
        &rt,
        &[
            Sum {
                first: (2, 0),
                later: (3, 0),
                sum: (5, 0),
            },
            Sum {
                first: (TOP - 1, 0),
                later: (1, 0),
                sum: (TOP, 0),
            },
            Sum {
                first: (TOP, 0),
                later: (1, 0),
                sum: (TOP, 0),
            },
            Sum {
                first: (TOP, 0),
                later: (TOP, 0),
                sum: (TOP, 0),
            },
        ],
    );
    comparisons::<Energy>(
        &rt,
        &[
            Compared {
                one: (2, 0),
                other: (3, 0),
                at_most: true,
            },
            Compared {
                one: (3, 0),
                other: (3, 0),
                at_most: true,
            },
            Compared {
                one: (3, 0),
                other: (2, 0),
                at_most: false,
            },
            Compared {
                one: (3, 9),
                other: (3, 1),
                at_most: true,
            },
        ],
    );
}

#[test]
fn peak(rt: HostRuntime) {
    made::<Peak>(&rt, (7, 0), (5, 0));
    sums::<Peak>(
        &rt,
        &[
            Sum {
                first: (2, 0),
                later: (3, 0),
                sum: (3, 0),
            },
            Sum {
                first: (3, 0),
                later: (2, 0),
                sum: (3, 0),
            },
            Sum {
                first: (3, 0),
                later: (3, 0),
                sum: (3, 0),
            },
            Sum {
                first: (TOP, 0),
                later: (1, 0),
                sum: (TOP, 0),
            },
        ],
    );
    comparisons::<Peak>(
        &rt,
        &[
            Compared {
                one: (2, 0),
                other: (3, 0),
                at_most: true,
            },
            Compared {
                one: (3, 0),
                other: (3, 0),
                at_most: true,
            },
            Compared {
                one: (3, 0),
                other: (2, 0),
                at_most: false,
            },
        ],
    );
}

#[test]
fn care(rt: HostRuntime) {
    made::<Care>(&rt, (3, 7), (5, 6));
    sums::<Care>(
        &rt,
        &[
            Sum {
                first: (1, 2),
                later: (3, 4),
                sum: (4, 6),
            },
            Sum {
                first: (1, 0),
                later: (TOP - 1, 5),
                sum: (TOP, 5),
            },
            Sum {
                first: (1, 0),
                later: (TOP, 0),
                sum: (TOP, TOP),
            },
            Sum {
                first: (TOP, 0),
                later: (0, 5),
                sum: (TOP, 5),
            },
            Sum {
                first: (0, TOP),
                later: (0, 1),
                sum: (0, TOP),
            },
            Sum {
                first: (2, TOP),
                later: (3, 1),
                sum: (5, TOP),
            },
        ],
    );
    comparisons::<Care>(
        &rt,
        &[
            Compared {
                one: (1, 9),
                other: (2, 0),
                at_most: true,
            },
            Compared {
                one: (2, 0),
                other: (1, 9),
                at_most: false,
            },
            Compared {
                one: (1, 2),
                other: (1, 3),
                at_most: true,
            },
            Compared {
                one: (1, 3),
                other: (1, 3),
                at_most: true,
            },
            Compared {
                one: (1, 3),
                other: (1, 2),
                at_most: false,
            },
        ],
    );
}
