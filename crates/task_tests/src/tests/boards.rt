// Joined boards over a line of positions.
use super::reading::{accepts, labels_of, rests, walk};
use automaton::Automaton;
use board::Board;
use entries::{Arrow, Rule};
use joined::{join, room};
use line::Line;
use refusal::Refusal;
use rules::Rules;
use std::test::Fail;
use twice::room_for_both;

// Whether the joined board rests at the end of a line exactly when the rules accept all labels, and not before.
fn rests_at_the_end(task: &Rules, labels: &[u32]) -> bool {
    let below = Line { labels };
    let board = join(&below, task);
    let end = labels.len().max(1) - 1;
    rests(&board, walk(&board, end)) == accepts(task, labels)
        && (end == 0 || !rests(&board, walk(&board, end - 1)))
}

#[test]
fn rest_at_the_end(rt: HostRuntime) -> Result<(), Fail> {
    let task = Rules::over(&[Rule::Before(0, 1), Rule::After(0, 1)])?;
    for code in 0..256 {
        assert!(rt; rests_at_the_end(&task, &labels_of(code)));
    }
    Ok(())
}

// Two labels of which the first n count; the joined start, and where the line ends.
#[test]
fn the_start_reads_its_label(rt: HostRuntime) -> Result<(), Fail> {
    let table = [
        ([1, 0], 1usize, 1, 1),
        ([0, 0], 1, 0, 0),
        ([0, 1], 2, 0, 4),
        ([1, 0], 2, 1, 4),
        ([0, 0], 2, 0, 3),
    ];
    let task = Rules::over(&[Rule::Met(0)])?;
    for (labels, n, start, end) in table {
        assert!(rt; 0 < n && n <= 2);
        let below = Line {
            labels: &labels[..n],
        };
        let board = join(&below, &task);
        assert!(rt; board.start() == start && walk(&board, n - 1) == end);
    }
    Ok(())
}

// How many positions, and how many there are after joining one rule, or that it is refused.
#[test]
fn limits(rt: HostRuntime) -> Result<(), Fail> {
    let labels = [0u32; 1366];
    let task = Rules::over(&[Rule::Met(0)])?;
    for (n, count) in [
        (1usize, Ok(3)),
        (1365, Ok(4095)),
        (1366, Err(Refusal::JoinTooLarge)),
    ] {
        assert!(rt; n <= 1366);
        let below = Line {
            labels: &labels[..n],
        };
        assert!(rt; room(&below, &task).map(|()| join(&below, &task).count()) == count);
    }
    Ok(())
}

// Whether a line joined with an automaton, and then with rules, rests at its end exactly when both accept.
fn both_agree(automaton: &Automaton, rules: &Rules, labels: &[u32]) -> bool {
    let below = Line { labels };
    let once = join(&below, automaton);
    let board = join(&once, rules);
    let end = walk(&board, labels.len().max(1) - 1);
    room_for_both(&below, automaton, rules).is_ok()
        && rests(&board, end) == (accepts(automaton, labels) && accepts(rules, labels))
}

// An automaton first, rules over it.
#[test]
fn both_tasks(rt: HostRuntime) -> Result<(), Fail> {
    let arrows = [Arrow::new(0, 2, 0, 1)];
    let automaton = Automaton::over(&[false, true], &arrows)?;
    let rules = Rules::over(&[Rule::Met(0), Rule::After(0, 1)])?;
    for code in 0..256 {
        assert!(rt; both_agree(&automaton, &rules, &labels_of(code)));
    }
    Ok(())
}
