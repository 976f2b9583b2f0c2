// Automata: which arrow is followed.
use super::reading::accepts;
use automaton::Automaton;
use entries::Arrow;
use refusal::Refusal;
use std::test::Fail;
use task::Task;

// State, label, the state after it. The first two arrows overlap, and the fourth needs the sign that it bars.
#[test]
fn arrows(rt: HostRuntime) -> Result<(), Fail> {
    let table = [
        (0, 3, Some(2)),
        (0, 7, Some(2)),
        (0, 1, Some(1)),
        (0, 5, Some(1)),
        (0, 0, Some(2)),
        (0, 4, Some(2)),
        (0, 2, Some(0)),
        (0, 6, Some(0)),
        (1, 4, Some(1)),
        (1, 0, Some(1)),
        (1, 2, Some(0)),
        (1, 6, Some(0)),
        (1, 3, Some(1)),
        (2, 0, Some(2)),
        (2, 7, Some(2)),
        (3, 0, None),
    ];
    let arrows = [
        Arrow::new(0, 3, 0, 2),
        Arrow::new(0, 1, 0, 1),
        Arrow::new(0, 0, 2, 2),
        Arrow::new(1, 4, 4, 0),
        Arrow::new(1, 2, 1, 0),
    ];
    let task = Automaton::over(&[false, true, false], &arrows)?;
    for (z, label, next) in table {
        assert!(rt; task.next(z, label) == next);
    }
    assert!(rt; task.states() == 3 && task.accepting(3) == None);
    assert!(rt; accepts(&task, &[2, 1, 4, 0]) && !accepts(&task, &[2, 1, 2]));
    Ok(())
}

#[test]
fn no_automaton(rt: HostRuntime) -> Result<(), Fail> {
    let task = Automaton::over(&[], &[])?;
    assert!(rt; task.states() == 1 && task.next(0, 65535) == Some(0) && task.next(1, 0) == None);
    assert!(rt; accepts(&task, &[]) && accepts(&task, &[1, 2, 3]));
    Ok(())
}

// How many states there are, an arrow's ends, and whether that is taken.
#[test]
fn out_of_range(rt: HostRuntime) {
    let states = [true; 65];
    let table = [
        (1usize, 0, 0, true),
        (1, 0, 1, false),
        (1, 1, 0, false),
        (2, 1, 1, true),
        (0, 0, 0, false),
        (64, 63, 63, true),
        (65, 0, 0, false),
    ];
    for (n, from, to, fine) in table {
        assert!(rt; n <= 65);
        match Automaton::over(&states[..n], &[Arrow::new(from, 0, 0, to)]) {
            Ok(_) => assert!(rt; fine),
            Err(e) => assert!(rt; !fine && e == Refusal::OutOfRange),
        }
    }
}
