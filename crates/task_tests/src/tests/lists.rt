// Rules on lists of labels, against a direct reading of their words.
use super::reading::{accepts, has, labels_of};
use entries::Rule;
use refusal::Refusal;
use rules::Rules;
use std::test::Fail;
use task::Task;

// Whether some label has a sign.
fn some_has(labels: &[u32], sign: u32) -> bool {
    labels.iter().any(|label| has(*label, sign))
}

// Every label with q stands at or after a label with p.
fn all_after(labels: &[u32], p: u32, q: u32) -> bool {
    labels.iter().enumerate().all(|(i, label)| !has(*label, q)
        || labels.get(..=i).is_some_and(|front| some_has(front, p)))
}

// Every label with p stands at or before a label with q.
fn all_before(labels: &[u32], p: u32, q: u32) -> bool {
    labels.iter().enumerate().all(|(i, label)| !has(*label, p)
        || labels.get(i..).is_some_and(|rest| some_has(rest, q)))
}

// What a rule says, word for word.
fn holds(rule: Rule, labels: &[u32]) -> bool {
    match rule {
        Rule::Met(p) => some_has(labels, p),
        Rule::Never(p) => !some_has(labels, p),
        Rule::Before(p, q) => all_after(labels, p, q),
        Rule::After(p, q) => all_before(labels, p, q),
    }
}

// Whether the task of a rule list accepts a list of labels exactly when each rule holds of it.
fn agree(rules: &[Rule], labels: &[u32]) -> bool {
    let all = rules.iter().all(|rule| holds(*rule, labels));
    Rules::over(rules).is_ok_and(|task| accepts(&task, labels) == all)
}

// Whether they agree on all lists of up to four labels.
fn agree_on_all(rules: &[Rule]) -> bool {
    (0..256).all(|code| {
        let labels = labels_of(code);
        (0..5usize).all(|n| labels.get(..n).is_some_and(|front| agree(rules, front)))
    })
}

// Each row with its fronts: no rule, one, up to five.
#[test]
fn rules_on_all_short_lists(rt: HostRuntime) {
    let table = [
        [
            Rule::Met(0),
            Rule::Never(1),
            Rule::Before(0, 1),
            Rule::After(0, 1),
            Rule::Met(2),
        ],
        [
            Rule::Never(0),
            Rule::Met(1),
            Rule::After(1, 0),
            Rule::Before(1, 0),
            Rule::Never(2),
        ],
        [
            Rule::Before(0, 1),
            Rule::After(0, 1),
            Rule::Met(1),
            Rule::Never(2),
            Rule::Met(0),
        ],
        [
            Rule::After(0, 1),
            Rule::Before(0, 0),
            Rule::After(1, 1),
            Rule::Met(0),
            Rule::Before(1, 2),
        ],
        [
            Rule::Before(1, 0),
            Rule::Before(0, 1),
            Rule::After(1, 0),
            Rule::After(0, 1),
            Rule::Never(0),
        ],
        [
            Rule::After(1, 0),
            Rule::After(1, 2),
            Rule::Before(2, 1),
            Rule::Never(1),
            Rule::Met(0),
        ],
    ];
    for rules in table {
        for n in 0..6usize {
            assert!(rt; agree_on_all(&rules[..n]));
        }
    }
}

// A rule, labels of which the first n count, and whether it accepts them.
#[test]
fn worked_lists(rt: HostRuntime) {
    let table = [
        (Rule::Before(0, 1), [3, 0], 1usize, true),
        (Rule::Before(0, 1), [2, 0], 1, false),
        (Rule::Before(0, 1), [2, 1], 2, false),
        (Rule::After(0, 1), [1, 2], 2, true),
        (Rule::After(0, 1), [3, 0], 1, true),
        (Rule::After(0, 1), [1, 0], 1, false),
        (Rule::After(0, 1), [3, 1], 2, false),
    ];
    for (rule, labels, n, wanted) in table {
        assert!(rt; n <= 2);
        assert!(rt; holds(rule, &labels[..n]) == wanted && agree(&[rule], &labels[..n]));
    }
}

// State, label, the state after it, and whether the state before accepts.
#[test]
fn digits(rt: HostRuntime) -> Result<(), Fail> {
    let table = [
        (0, 0, Some(0), Some(false)),
        (0, 1, Some(10), Some(false)),
        (0, 2, Some(3), Some(false)),
        (0, 3, Some(4), Some(false)),
        (10, 2, Some(4), Some(false)),
        (1, 0, Some(1), Some(true)),
        (2, 1, Some(11), Some(false)),
        (7, 3, Some(7), Some(false)),
        (18, 2, Some(21), Some(false)),
        (19, 0, Some(19), Some(false)),
        (27, 0, None, None),
    ];
    let rules = [Rule::Met(0), Rule::Never(1), Rule::After(0, 1)];
    let task = Rules::over(&rules)?;
    assert!(rt; task.states() == 27 && task.first() == 0);
    for (z, label, next, accepting) in table {
        assert!(rt; task.next(z, label) == next && task.accepting(z) == accepting);
    }
    Ok(())
}

#[test]
fn five_rules_at_most(rt: HostRuntime) {
    let six = [Rule::Met(0); 6];
    assert!(rt; Rules::over(&six[..5]).is_ok_and(|task| task.states() == 243));
    assert!(rt; Rules::over(&six).is_err_and(|e| e == Refusal::OutOfRange));
}
