// The digits of a state, one a rule.
ghost use Rattle.std.specs.Prelude.{◌≡◌, ◌^◌, ◌<◌, ◌≤◌, Bool, length, if◌then◌else◌};
ghost use Rattle.task.specs.Signs.{has_sign};
ghost use Rattle.rules.specs.Digits.{digit_after, digit_accepts, next_state, state_accepts};

use entries::Rule;

// Whether a label has a sign.
#[tactic(auto, using(crate::proofs::Turns::has_past), unfolding(task::specs::Signs::has_sign))]
fn has_sign(label: u32, sign: u32) -> bool
    ensures { result ≡ has_sign label sign }
{
    sign < 32 && (label >> sign) % 2 == 1
}

// The digit for the first of two signs that a label has, or 0 where it has neither.
fn first_of(label: u32, a: (u32, u32), b: (u32, u32)) -> u32
    ensures { result ≡ (if has_sign label a.0 then a.1 else (if has_sign label b.0 then b.1 else 0)) }
{
    if has_sign(label, a.0) {
        a.1
    } else if has_sign(label, b.0) {
        b.1
    } else {
        0
    }
}

// A rule's digit after a label. A digit without a meaning stays.
fn digit_after(rule: Rule, digit: u32, label: u32) -> u32
    ensures { result ≡ digit_after rule digit label }
{
    match (rule, digit) {
        (Rule::Met(p) | Rule::Never(p), 0) => { if has_sign(label, p) { 1 } else { 0 } }
        (Rule::Before(p, q), 0) => first_of(label, (p, 1), (q, 2)),
        (Rule::After(p, q), 0) => first_of(label, (q, 0), (p, 1)),
        (Rule::After(_, q), 1) => { if has_sign(label, q) { 0 } else { 1 } }
        _ => digit,
    }
}

// Whether a rule accepts at a digit.
fn digit_accepts(rule: Rule, digit: u32) -> bool
    ensures { result ≡ digit_accepts rule digit }
{
    match rule {
        Rule::Met(_) => digit == 1,
        Rule::Never(_) | Rule::After(_, _) => digit == 0,
        Rule::Before(_, _) => digit < 2,
    }
}

// The state after a label: every digit turns by its own rule.
// kept: a loop: a function that calls itself with the rest of the rules took more than twice as long
pub(crate) fn next_state(rules: &[Rule], z: u32, label: u32) -> u32
    requires few { length rules.now ≤ 5 }
    requires there { z < 3 ^ length rules.now }
    ensures { result ≡ next_state rules.now z label }
{
    let mut next = 0;
    let mut place = 1;
    let mut rest = z;
    for rule in rules {
        next += place * digit_after(*rule, rest % 3, label);
        place *= 3;
        rest /= 3;
    }
    next
}

// Whether every rule accepts at its digit.
pub(crate) fn state_accepts(rules: &[Rule], z: u32) -> bool
    ensures { result ≡ state_accepts rules.now z }
{
    match rules {
        [] => true,
        [rule, rest @ ..] => digit_accepts(*rule, z % 3) && state_accepts(rest, z / 3),
    }
}
