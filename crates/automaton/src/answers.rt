// What the automaton answers.
ghost use Rattle.std.specs.Prelude.{◌≡◌, ℕ, ◌<◌, Bool, ◌&&◌, length, Decides, MatchResult, nat_lt};
ghost use Rattle.refusal.specs.Number.{refusal_number};
ghost use Rattle.automaton.specs.Arrows.{arrow_fits};
ghost use Rattle.automaton.specs.Follows.{Whole, IsAutomaton};
ghost use Rattle.automaton.specs.Means.{means, means_in_range, next_within};

use crate::holder::Automaton;
use entries::Arrow;
use refusal::Refusal;
use task::Task;

// Whether an arrow leaves `z` and fits a label.
fn fits(arrow: &Arrow, z: u32, label: u32) -> bool
    ensures { result ≡ arrow_fits arrow.now z label }
{
    arrow.from == z && label & arrow.need == arrow.need && label & arrow.bar == 0
}

// Whether an arrow fits and leads to one of `count` states.
fn leads(arrow: &Arrow, z: u32, label: u32, count: u32) -> bool
    ensures { result ≡ (arrow_fits arrow.now z label && nat_lt arrow.now.to count) }
{
    fits(arrow, z, label) && arrow.to < count
}

// The state after `z` reads a label: where the first arrow leads that fits and leads to one of `count` states, or `z`.
fn state_after(arrows: &[Arrow], z: u32, label: u32, count: u32) -> u32
    ensures { result ≡ next_within count arrows.now z label }
{
    arrows
        .iter()
        .find(|arrow| leads(arrow, z, label, count))
        .map_or(z, |arrow| arrow.to)
}

// Whether both ends of an arrow are among `count` states.
fn inside(arrow: &Arrow, count: u32) -> bool
    ensures { Decides result ((arrow.now.from < count) × (arrow.now.to < count)) }
{
    arrow.from < count && arrow.to < count
}

impl<'a, 'b> Automaton<'a, 'b> {
    /// The automaton of up to 64 states and of arrows among them. At each label it follows the first arrow that fits, and stays where none does.
    /// More states, or an arrow from or to a state that is not there, are refused.
    pub fn over(states: &'a [bool], arrows: &'b [Arrow]) -> Result<Automaton<'a, 'b>, Refusal>
        ensures { MatchResult result (λ t. IsAutomaton states.now arrows.now (means t)) (λ e. (e ≡ Refusal.OutOfRange) × (refusal_number e ≡ 4) × (Whole states.now arrows.now → ⊥)) }
    {
        if states.len() > 64 {
            return Err(Refusal::OutOfRange);
        }
        let count = states.len() as u32;
        if arrows.iter().all(|arrow| inside(arrow, count)) {
            Ok(Automaton { states, arrows })
        } else {
            Err(Refusal::OutOfRange)
        }
    }
}

impl<'a, 'b> Task for Automaton<'a, 'b> {
    ghost meaning = { means };

    ghost ranges = { means_in_range };

    fn states(&self) -> u32 {
        self.states.len().clamp(1, 64) as u32
    }

    fn first(&self) -> u32 {
        0
    }

    fn next(&self, z: u32, label: u32) -> Option<u32> {
        let count = self.states();
        (z < count).then(|| state_after(self.arrows, z, label, count))
    }

    fn accepting(&self, z: u32) -> Option<bool> {
        (z < self.states()).then(|| self.states.get(z as usize).map_or(true, |accepts| *accepts))
    }
}
