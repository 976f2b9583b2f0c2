// What the rule task answers.
ghost use Rattle.std.specs.Prelude.{◌≡◌, ◌<◌, ◌≤◌, Bool, length, take, MatchResult};
ghost use Rattle.refusal.specs.Number.{refusal_number};
ghost use Rattle.rules.specs.Means.{means, means_in_range, KeepsRules};

use crate::digits::{next_state, state_accepts};
use crate::list::Rules;
use entries::Rule;
use refusal::Refusal;
use task::Task;

// A task has at most so many rules.
const MOST_RULES: usize = 5;

impl<'a> Rules<'a> {
    /// The task of up to five rules. It accepts a list of labels exactly when every rule holds of the list.
    /// More than five rules are refused.
    pub fn over(rules: &'a [Rule]) -> Result<Rules<'a>, Refusal>
        ensures { MatchResult result (λ t. (length rules.now ≤ 5) × KeepsRules rules.now (means t)) (λ e. (e ≡ Refusal.OutOfRange) × (refusal_number e ≡ 4) × (5 < length rules.now)) }
    {
        if rules.len() <= MOST_RULES {
            Ok(Rules { rules })
        } else {
            Err(Refusal::OutOfRange)
        }
    }

    // The rules that are read: a list that did not come from `over` may be longer.
    fn list(&self) -> &'a [Rule]
        ensures { result.now ≡ take 5 self.now.rules.now }
    {
        &self.rules[..self.rules.len().min(MOST_RULES)]
    }
}

impl<'a> Task for Rules<'a> {
    ghost meaning = { means };

    ghost ranges = { means_in_range };

    fn states(&self) -> u32 {
        3u32.pow(self.list().len() as u32)
    }

    fn first(&self) -> u32 {
        0
    }

    fn next(&self, z: u32, label: u32) -> Option<u32> {
        let rules = self.list();
        (z < self.states()).then(|| next_state(rules, z, label))
    }

    fn accepting(&self, z: u32) -> Option<bool> {
        let rules = self.list();
        (z < self.states()).then(|| state_accepts(rules, z))
    }
}
