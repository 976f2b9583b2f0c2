// Peak as a kind of cost.
ghost use Rattle.cost.specs.PeakKind.{peak_kind};
ghost use Rattle.cost.specs.PeakLaws.{peak_laws};

use crate::interface::Cost;
use crate::kinds::Peak;

#[tactic(auto, using(crate::specs::PeakLaws::peak_same))]
impl Cost for Peak {
    ghost kind = { peak_kind };

    ghost laws = { peak_laws };

    fn zero() -> Peak {
        Peak { most: 0 }
    }

    fn charge(bruise: u32, energy: u32) -> Peak {
        Peak { most: energy }
    }

    fn plus(self, later: Peak) -> Peak {
        Peak {
            most: self.most.max(later.most),
        }
    }

    fn at_most(self, other: Peak) -> bool {
        self <= other
    }

    fn numbers(self) -> (u32, u32) {
        (self.most, 0)
    }

    fn from_numbers(numbers: (u32, u32)) -> Peak {
        Peak { most: numbers.0 }
    }
}
