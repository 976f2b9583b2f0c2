// Energy as a kind of cost.
ghost use Rattle.cost.specs.EnergyKind.{energy_kind};
ghost use Rattle.cost.specs.EnergyLaws.{energy_laws};

use crate::interface::Cost;
use crate::kinds::Energy;

#[tactic(auto, using(crate::specs::EnergyLaws::energy_same))]
impl Cost for Energy {
    ghost kind = { energy_kind };

    ghost laws = { energy_laws };

    fn zero() -> Energy {
        Energy { spent: 0 }
    }

    fn charge(bruise: u32, energy: u32) -> Energy {
        Energy { spent: energy }
    }

    fn plus(self, later: Energy) -> Energy {
        Energy {
            spent: self.spent.saturating_add(later.spent),
        }
    }

    fn at_most(self, other: Energy) -> bool {
        self <= other
    }

    fn numbers(self) -> (u32, u32) {
        (self.spent, 0)
    }

    fn from_numbers(numbers: (u32, u32)) -> Energy {
        Energy { spent: numbers.0 }
    }
}
