// Care as a kind of cost.
ghost use Rattle.std.specs.Prelude.{◌≡◌, ◌+◌, ◌*◌};
ghost use Rattle.cost.specs.CareKind.{care_kind};
ghost use Rattle.cost.specs.CareLaws.{care_laws};

use crate::interface::Cost;
use crate::kinds::Care;

impl Care {
    /// Bruise and energy as one number, which is compared faster and has the same order.
    fn packed(self) -> u64
        ensures { result ≡ self.bruise * 4294967296 + self.energy }
    {
        self.bruise as u64 * 4294967296 + self.energy as u64
    }
}

#[tactic(auto, using(crate::specs::CareLaws::care_same))]
impl Cost for Care {
    ghost kind = { care_kind };

    ghost laws = { care_laws };

    fn zero() -> Care {
        Care {
            bruise: 0,
            energy: 0,
        }
    }

    fn charge(bruise: u32, energy: u32) -> Care {
        Care { bruise, energy }
    }

    fn plus(self, later: Care) -> Care {
        match self.bruise.checked_add(later.bruise) {
            Some(bruise) => Care {
                bruise,
                energy: self.energy.saturating_add(later.energy),
            },
            None => Care {
                bruise: u32::MAX,
                energy: u32::MAX,
            },
        }
    }

    fn at_most(self, other: Care) -> bool {
        // kept: the packed number, which is compared faster than by the derived order
        self.packed() <= other.packed()
    }

    fn numbers(self) -> (u32, u32) {
        (self.bruise, self.energy)
    }

    fn from_numbers(numbers: (u32, u32)) -> Care {
        Care {
            bruise: numbers.0,
            energy: numbers.1,
        }
    }
}
