// Which kind of cost a type is.
ghost use Rattle.wording.specs.declared.kinds.CostKind.{CostKind as KindOfCost};
ghost use Rattle.wording.specs.declared.kinds.CostKind.TheVariants.{Energy as IsEnergy, Peak as IsPeak, Care as IsCare};

use crate::kinds::CostKind;
use cost::{Care, Cost, Energy, Peak};

/// A kind of cost that has a name.
pub trait Named: Cost {
    ghost KIND: { KindOfCost };

    /// The kind of the costs.
    const KIND: CostKind;
}

impl Named for Energy {
    ghost KIND = { IsEnergy };

    const KIND: CostKind = CostKind::Energy;
}

impl Named for Peak {
    ghost KIND = { IsPeak };

    const KIND: CostKind = CostKind::Peak;
}

impl Named for Care {
    ghost KIND = { IsCare };

    const KIND: CostKind = CostKind::Care;
}
