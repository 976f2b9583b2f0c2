// The three kinds of cost. A cost never passes the top, 4,294,967,295.
ghost use Rattle.std.specs.Prelude.{◌≤◌};

// kept: Energy and Peak as two types. As one type over an operation they would take 173 lines, now 169, with a trait, two empty types and a phantom field more.

/// The energy that the moves spend, summed.
#[derive(Clone, Copy, PartialEq, PartialOrd)]
pub struct Energy {
    pub(crate) spent: u32,
    ghost fits: { spent ≤ 4294967295 },
}

/// The greatest energy of a move.
#[derive(Clone, Copy, PartialEq, PartialOrd)]
pub struct Peak {
    pub(crate) most: u32,
    ghost fits: { most ≤ 4294967295 },
}

/// The bruise first, then the energy.
#[derive(Clone, Copy, PartialEq, PartialOrd)]
pub struct Care {
    pub(crate) bruise: u32,
    pub(crate) energy: u32,
    ghost fits: { (bruise ≤ 4294967295) × (energy ≤ 4294967295) },
}
