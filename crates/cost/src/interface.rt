// What is asked of a kind of cost.
ghost use Rattle.std.specs.Prelude.{◌≡◌};
ghost use Rattle.cost.specs.Kind.{Kind};
ghost use Rattle.cost.specs.Laws.{CostLaws};

/// A kind of cost. Asking changes and refuses nothing.
// kept: the order and the two numbers are methods, and no PartialOrd or From, since the laws are of the one kind that names them all.
pub trait Cost: Copy {
    // zero, a move's charge, adding, the order, and a cost's two numbers with their reading
    ghost kind: { Kind Self };

    /// The cost of no move.
    fn zero() -> Self
        ensures { result ≡ kind.zero };

    /// What a move of this bruise and energy costs.
    fn charge(bruise: u32, energy: u32) -> Self
        ensures { result ≡ kind.charge bruise energy };

    /// `self`, and then `later`.
    fn plus(self, later: Self) -> Self
        ensures { result ≡ kind.add self later };

    /// Whether `self` is not above `other`.
    fn at_most(self, other: Self) -> bool
        ensures { result ≡ kind.leq self other };

    /// The two numbers that a cell keeps of the cost.
    fn numbers(self) -> (u32, u32)
        ensures { result ≡ kind.numbers self };

    /// The cost that two numbers stand for; any two are read as some cost.
    fn from_numbers(numbers: (u32, u32)) -> Self
        ensures { result ≡ kind.read numbers };

    ghost laws: { CostLaws kind };
}
