// Values: a cost, or none, which is above every cost.
ghost use Rattle.std.specs.Prelude.{◌≡◌, not};
ghost use Rattle.std.specs.Option.{option_map};
ghost use Rattle.game.specs.Rounds.{charge_of};
ghost use Rattle.game.specs.Values.{value_leq, value_add};
ghost use Rattle.cells.specs.Leads.{turn_leq};

use board::{Step, Turn};
use cost::Cost;

/// The value that a cell's cost stands for.
pub fn read<C: Cost>(cost: Option<(u32, u32)>) -> Option<C>
    ensures { result ≡ option_map C.kind.read cost }
{
    // kept: no `map`: `C::from_numbers` by its name gets no proof there, and a closure that only calls it is no plainer than `?`
    Some(C::from_numbers(cost?))
}

/// A value as a cell keeps it.
pub fn write<C: Cost>(value: Option<C>) -> Option<(u32, u32)>
    ensures { result ≡ option_map C.kind.numbers value }
{
    value.map(C::numbers)
}

/// Whether `x` is not above `y`.
#[tactic(auto, unfolding(game::specs::Values::value_leq))]
pub fn not_above<C: Cost>(x: Option<C>, y: Option<C>) -> bool
    ensures { result ≡ value_leq C.kind x y }
{
    // kept: a match, since none is above every cost here and below it in the order of Option
    match (x, y) {
        (_, None) => true,
        (None, Some(_)) => false,
        (Some(a), Some(b)) => a.at_most(b),
    }
}

/// Whether the one who moves would rather have `x` than `y`: the arm wants the least, the person the greatest.
#[tactic(auto, unfolding(crate::specs::Leads::turn_leq))]
pub fn better<C: Cost>(turn: Turn, x: Option<C>, y: Option<C>) -> bool
    ensures { result ≡ not (turn_leq C.kind turn y x) }
{
    match turn {
        Turn::Arm => !not_above(y, x),
        Turn::Person => !not_above(x, y),
    }
}

/// The value through a move whose target has this cost in its cell.
#[tactic(auto, unfolding(game::specs::Values::value_add))]
pub fn through<C: Cost>(step: Step, cost: Option<(u32, u32)>) -> Option<C>
    ensures { result ≡ value_add C.kind (charge_of C.kind step) (option_map C.kind.read cost) }
{
    let charge = C::charge(step.bruise, step.energy);
    read::<C>(cost).map(|later| charge.plus(later))
}
