// The theorems of the game, each named by the contract of a function, for every lawful kind of cost and every table.
ghost use Rattle.game.specs.ChosenMoves.{MovesAreChosen};
ghost use Rattle.game.specs.Lawful.{ChosenMovesAreLawful};
ghost use Rattle.game.specs.PersonHolds.{RepliesCostAtLeast, PersonHolds, NeverRests};
ghost use Rattle.game.specs.PlanRests.{PlanStaysWithin, PlanRests};
ghost use Rattle.game.specs.PromiseKept.{PromiseKept};
ghost use Rattle.game.specs.RoundsEnd.{RoundsComeToAnEnd};
ghost use Rattle.game.specs.RoundsFall.{RoundsNeverRise};
ghost use Rattle.game.specs.RunNumbers.{NumbersKeepRuns};
ghost use Rattle.game.specs.RunsKeep.{RunsStayCovered};

use cost::Cost;

/// The value of a position is never above that of the round before.
pub fn rounds_never_rise<C: Cost>()
    ensures { RoundsNeverRise C.kind }
{}

/// There is one number of rounds, and it is at most F, the number of positions that have a cost and do not rest.
pub fn rounds_come_to_an_end<C: Cost>()
    ensures { RoundsComeToAnEnd C.kind }
{}

/// The chosen moves in words: the lowest that gave the cost, the lowest that is greatest, and where there is none.
pub fn moves_are_chosen<C: Cost>()
    ensures { MovesAreChosen C.kind }
{}

/// In every play by the plan's moves what is spent, with the cost of where it stands, is within the cost of its start.
pub fn plan_stays_within<C: Cost>()
    ensures { PlanStaysWithin C.kind }
{}

/// Against every person the plan rests, within F moves and for at most the cost of the position.
pub fn plan_rests<C: Cost>()
    ensures { PlanRests C.kind }
{}

/// A play that rests, in which the person's moves are the chosen ones, costs at least the cost of its start.
pub fn replies_cost_at_least<C: Cost>()
    ensures { RepliesCostAtLeast C.kind }
{}

/// Against the person's chosen moves every arm never rests, or pays at least the cost of the position.
pub fn person_holds<C: Cost>()
    ensures { PersonHolds C.kind }
{}

/// From a position without a cost no arm rests against the person's chosen moves.
pub fn never_rests<C: Cost>()
    ensures { NeverRests C.kind }
{}

/// Who makes the chosen moves is an arm and a person, and one against the other pays just the cost of the position.
pub fn chosen_moves_are_lawful<C: Cost>()
    ensures { ChosenMovesAreLawful C.kind }
{}

/// A run on its own board stays covered, whatever events it is told.
pub fn runs_stay_covered<C: Cost>()
    ensures { RunsStayCovered C.kind }
{}

/// A run that keeps what it has spent as two numbers goes as one that keeps the cost.
pub fn numbers_keep_runs<C: Cost>()
    ensures { NumbersKeepRuns C.kind }
{}

/// What the rounds and the chosen moves give meets the promise.
pub fn promise_kept<C: Cost>()
    ensures { PromiseKept C.kind }
{}
