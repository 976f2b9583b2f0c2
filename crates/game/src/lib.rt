//! The game on a board: plays and strategies, rounds and chosen moves, runs, and what is promised of them.
#![tactic(auto)]

mod parts;
mod theorems;

pub use parts::{Event, Phase, Progress};
pub use theorems::{
    chosen_moves_are_lawful, moves_are_chosen, never_rests, numbers_keep_runs, person_holds,
    plan_rests, plan_stays_within, promise_kept, replies_cost_at_least, rounds_come_to_an_end,
    rounds_never_rise, runs_stay_covered,
};
