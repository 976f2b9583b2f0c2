//! Rounds on a board, from the round in which only resting positions have a cost to the one that changes nothing.
#![tactic(auto)]

mod fixed;
mod position;
mod sweep;

pub use fixed::final_cells;
