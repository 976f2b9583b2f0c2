//! Cells, which keep the value, the choice and the first round of a position, and what a solver asks of values and boards.
#![tactic(auto)]

mod parts;
mod questions;
mod values;

pub use parts::{Cell, Lead};
pub use questions::{degree_at, rests_at, step_at, turn_at};
pub use values::{better, not_above, read, through, write};
