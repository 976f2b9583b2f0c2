//! Boards: the interface that the joined board, the solver and the run ask, and its meaning as a finite table.
#![tactic(auto)]

mod interface;
mod parts;

pub use interface::Board;
pub use parts::{Step, Turn};
