//! A board joined with a task: a board whose positions are the pairs of a position and a state.
#![tactic(auto)]

mod answers;
mod pair;

pub use answers::{join, room};
pub use pair::Joined;
