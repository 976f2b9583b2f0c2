//! Solving a board for a kind of cost: the plan, and the verdict on its start.
#![tactic(auto)]

mod methods;
mod plan;
mod solving;
mod verdict;

pub use plan::{Plan, Unsolved};
pub use solving::solve;
pub use verdict::Verdict;
