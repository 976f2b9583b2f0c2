//! The rule task: up to five rules that are all to hold of the labels of a play.
#![tactic(auto)]

mod answers;
mod digits;
mod list;

pub use list::Rules;
