//! The automaton task: states, and arrows that are followed by the signs of a label.
#![tactic(auto)]

mod answers;
mod holder;

pub use holder::Automaton;
