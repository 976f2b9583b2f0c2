//! A board for tests: positions in a line, each with one move to the next; the last one rests, and its move leads to itself.
#![tactic(auto)]

mod answers;
mod holder;

pub use holder::Line;
