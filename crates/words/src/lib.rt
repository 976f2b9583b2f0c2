//! The lines and words of a sheet: parts of its own bytes, with their line and place.
#![tactic(auto)]

mod lines;
mod numbers;
mod parts;

pub use numbers::numeral;
pub use parts::{Line, Mark, PlacedWord, Word};
