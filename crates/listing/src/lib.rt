//! The listing of a solved board as text: the figure and the verdict, then each position's cost and chosen move.
#![tactic(auto)]

mod lines;

pub use lines::push_listing;
