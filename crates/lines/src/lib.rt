//! The kinds of lines of a sheet: what each must say, and what is read of it.
#![tactic(auto)]

mod fields;
mod kinds;
mod moves;
mod rows;
mod rules;

pub use kinds::{ArrowLines, LineKind, PositionLines, StateLines};
pub use moves::MoveLines;
pub use rows::{header_line, start_line};
pub use rules::RuleLines;
