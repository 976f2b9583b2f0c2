//! The account of a sheet: its counts, its start and budget, the joined board's count and start, and each position with its moves.
#![tactic(auto)]

mod printing;
mod responding;

pub use responding::respond;
