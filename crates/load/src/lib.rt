//! From the bytes of a sheet to the board that is solved: the sheet's board with its tasks joined.
#![tactic(auto)]

mod bytes;
mod joining;
mod parts;
mod reading;
mod tables;

pub use bytes::read_bytes;
pub use parts::{Bench, LoadError};
pub use reading::load;
pub use tables::Tables;
