//! A whole session on the bench: a board is solved, a run begun, told its events one by one, and ended.
#![tactic(auto)]

mod desk;
mod parts;
mod script;
mod serving;

pub use desk::Desk;
pub use parts::{Cut, Ending, Note, Served, Shown};
pub use script::Script;
pub use serving::serve;
