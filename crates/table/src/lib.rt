//! The board that filled tables hold, answered in constant time.
#![tactic(auto)]

mod answers;
mod holder;
mod making;

pub use holder::TableBoard;
pub use making::sheet_boards;
