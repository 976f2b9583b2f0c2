//! What is said to `follow`, and what it answers: one line each.
#![tactic(auto)]

mod parts;
mod reading;
mod replies;
mod spellings;

pub use parts::Command;
pub use reading::command;
pub use replies::{EndText, ProgressText, ShownText};
