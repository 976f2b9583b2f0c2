//! A session over text: events are read a line at a time, and each is answered at once with a line.
#![tactic(auto)]

mod desk;
mod following;

pub use desk::Console;
pub use following::follow;
