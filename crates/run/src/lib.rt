//! Runs: a plan followed on the bench, event by event.
#![tactic(auto)]

mod beginning;
mod events;
mod parts;

pub use parts::{Answer, Run, Unbegun};
