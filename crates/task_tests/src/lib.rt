//! Tests of tasks and of joined boards.
#![tactic(auto)]

#[cfg(test)]
mod tests;
