//! Flat copies of boards, by example.
#![tactic(auto)]

#[cfg(test)]
mod tests;
