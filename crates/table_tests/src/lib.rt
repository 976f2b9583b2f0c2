//! Boards over tables, by example.
#![tactic(auto)]

#[cfg(test)]
mod tests;
