//! The corners of the three kinds of cost, as tables.
#![tactic(auto)]

#[cfg(test)]
mod tests;
