//! Loading sheets, by example.
#![tactic(auto)]

#[cfg(test)]
mod tests;
