//! Reading a sheet into tables, by example.
#![tactic(auto)]

#[cfg(test)]
mod tests;
