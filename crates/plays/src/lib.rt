//! Paths and plays over a board's table: definitions alone.
#![tactic(auto)]
