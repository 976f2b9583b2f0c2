//! The table of a board joined with a task, and what its plays mean below: definitions and lemmas alone.
#![tactic(auto)]
