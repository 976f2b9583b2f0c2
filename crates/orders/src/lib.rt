//! Least and greatest by an order, the lowest place that passes a test, and counting: definitions and lemmas, no code.
#![tactic(auto)]
