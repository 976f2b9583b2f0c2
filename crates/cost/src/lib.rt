//! Costs: the interface that solving and running ask, its laws, and the three kinds of cost.
#![tactic(auto)]

mod care;
mod energy;
mod interface;
mod kinds;
mod peak;

pub use interface::Cost;
pub use kinds::{Care, Energy, Peak};
