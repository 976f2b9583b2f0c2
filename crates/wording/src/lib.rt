//! How values are spelled in what is printed.
#![tactic(auto)]

mod kinds;
mod named;
mod texts;
mod turns;

pub use kinds::{CostKind, UnknownKind};
pub use named::Named;
pub use texts::{ChoiceText, CostText};
pub use turns::turn_mark;
