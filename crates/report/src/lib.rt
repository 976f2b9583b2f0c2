//! What `figures` prints for a sheet: the listing of its board for each kind of cost, or its one refusal.
#![tactic(auto)]

mod kinds;
mod sheets;

pub use sheets::report;
