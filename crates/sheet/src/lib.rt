//! Reading a sheet into tables that the caller lends.
#![tactic(auto)]

mod cursor;
mod parts;
mod reader;
mod reading;
mod sections;
mod tables;
mod whole;

pub use parts::Outline;
pub use reading::read;
