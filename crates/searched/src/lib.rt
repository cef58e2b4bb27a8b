//! A filtering table that searches its records from the first.
#![tactic(auto)]

mod rows;
pub mod searched;
