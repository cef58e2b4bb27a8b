//! A filtering table that remembers its latest answers.
#![tactic(auto)]

mod memory;
pub mod recent;
mod remembered;
