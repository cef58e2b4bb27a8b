//! The calls of any table, with the laws that its contract comes to.
#![tactic(auto)]

pub mod laws;
