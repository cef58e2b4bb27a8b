//! The bridge's rules: the types that rules and code share, and the laws that are proved of the rules.
#![tactic(auto)]

pub mod answers;
pub mod laws;
pub mod ports;
pub mod shape;
pub mod vlans;
