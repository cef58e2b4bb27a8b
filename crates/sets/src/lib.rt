//! Sets of small numbers: of ports, and of traffic classes.
#![tactic(auto)]

pub mod members;
pub mod number_set;
