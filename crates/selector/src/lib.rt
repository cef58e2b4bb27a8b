//! Which traffic class of a port sends next, of those that hold a frame.
#![tactic(auto)]

pub mod picking;
pub mod selector;
pub mod strict;
pub mod turns;
