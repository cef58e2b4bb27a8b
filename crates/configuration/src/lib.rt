//! What a bridge is set up with before its start, and what it asks of that while it runs: its VLANs, its static
//! entries, and how a frame that arrives is placed.
#![tactic(auto)]

pub mod ingress;
mod row;
pub mod said;
pub mod statics;
pub mod vlans;
