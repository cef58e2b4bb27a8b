//! A VLAN bridge, for every kind of filtering table and every transmission selector.
#![tactic(auto)]

pub mod bridge;
pub mod check;
pub mod checked;
pub mod clock;
mod egress;
pub mod events;
mod learning;
mod port_state;
pub mod receiving;
mod relay;
pub mod sending;
pub mod setup;
