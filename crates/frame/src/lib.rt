//! Ethernet frames with and without a VLAN tag: addresses, reading, writing, and reading for C.
//!
//! A frame is a slice of bytes, from its destination address to the last byte of its body, with no check sequence.
//! Lengths and positions are in bytes, and positions count from 0. docs/FRAMES.md has the rules.
#![tactic(auto)]

pub mod address;
pub mod c_api;
pub mod copy;
pub mod parts;
pub mod read;
pub mod write;
