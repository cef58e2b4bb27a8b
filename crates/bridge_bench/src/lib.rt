//! A bridge's work that a program outside can time, through plain numbers and slices.
#![tactic(auto)]

pub mod c_api;
mod kinds;
mod play;
mod setup;
pub mod traffic;
mod worth;
