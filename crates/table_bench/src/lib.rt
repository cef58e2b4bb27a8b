//! Work for the tables that a program outside can time, through plain numbers.
#![tactic(auto)]

pub mod c_api;
mod entries;
mod kind;
mod kinds;
mod load;
mod task;
mod work;
