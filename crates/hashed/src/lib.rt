//! A filtering table whose records are placed by a hash, in a stretch for each filtering database.
#![tactic(auto)]

pub mod hashed;
mod row;
mod stretch;
