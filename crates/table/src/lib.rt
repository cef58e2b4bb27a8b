//! Filtering tables: what an entry is, what is asked before a table is made, and what every table does.
#![tactic(auto)]

pub mod check;
pub mod checked;
pub mod entry;
pub mod fid;
pub mod table;
