//! Records that are placed by a hash: the search for an entry or for a free record, going round from
//! an entry's home, freeing records, and what is known of a stretch of them.
#![tactic(auto)]

mod hash;
pub mod measure;
pub mod probe;
pub mod sweep;
