//! Frames standing in queues, one queue for each port and traffic class. What is kept here of a frame is its length and
//! VID. Its bytes lie in a frame memory that the caller lends to each call, in cells of 1,518 bytes: by port, then class,
//! then slot. The calls of one `Queues` are to be lent the same frame memory, which nobody else writes.
#![tactic(auto)]

pub mod emptying;
pub mod label;
pub mod laying;
mod one_queue;
pub mod queues;
mod ring;
pub mod standing;
pub mod taking;
#[cfg(test)]
mod tests;
