//! What the bridge refuses, and what a receive says of its learning.
//!
//! Every crate of the bridge answers its refusals by the one type [`refusal::Refusal`], so that a refusal goes up by
//! `?` unaltered, from the call that asked the question to the program that made the outermost call.
#![tactic(auto)]

pub mod layer;
pub mod mark;
pub mod refusal;
