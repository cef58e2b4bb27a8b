//! Tests of the bridge: what its calls answer and leave, at several tables and selectors.
#![tactic(auto)]

#[cfg(test)]
mod bridges;
#[cfg(test)]
mod by_hand;
#[cfg(test)]
mod calls;
#[cfg(test)]
mod frames;
#[cfg(test)]
mod making;
#[cfg(test)]
mod playing;
