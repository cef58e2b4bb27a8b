//! Tests of the sets, over every word.
#![tactic(auto)]

#[cfg(test)]
mod changes;
#[cfg(test)]
mod classes;
#[cfg(test)]
mod pairs;
#[cfg(test)]
mod picks;
pub mod uses;
pub mod words;
