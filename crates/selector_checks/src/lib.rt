//! Tests of the selectors, over every set of classes.
#![tactic(auto)]

#[cfg(test)]
mod any;
#[cfg(test)]
mod standing;
#[cfg(test)]
mod strict;
#[cfg(test)]
mod turns;
