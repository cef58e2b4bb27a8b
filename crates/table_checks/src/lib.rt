//! Tests of the filtering tables: what each call answers, tried at all of them alike.
#![tactic(auto)]

#[cfg(test)]
mod after_learning;
#[cfg(test)]
mod alike;
#[cfg(test)]
mod by_hand;
#[cfg(test)]
mod calls;
#[cfg(test)]
mod kinds;
#[cfg(test)]
mod making;
#[cfg(test)]
mod remembering;
