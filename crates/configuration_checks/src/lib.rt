//! Tests of VLANs, static entries and ingress.
#![tactic(auto)]

mod made;
#[cfg(test)]
mod placing;
#[cfg(test)]
mod saying;
#[cfg(test)]
mod setting_up;
