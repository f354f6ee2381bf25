//! The tests of pref_term, through its public items.
//!
//! They are in a crate of their own because a crate that holds tests is proved twice.
#![tactic(auto)]

#[cfg(test)]
mod questions;
#[cfg(test)]
mod same;
