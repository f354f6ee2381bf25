//! The tests of pref_core, through its public items.
//!
//! They are in a crate of their own because a crate that holds tests is proved twice.
#![tactic(auto)]

#[cfg(test)]
mod engine;
#[cfg(test)]
mod same;
