//! The tests of pref_sky, through its public items.
//!
//! They are in a crate of their own because a crate that holds tests is proved twice.
#![tactic(auto)]

#[cfg(test)]
mod same;
#[cfg(test)]
mod skylines;
