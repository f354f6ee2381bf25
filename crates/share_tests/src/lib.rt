//! The tests of pref_share, through its public items.
//!
//! They are in a crate of their own because a crate that holds tests is proved twice. The task that they run, `inserts`, stands outside
//! `cfg(test)`, since a must-fail edit is tried without the tests.
#![tactic(auto)]

#[cfg(test)]
mod acts;
#[cfg(test)]
mod boards;
#[cfg(test)]
mod calls;
#[cfg(test)]
mod commits;
pub mod inserts;
#[cfg(test)]
mod pairs;
#[cfg(test)]
mod reads;
#[cfg(test)]
mod refusals;
#[cfg(test)]
mod reports;
#[cfg(test)]
mod rounds;
#[cfg(test)]
mod same;
#[cfg(test)]
mod tasks;
#[cfg(test)]
mod threads;
#[cfg(test)]
mod words;
