//! The tests of pref_script, through its public items. Whole scripts with what the program prints are files of tests/scripts, at the top of
//! the repository, and the runs of test_runs.
//!
//! They are in a crate of their own because a crate that holds tests is proved twice.
#![tactic(auto)]

#[cfg(test)]
mod ends;
#[cfg(test)]
mod faults;
#[cfg(test)]
mod known_runs;
#[cfg(test)]
mod live;
#[cfg(test)]
mod refusals;
#[cfg(test)]
mod runs;
#[cfg(test)]
mod same;
#[cfg(test)]
mod threads;
