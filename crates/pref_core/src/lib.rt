//! A multiversion table of rows that up to eight clients change and ask. Each open query sees a snapshot: the table as
//! it was when that query began.
//!
//! A [`Machine`] takes a step for each [`Event`]; [`replay`] runs a whole list of events, and [`replay_part`] as much
//! of it as there is memory for. Its parts are in [`engine`]: [`Store`](engine::Store) keeps versions of rows in slots
//! that are used again; [`Query`](engine::Query) reads it block by block, and holds the best levels of what it has
//! read. The sequential table that says what each reply must be is a plain list of rows, copied whole at each begin
//! (specs/State.antt, specs/Step.antt); the laws on which threads build are in [`laws`].
#![tactic(auto)]

mod call;
mod changes;
mod event;
mod fault;
mod index;
pub mod laws;
mod machine;
mod query;
mod run;
mod setup;
mod store;

pub use changes::{Change, Commit};
pub use event::{Act, BoxedCommit, Committed, Event, RankedList, Reply, StepFault};
pub use fault::CoreFault;
pub use machine::Machine;
pub use run::{Part, replay, replay_part};
pub use setup::{Setup, SetupFault};

/// The parts of a [`Machine`], for who shares one table between threads: the store with its slots, calls and how they are planned, and
/// queries that are lent a store at each scan.
pub mod engine {
    pub use crate::call::boxed::{BoxedCall, BoxedOp};
    pub use crate::call::{Call, LentCall, Op, Outcome, Planned, QueryState, SlotList};
    pub use crate::index::Index;
    pub use crate::query::Query;
    pub use crate::store::Store;
}
