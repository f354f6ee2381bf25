//! Clients on threads of their own, over one table: each changes it, asks it and reads it, while the others do.
//!
//! [`open_board`] gives a [`Board`] and its [`Client`]s. What a client changes joins one history under the board's
//! lock, and is published to readers; what it reads takes no lock and never waits. Each call's reply is that
//! of the sequential table at one place of that history, and the history that a client has seen never gets
//! shorter. [`run_all`] runs the acts of all clients, each on a thread; their replies are sequentially consistent. [`run_each`]
//! does the same, and hands each client back in a [`Report`]. Nothing is promised in real time: a read may see an older table than the one
//! that another client's call has just left, unless a [`Word`] of it was heard.
#![tactic(auto)]

mod board;
mod book;
mod client;
mod entry;
mod fault;
mod history;
pub mod laws;
mod page;
mod published;
mod publisher;
mod run;
mod task;

pub use board::{Board, open_board};
pub use book::{BoardBrand, BoardName};
pub use client::{Client, Word};
pub use fault::{BeginFault, ShareFault};
pub use run::{Gate, Report, run_all, run_each, run_tasks};
pub use task::Task;
