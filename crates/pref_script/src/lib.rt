//! Scripts of a preference table, from the bytes of their lines to the bytes of their replies.
//!
//! [`run_script`] reads a whole script and then writes all replies; [`run_live`] replies to each line as it comes;
//! [`LiveTable`] is given its lines one by one; [`run_script_on_threads`] runs each client's lines on a thread of its own. Each says in its contract which bytes it writes: those of
//! the sequential table, line by line, or of a joint run of the clients. A run that ends early has a [`RunFault`]. [`read_input`] and
//! [`write_output`] are the first and the last step of a run, for programs that do something else in between.
#![tactic(auto)]

mod command;
mod commits;
mod fault;
mod forms;
mod input;
mod live;
mod live_table;
mod output;
mod parts;
mod pieces;
mod playing;
mod read_ahead;
mod run;
mod script;
mod text;
mod threads;
mod unowned;
mod watched;
mod words;

pub use fault::RunFault;
pub use input::read_input;
pub use live::run_live;
pub use live_table::LiveTable;
pub use output::{fault_line, write_output};
pub use run::run_script;
pub use threads::{OpenGate, run_script_on_threads, run_threads};
pub use watched::Watched;

/// How lines are cut and refusals are printed, for who does so outside a script.
pub mod engine {
    pub use crate::script::{cut_line, line_text};
    pub use crate::text::{push_core_fault, push_table_fault, push_term_fault};
}
