//! Runs whose replies are known from outside, and what their tests share: the acts of the clients, and the texts of the replies.
//!
//! The tests of pref_core, pref_share and pref_script read the same runs: by a machine, by the clients of a board, and as scripts.
//! Only crates of tests may end the process, so what compares replies is in those.
#![tactic(auto)]

mod acts;
mod commits;
mod run;
mod single_changes;
mod texts;

pub use acts::{
    Changes, Does, act, act_of, begin_act, change, changes_of, columns, commit_act, row, row_of,
    rows_of, setup_of,
};
pub use commits::runs_of_commits;
pub use run::{Run, Turn, event_of, events_of};
pub use single_changes::{
    A_DELETED_ROW_IS_STILL_ANSWERED, A_ROW_IS_UPDATED, AN_OPEN_QUERY_KEEPS_ITS_VERSION,
    REFUSED_CALLS_HAVE_NOT_JOINED, runs_of_single_changes,
};
pub use texts::{answer_text, refused_text, reply_text};
