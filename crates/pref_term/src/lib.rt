//! Preference terms, as in the R package rPref: what they are, when a row is better than another, and the texts that spell them.
//!
//! A row dominates another where it is better and in the same group; the code's word for that is `over`. What an ask says of
//! its rows is a strict partial order ([`Dominance`]).
#![tactic(auto)]

mod ask;
mod built;
mod chain;
mod cursor;
mod dominance;
mod fault;
mod front;
mod key;
mod keys;
pub mod laws;
mod number;
mod read;
mod relation;
mod shown;
mod signature;
mod term;
mod token;
mod walk;

pub use ask::{Ask, Mode};
pub use dominance::Dominance;
pub use fault::{AskFault, TermFault};
pub use read::read_ask;
pub use relation::Relation;
pub use shown::show;
pub use term::{NumberSets, Numbers, Term};
pub use walk::{better, compare, same};

/// What the search for the best rows needs of a question, beside what callers use: its groups, the chains that lead it and the scales by
/// which its rows are signed.
pub mod engine {
    pub use crate::chain::{Chain, Leading};
    pub use crate::keys::in_same_group;
    pub use crate::signature::{Scales, is_within};
}
