//! The best rows of a list under a strict partial order (the skyline, or Pareto front), their levels, partial results that grow
//! block by block, and the answers of asks.
//!
//! An entry is best where no entry dominates it, or is `over` it, as the code says (Börzsönyi, Kossmann, Stocker 2001). Level 1
//! is the best of all entries, level n + 1 the best of what is left without the levels 1 to n (the rPref manual). The levels of a question
//! are found by one sweep over entries in the order of its keys; those of another order, and [`best_rows`], by block-nested-loops, with a
//! window of bounded size. Everything is generic over [`Dominance`](pref_term::Dominance), so any strict
//! partial order of rows serves.
//!
//! ```rust
//! let mut best = BestOf::new(ask);
//! for piece in pieces {
//!     best.add(alloc, piece)?;
//! }
//! let ranked = best.answer(alloc)?;
//! ```
//!
//! [`BestOf`] numbers its rows as they come. It is made of a [`Partial`], which takes entries with ids of the caller's own, and an order
//! that need be no question's.
#![tactic(auto)]

mod answers;
mod best;
mod best_of;
mod entry;
mod grouped;
mod item;
mod lately;
pub mod laws;
mod lead;
mod level;
mod merging;
mod numbering;
mod own_order;
mod partial;
mod passes_levels;
mod ranking;
mod signatures;
mod sorted;
mod sweep;
mod window;

pub use answers::answer;
pub use best::{best_rows, best_rows_passes};
pub use best_of::{AddFault, BestOf};
pub use entry::{Entry, Ranked};
pub use numbering::numbered;
pub use partial::{Partial, levels};
pub use window::{Offer, Window};
