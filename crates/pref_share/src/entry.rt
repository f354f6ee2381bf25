//! The entries of a board's book.

use pref_core::engine::Op;

/// An entry of a page. No value of it is made.
pub struct Entry {
    /// The page: 0 is that of the history, and each client's number is that of the calls that it makes.
    pub page: u64,
    /// The key of the pen that may write the next entry of this page.
    pub key: u64,
    /// The operation that it notes. The first entry of a page notes none.
    pub op: Option<Op>,
}
