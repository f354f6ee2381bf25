//! Why a text is no question, and why parts make none.
ghost use Rattle.std.specs.Prelude.{◌≡◌};
ghost use Rattle.pref_term.specs.declared.fault.TermFault.TheVariants.{OutOfMemory};

use std::alloc::{AllocError, AllocFailed};
use thiserror::Error;

/// Why a text is no question. A place counts the bytes before it, from 0.
#[derive(Clone, Copy, Debug, PartialEq, Eq, Error)]
pub enum TermFault {
    /// No text of the grammar goes on like this; the place is the token's, and the text's length at its end.
    #[error("unexpected at {at}")]
    Unexpected { at: u64 },
    /// A word that is no column's name, where a column must be.
    #[error("unknown column at {at}")]
    UnknownColumn { at: u64 },
    /// A number outside 64 bits; the place is that of its minus sign, where it has one.
    #[error("number range at {at}")]
    NumberRange { at: u64 },
    /// A range that ends before it begins; the place is that of its right end, its minus sign where it has one.
    #[error("empty range at {at}")]
    EmptyRange { at: u64 },
    /// A 65th nesting that would be open; the place is that of its `(` or `-`.
    #[error("too deep at {at}")]
    TooDeep { at: u64 },
    /// More than 4,096 bytes.
    #[error("too long")]
    TooLong,
    /// A count outside 1 to 1000; the place is that of its digits.
    #[error("bad count at {at}")]
    BadCount { at: u64 },
    /// A skyline clause of DIFF columns alone.
    #[error("no min or max")]
    NoMinOrMax,
    /// There was no memory for the ask.
    #[error("out of memory")]
    OutOfMemory,
}

impl From<AllocError> for TermFault {
    ghost from_gives = { λ _ fault. fault ≡ OutOfMemory };

    fn from(_error: AllocError) -> TermFault {
        TermFault::OutOfMemory
    }
}

impl<T: Drop> From<AllocFailed<T>> for TermFault {
    ghost from_gives = { λ _ fault. fault ≡ OutOfMemory };

    fn from(_error: AllocFailed<T>) -> TermFault {
        TermFault::OutOfMemory
    }
}

/// Why parts make no question. A column counts from 0; beside a range or a set it is that of the base term that has it.
#[derive(Clone, Copy, Debug, PartialEq, Eq, Error)]
pub enum AskFault {
    /// A column above 15, in the term or in the group.
    #[error("column {col} is above 15")]
    ColumnRange { col: usize },
    /// A range that ends before it begins.
    #[error("the range of column {col} ends before it begins")]
    EmptyRange { col: usize },
    /// A set without numbers.
    #[error("a set of column {col} is empty")]
    EmptySet { col: usize },
    /// A layered term without sets.
    #[error("the layers of column {col} have no set")]
    NoSets { col: usize },
    /// A count outside 1 to 1000.
    #[error("count {count} is not 1 to 1000")]
    BadCount { count: u32 },
    /// A term that no skyline clause means, where of equal rows one was to be kept.
    #[error("no skyline clause means this term")]
    NotSkyline,
    /// There was no memory for the question.
    #[error("out of memory")]
    OutOfMemory,
}
