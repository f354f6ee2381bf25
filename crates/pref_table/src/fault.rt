//! Why a table text, a schema or a row is refused.
ghost use Rattle.std.specs.Prelude.{◌≡◌};
ghost use Rattle.pref_table.specs.declared.fault.TableFault.TheVariants.{OutOfMemory};

use std::alloc::{AllocError, AllocFailed};
use thiserror::Error;

/// Why a table text, a schema or a row is refused. Nothing is kept after a refusal.
///
/// Columns and rows count from 1, and the header isn't counted. A row that was read by itself is row 0.
/// The message of each fault is its text in the program's output.
#[derive(Clone, Copy, Debug, PartialEq, Eq, Error)]
pub enum TableFault {
    /// There is no name, or the text has no record.
    #[error("no columns")]
    NoColumns,
    /// There are more than 16 names.
    #[error("too many columns")]
    TooManyColumns,
    /// The name in this column is no name: a letter and up to 31 further letters, digits, `_` or `.`.
    #[error("bad name col {col}")]
    BadName { col: u64 },
    /// An earlier column has this name.
    #[error("same name col {col}")]
    SameName { col: u64 },
    /// The row has more or fewer fields than the schema has names.
    #[error("width row {row}")]
    Width { row: u64 },
    /// The field is no whole number.
    #[error("not whole row {row} col {col}")]
    NotWhole { row: u64, col: u64 },
    /// The number is outside -2^63 to 2^63 - 1.
    #[error("out of range row {row} col {col}")]
    OutOfRange { row: u64, col: u64 },
    /// There are more than 65,536 rows.
    #[error("too many rows")]
    TooManyRows,
    /// Memory was refused.
    #[error("out of memory")]
    OutOfMemory,
}

impl From<AllocError> for TableFault {
    ghost from_gives = { λ _ fault. fault ≡ OutOfMemory };

    fn from(_error: AllocError) -> TableFault {
        TableFault::OutOfMemory
    }
}

impl<T: Drop> From<AllocFailed<T>> for TableFault {
    ghost from_gives = { λ _ fault. fault ≡ OutOfMemory };

    fn from(_error: AllocFailed<T>) -> TableFault {
        TableFault::OutOfMemory
    }
}
