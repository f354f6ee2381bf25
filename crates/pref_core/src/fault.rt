//! Why an act is refused.

ghost use Rattle.std.specs.Prelude.{◌≡◌};
ghost use Rattle.pref_core.specs.declared.fault.CoreFault.TheVariants.{OutOfMemory};

use std::alloc::AllocError;
use thiserror::Error;

/// A refusal. Those of an act are tested in this order, up to `OutOfMemory`.
///
/// The first six change nothing, and the act is not counted among the client's calls. A change that is
/// refused `NoSuchRow` or `Full` is counted and changes no row. After `OutOfMemory` nothing has changed.
/// `ChangeCount` and then `Twice` are [`Commit::of`](crate::Commit::of)'s, and no other call's.
#[derive(Clone, Copy, Debug, PartialEq, Eq, Error)]
pub enum CoreFault {
    /// The client's number is 0, or above the number of clients.
    #[error("no such client")]
    NoSuchClient,
    /// The client has made 2^56 numbered calls, and has no more.
    #[error("spent")]
    Spent,
    /// A query begins while the client's last one is open.
    #[error("query open")]
    QueryOpen,
    /// A query is scanned, finished or abandoned, and none is open.
    #[error("no query")]
    NoQuery,
    /// A query is scanned that has no block left.
    #[error("all scanned")]
    AllScanned,
    /// A query is finished that has blocks left.
    #[error("not done left {left}")]
    NotDone {
        /// How many blocks it has not scanned.
        left: u64,
    },
    /// The row is not in the table.
    #[error("no such row {id}")]
    NoSuchRow {
        /// The id that was asked for.
        id: u64,
    },
    /// More versions would be needed than there are slots.
    #[error("full needed {needed}")]
    Full {
        /// How many would be needed.
        needed: u64,
    },
    /// An allocation was refused.
    #[error("out of memory")]
    OutOfMemory,
    /// A change names an id that an earlier change of its commit names.
    #[error("twice place {place}")]
    Twice {
        /// The change's place among all changes, from 1 on.
        place: u64,
    },
    /// A commit would have no change, or more than eight.
    #[error("change count")]
    ChangeCount,
}

impl From<AllocError> for CoreFault {
    ghost from_gives = { λ _ fault. fault ≡ OutOfMemory };

    fn from(_error: AllocError) -> CoreFault {
        CoreFault::OutOfMemory
    }
}
