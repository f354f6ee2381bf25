//! Why a call of a client is refused.

ghost use Rattle.std.specs.Prelude.{◌≡◌};
ghost use Rattle.pref_core.specs.declared.fault.CoreFault.TheVariants.{OutOfMemory};
ghost use Rattle.pref_share.specs.declared.fault.ShareFault.TheVariants.{Core};

use pref_core::CoreFault;
use pref_term::Ask;
use std::alloc::AllocError;
use thiserror::Error;

/// A refusal. Those of the table are tested in their order; `Spent`, `QueryOpen`, `NoQuery`, `AllScanned` and `NotDone`
/// before the others of this type.
///
/// After `OutOfMemory` and `Closed` the client's counter and its query are as they were, and the call can be made again.
///
/// ```rust
/// let row = match client.get(id) {
///     Ok(row) => Some(row),
///     Err(ShareFault::Core(CoreFault::NoSuchRow { .. })) => None,
///     Err(fault) => return Err(fault.into()),
/// };
/// ```
#[derive(Clone, Copy, Debug, PartialEq, Eq, Error)]
pub enum ShareFault {
    /// The table's refusal.
    #[error("{0}")]
    Core(CoreFault),
    /// The history holds a call of this client that it has not made. No call returns it: a call joins the history by its client alone.
    #[error("client in use at {number}")]
    ClientInUse {
        /// The number of that call.
        number: u64,
    },
    /// The gate answered false to this client, before an act.
    #[error("held client {client}")]
    Held {
        /// The client's number.
        client: u8,
    },
    /// The published table gives no reader, or does not let one in: the board is closed. Also where what is published is older than
    /// what the client has seen, and where the book of the name under which a board is opened has been begun already; no run is known
    /// to meet these two.
    #[error("closed")]
    Closed,
}

impl From<CoreFault> for ShareFault {
    ghost from_gives = { λ fault share. share ≡ Core fault };

    fn from(fault: CoreFault) -> ShareFault {
        ShareFault::Core(fault)
    }
}

impl From<AllocError> for ShareFault {
    ghost from_gives = { λ _ share. share ≡ Core OutOfMemory };

    fn from(_error: AllocError) -> ShareFault {
        ShareFault::Core(CoreFault::OutOfMemory)
    }
}

/// A refused begin, which hands its ask back.
///
/// Its text is that of its fault. `?` takes it as an error, and turns it into its [`ShareFault`] where a function returns that.
///
/// ```rust
/// let blocks = client.begin(rt, alloc, board, ask)?;     // 4
/// ```
#[derive(Drop, Error)]
#[derive_where(Debug)]
#[error("{fault}")]
pub struct BeginFault {
    /// Why it is refused.
    pub fault: ShareFault,
    /// The ask, as it was.
    #[derive_where(skip(Debug))]
    pub ask: Ask,
}

impl From<BeginFault> for ShareFault {
    ghost from_gives = { λ refused fault. fault ≡ refused.fault };

    fn from(refused: BeginFault) -> ShareFault {
        refused.fault
    }
}
