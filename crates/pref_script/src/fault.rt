//! Why a run ends with no reply to its script.
ghost use Rattle.std.specs.Prelude.{◌≡◌};
ghost use Rattle.pref_script.specs.Reading.{core_fault, share_fault, table_fault};
ghost use Rattle.pref_script.specs.declared.fault.RunFault.TheVariants.{Memory};

use pref_core::CoreFault;
use pref_share::ShareFault;
use pref_table::TableFault;
use std::alloc::{AllocError, AllocFailed};
use thiserror::Error;

/// Why a run of a script ended early. [`RunFault::status`] is the program's exit status.
#[derive(Clone, Copy, Debug, PartialEq, Eq, Error)]
pub enum RunFault {
    /// The reader failed.
    #[error("read")]
    Read,
    /// The writer failed, or took no byte. A beginning of the output was written.
    #[error("write")]
    Write,
    /// The input has more than 16,777,216 bytes; of a run that replies to each line as it comes, its table block or a line, or it has 2^63 lines.
    #[error("too large")]
    TooLarge,
    /// There was no memory.
    #[error("memory")]
    Memory,
    /// The script's first line is not `table`.
    #[error("no table")]
    NoTable,
    /// No line of the script is `end`.
    #[error("no end")]
    NoEnd,
    /// The table text is refused.
    #[error("table: {0}")]
    Table(TableFault),
    /// The engine refuses the opening rows.
    #[error("opening: {0}")]
    Opening(CoreFault),
    /// The clients on threads were stopped: by the gate, which in the program is always open, or by a closed board.
    /// Nothing was written.
    #[error("threads: {0}")]
    Threads(ShareFault),
}

impl From<AllocError> for RunFault {
    ghost from_gives = { λ _ fault. fault ≡ Memory };

    fn from(_error: AllocError) -> RunFault {
        RunFault::Memory
    }
}

impl<T: Drop> From<AllocFailed<T>> for RunFault {
    ghost from_gives = { λ _ fault. fault ≡ Memory };

    fn from(_error: AllocFailed<T>) -> RunFault {
        RunFault::Memory
    }
}

/// A table's fault as one of the run.
impl From<TableFault> for RunFault {
    ghost from_gives = { λ why fault. fault ≡ table_fault why };

    fn from(why: TableFault) -> RunFault {
        match why {
            TableFault::OutOfMemory => RunFault::Memory,
            _ => RunFault::Table(why),
        }
    }
}

/// The engine's refusal of a script as a fault of the run.
impl From<CoreFault> for RunFault {
    ghost from_gives = { λ why fault. fault ≡ core_fault why };

    fn from(why: CoreFault) -> RunFault {
        match why {
            CoreFault::OutOfMemory => RunFault::Memory,
            _ => RunFault::Opening(why),
        }
    }
}

/// The fault that stopped the clients, as a fault of the run.
impl From<ShareFault> for RunFault {
    ghost from_gives = { λ why fault. fault ≡ share_fault why };

    fn from(why: ShareFault) -> RunFault {
        match why {
            ShareFault::Core(why) => RunFault::from(why),
            _ => RunFault::Threads(why),
        }
    }
}

impl RunFault {
    ghost use Rattle.std.specs.Prelude.{◌≡◌};
    ghost use Rattle.pref_script.specs.Status.{status_of};

    /// The program's exit status: 1 where the run itself failed, 2 where its input is at fault.
    pub fn status(&self) -> u8
        ensures { result ≡ status_of self.now }
    {
        match self {
            RunFault::Read
            | RunFault::Write
            | RunFault::TooLarge
            | RunFault::Memory
            | RunFault::Threads(_) => 1,
            RunFault::NoTable | RunFault::NoEnd | RunFault::Table(_) | RunFault::Opening(_) => 2,
        }
    }
}
