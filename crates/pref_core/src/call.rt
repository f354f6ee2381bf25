//! Numbered calls, what becomes of them, and the ops that they are planned as.
//!
//! Each client counts its calls of these kinds from 1 on, so that histories of many clients can be
//! compared call by call. A call that is refused before its outcome is planned has no number.

pub(crate) mod boxed;
mod lent;
mod planned;
pub(crate) mod slot_list;

ghost use Rattle.std.specs.Prelude.{◌≡◌, is_some};

use crate::changes::Commit;
use crate::fault::CoreFault;
pub use lent::LentCall;
pub use planned::Planned;
use pref_table::Row;
pub use slot_list::SlotList;

/// A call that is numbered.
#[derive(Clone, Copy, Debug, PartialEq, Eq)]
pub enum Call {
    /// A new row, which gets the next id.
    Insert(Row),
    /// The row of this id becomes another.
    Update(u64, Row),
    /// The row of this id is deleted.
    Delete(u64),
    /// One to eight changes, in one commit.
    Commit(Commit),
    /// A query begins. What it asks is the client's own affair.
    Begin,
    /// The open query ends with its answer.
    Finish,
    /// The open query ends without one.
    Abandon,
}

impl Call {
    /// This call with its rows lent: none is copied.
    pub fn lend(&self) -> LentCall<'_>
        ensures { result ≡ self.now }
    {
        match self {
            Call::Insert(row) => LentCall::insert(row),
            Call::Update(id, row) => LentCall::update(*id, row),
            Call::Delete(id) => LentCall::delete(*id),
            Call::Commit(commit) => LentCall::commit(commit),
            Call::Begin => LentCall::begin(),
            Call::Finish => LentCall::finish(),
            Call::Abandon => LentCall::abandon(),
        }
    }
}

/// Whether a client has a query open.
#[derive(Clone, Copy, Debug, PartialEq, Eq)]
pub enum QueryState {
    /// It has begun one, which has neither finished nor been abandoned.
    Open,
    /// It has none.
    NotOpen,
}

impl QueryState {
    ghost use Rattle.pref_core.specs.State.{is_open};

    /// `Open` where a client keeps an open query here, else `NotOpen`.
    pub fn of<Q>(kept: &Option<Q>) -> QueryState
        ensures { is_open result ≡ is_some kept.now }
    {
        match kept {
            Some(_) => QueryState::Open,
            None => QueryState::NotOpen,
        }
    }
}

/// The outcome of a numbered call.
#[derive(Clone, Copy, Debug, PartialEq, Eq)]
pub enum Outcome {
    /// Rows were added, the first of them with this id.
    Added(u64),
    /// The call did what it asked.
    Done,
    /// The table has no row of this id. The call is counted, and no row has changed.
    NoSuchRow(u64),
    /// There are fewer slots than the versions that would be needed, which are this many. The call is counted, and no
    /// row has changed.
    Full(u64),
}

impl Outcome {
    ghost use Rattle.pref_core.specs.State.{succeeds, refusal_by_outcome};

    /// Whether the call did what it asked.
    pub(crate) fn succeeds(&self) -> bool
        ensures { result ≡ succeeds self.now }
    {
        matches!(*self, Outcome::Added(_) | Outcome::Done)
    }

    /// The refusal that the call meets, where it did not do what it asked; `None` where it did.
    pub fn refusal(&self) -> Option<CoreFault>
        ensures { result ≡ refusal_by_outcome self.now }
    {
        match *self {
            Outcome::NoSuchRow(id) => Some(CoreFault::NoSuchRow { id }),
            Outcome::Full(needed) => Some(CoreFault::Full { needed }),
            Outcome::Added(_) | Outcome::Done => None,
        }
    }
}

/// A planned call: what is done to a store when it is applied.
///
/// It carries all that applying needs, so that every copy of a store that applies the same operations
/// in the same order becomes the same store.
#[derive(Clone, Copy, Debug, PartialEq, Eq)]
pub struct Op {
    /// Who calls, 1 to 8.
    pub client: u8,
    /// The call's number, one above the client's last.
    pub number: u64,
    /// The call.
    pub call: Call,
    /// The slots of the versions that begin, in the order of the changes that begin them.
    pub slots: SlotList,
    /// The outcome of the call.
    pub outcome: Outcome,
}

impl Op {
    ghost use Rattle.pref_core.specs.Planned.{op_of};

    /// The op with this call, which is its own, lent.
    pub fn planned<'a>(&self, call: &'a LentCall<'a>) -> Planned<'a>
        requires { call.now ≡ self.now.call }
        ensures { op_of result ≡ self.now }
    {
        Planned {
            client: self.client,
            number: self.number,
            call,
            slots: self.slots,
            outcome: self.outcome,
        }
    }
}
