//! Calls and ops that own what they name, and take the room of one change: a commit of several is in a box.

ghost use Rattle.std.specs.Prelude.{◌≡◌};

use crate::call::{Call, LentCall, Outcome, Planned, SlotList};
use crate::event::BoxedCommit;
use pref_table::Row;
use std::marker::Model;

/// The kinds of calls, with rows of their own.
#[derive(Drop)]
enum Boxed {
    Insert(Row),
    Update(u64, Row),
    Delete(u64),
    Commit(BoxedCommit),
    Begin,
    Finish,
    Abandon,
}

/// A [`Call`] whose commit is in a box, so that other calls are no larger for it: it takes 144 bytes, and a call 1,168.
/// Contracts see the call.
pub struct BoxedCall(Boxed);

// By hand, so that letting one go is a call: a derived `drop` is written out, and proved, at each way out of each
// function that owns one.
impl Drop for BoxedCall {
    fn drop(self) {
        let BoxedCall(_) = self;
    }
}

impl Model for BoxedCall {
    ghost use Rattle.pref_core.specs.declared.call.Call.{Call};
    ghost use Rattle.pref_core.specs.Boxed.{call_of};

    ghost Value = { Call };

    ghost view = { λ boxed. call_of boxed.0 };
}

impl BoxedCall {
    /// A new row.
    #[inline(always)]
    pub fn insert(row: Row) -> BoxedCall
        ensures { result ≡ Call.Insert row }
    {
        BoxedCall(Boxed::Insert(row))
    }

    /// The row of this id becomes another.
    #[inline(always)]
    pub fn update(id: u64, row: Row) -> BoxedCall
        ensures { result ≡ Call.Update id row }
    {
        BoxedCall(Boxed::Update(id, row))
    }

    /// The row of this id is deleted.
    #[inline(always)]
    pub fn delete(id: u64) -> BoxedCall
        ensures { result ≡ Call.Delete id }
    {
        BoxedCall(Boxed::Delete(id))
    }

    /// One to eight changes, in one commit. Takes no memory.
    #[inline(always)]
    pub fn commit(commit: BoxedCommit) -> BoxedCall
        ensures { result ≡ Call.Commit commit }
    {
        BoxedCall(Boxed::Commit(commit))
    }

    /// A query begins.
    #[inline(always)]
    pub fn begin() -> BoxedCall
        ensures { result ≡ Call.Begin }
    {
        BoxedCall(Boxed::Begin)
    }

    /// The open query ends with its answer.
    #[inline(always)]
    pub fn finish() -> BoxedCall
        ensures { result ≡ Call.Finish }
    {
        BoxedCall(Boxed::Finish)
    }

    /// The open query ends without one.
    #[inline(always)]
    pub fn abandon() -> BoxedCall
        ensures { result ≡ Call.Abandon }
    {
        BoxedCall(Boxed::Abandon)
    }

    /// This call with its rows lent: none is copied.
    #[inline(always)]
    pub fn lend(&self) -> LentCall<'_>
        ensures { result ≡ self.now }
    {
        match &self.0 {
            Boxed::Insert(row) => LentCall::insert(row),
            Boxed::Update(id, row) => LentCall::update(*id, row),
            Boxed::Delete(id) => LentCall::delete(*id),
            Boxed::Commit(commit) => LentCall::commit(commit.commit()),
            Boxed::Begin => LentCall::begin(),
            Boxed::Finish => LentCall::finish(),
            Boxed::Abandon => LentCall::abandon(),
        }
    }
}

/// An [`Op`](crate::engine::Op) whose call's commit is in a box: it takes 216 bytes, and an op 1,240.
#[derive(Drop)]
pub struct BoxedOp {
    /// Who calls, 1 to 8.
    pub client: u8,
    /// The call's number, one above the client's last.
    pub number: u64,
    /// The call.
    pub call: BoxedCall,
    /// The slots of the versions that begin, in the order of the changes that begin them.
    pub slots: SlotList,
    /// The outcome of the call.
    pub outcome: Outcome,
}

impl BoxedOp {
    ghost use Rattle.pref_core.specs.Planned.{op_of, boxed_op};

    /// The op with this call, which is its own, lent.
    #[inline(always)]
    pub fn planned<'a>(&self, call: &'a LentCall<'a>) -> Planned<'a>
        requires { call.now ≡ self.now.call }
        ensures { op_of result ≡ boxed_op self.now }
    {
        Planned {
            client: self.client,
            number: self.number,
            call,
            slots: self.slots,
            outcome: self.outcome,
        }
    }
}
