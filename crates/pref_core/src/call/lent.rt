//! Calls whose rows are lent, and what a call asks of a store.

ghost use Rattle.std.specs.Prelude.{◌≡◌, [], ◌∷◌, ◌<◌, ◌≤◌, ℕ, Some, IfSome, true, length, slice_get};

use crate::call::{Call, QueryState};
use crate::changes::{Commit, LentChange, added_by, begun_by};
use crate::fault::CoreFault;
use pref_table::Row;
use std::marker::Model;

/// The most numbered calls of a client.
const MOST_CALLS: u64 = 1 << 56;

/// The kinds of calls, with their rows lent.
#[derive(Clone, Copy)]
pub(crate) enum Lent<'a> {
    Insert(&'a Row),
    Update(u64, &'a Row),
    Delete(u64),
    Commit(&'a Commit),
    Begin,
    Finish,
    Abandon,
}

/// A [`Call`] whose rows are lent: it takes 24 bytes, and a call 1,168, since it has room for a commit of eight rows.
/// Contracts see the call.
#[derive(Drop)]
pub struct LentCall<'a>(Lent<'a>);

impl<'a> Model for LentCall<'a> {
    ghost use Rattle.pref_core.specs.declared.call.Call.{Call};
    ghost use Rattle.pref_core.specs.LentCalls.{call_of};

    ghost Value = { Call };

    ghost view = { λ lent. call_of lent.0 };
}

impl<'a> LentCall<'a> {
    ghost use Rattle.pref_core.specs.LentCalls.{change_of};
    ghost use Rattle.pref_core.specs.Operations.{begin_after};
    ghost use Rattle.pref_core.specs.Stability.{is_end};
    ghost use Rattle.pref_core.specs.State.{refusal_of, is_open, changes_of, begun, added, is_change, is_formed};

    /// A new row.
    #[inline(always)]
    pub fn insert(row: &'a Row) -> LentCall<'a>
        ensures { result ≡ Call.Insert row.now }
    {
        LentCall(Lent::Insert(row))
    }

    /// The row of this id becomes another.
    #[inline(always)]
    pub fn update(id: u64, row: &'a Row) -> LentCall<'a>
        ensures { result ≡ Call.Update id row.now }
    {
        LentCall(Lent::Update(id, row))
    }

    /// The row of this id is deleted.
    #[inline(always)]
    pub fn delete(id: u64) -> LentCall<'a>
        ensures { result ≡ Call.Delete id }
    {
        LentCall(Lent::Delete(id))
    }

    /// One to eight changes, in one commit.
    #[inline(always)]
    pub fn commit(commit: &'a Commit) -> LentCall<'a>
        ensures { result ≡ Call.Commit commit.now }
    {
        LentCall(Lent::Commit(commit))
    }

    /// A query begins.
    #[inline(always)]
    pub fn begin() -> LentCall<'a>
        ensures { result ≡ Call.Begin }
    {
        LentCall(Lent::Begin)
    }

    /// The open query ends with its answer.
    #[inline(always)]
    pub fn finish() -> LentCall<'a>
        ensures { result ≡ Call.Finish }
    {
        LentCall(Lent::Finish)
    }

    /// The open query ends without one.
    #[inline(always)]
    pub fn abandon() -> LentCall<'a>
        ensures { result ≡ Call.Abandon }
    {
        LentCall(Lent::Abandon)
    }

    /// Why the call gets no number, by how many numbered calls its client has made and whether that client has a query
    /// open; `None` where it gets one.
    ///
    /// `Spent` where the client has made all that it may; else `QueryOpen` for a begin beside an open query, and
    /// `NoQuery` for the end of a query where none is open. This is the one rule of refusal: a machine and each client
    /// of a board ask it.
    pub fn refusal(&self, calls: u64, query: QueryState) -> Option<CoreFault>
        ensures { result ≡ refusal_of (Some calls) (is_open query) self.now }
    {
        if calls >= MOST_CALLS {
            return Some(CoreFault::Spent);
        }
        match (&self.0, query) {
            (Lent::Begin, QueryState::Open) => Some(CoreFault::QueryOpen),
            (Lent::Finish | Lent::Abandon, QueryState::NotOpen) => Some(CoreFault::NoQuery),
            _ => None,
        }
    }

    /// How many changes the call makes: at most eight, and on different ids.
    pub(crate) fn count(&self) -> usize
        ensures count { result ≡ length (changes_of self.now) }
        ensures few { length (changes_of self.now) ≤ 8 }
        ensures formed { is_formed self.now ≡ true }
    {
        match self.0 {
            Lent::Insert(_) | Lent::Update(_, _) | Lent::Delete(_) => 1,
            Lent::Commit(commit) => commit.as_slice().len(),
            Lent::Begin | Lent::Finish | Lent::Abandon => 0,
        }
    }

    /// The call with rows of its own. Copies what is lent: for a single change no more than its row.
    pub(crate) fn call(&self) -> Call
        ensures { result ≡ self.now }
    {
        match self.0 {
            Lent::Insert(row) => Call::Insert(*row),
            Lent::Update(id, row) => Call::Update(id, *row),
            Lent::Delete(id) => Call::Delete(id),
            Lent::Commit(commit) => Call::Commit(*commit),
            Lent::Begin => Call::Begin,
            Lent::Finish => Call::Finish,
            Lent::Abandon => Call::Abandon,
        }
    }

    /// The change of a call that is one change, and no commit of it.
    #[inline(always)]
    pub(crate) fn lone(&self) -> Option<LentChange<'a>>
        ensures change { IfSome result (λ change. changes_of self.now ≡ change_of change ∷ []) }
        ensures succeeds { IfSome result (λ change. is_change self.now ≡ true) }
        ensures formed { IfSome result (λ change. is_formed self.now ≡ true) }
    {
        match self.0 {
            Lent::Insert(row) => Some(LentChange::Add(row)),
            Lent::Update(id, row) => Some(LentChange::Set(id, row)),
            Lent::Delete(id) => Some(LentChange::Remove(id)),
            Lent::Commit(_) | Lent::Begin | Lent::Finish | Lent::Abandon => None,
        }
    }

    /// The change at this place, from 0 on.
    #[inline(always)]
    pub(crate) fn change(&self, at: usize) -> LentChange<'a>
        requires { at < length (changes_of self.now) }
        ensures { slice_get (changes_of self.now) at ≡ Some (change_of result) }
    {
        match self.0 {
            Lent::Insert(row) => LentChange::Add(row),
            Lent::Update(id, row) => LentChange::Set(id, row),
            Lent::Delete(id) => LentChange::Remove(id),
            Lent::Commit(commit) => commit.as_slice()[at].lend(),
            Lent::Begin | Lent::Finish | Lent::Abandon => unreachable!(),
        }
    }

    /// How many rows the call begins.
    pub(crate) fn begun(&self) -> usize
        ensures count { (next_id : ℕ) → result ≡ length (begun next_id self.now) }
        ensures few { result ≤ 8 }
    {
        match self.0 {
            Lent::Insert(_) | Lent::Update(_, _) => 1,
            Lent::Commit(commit) => begun_by(commit.as_slice()),
            Lent::Delete(_) | Lent::Begin | Lent::Finish | Lent::Abandon => 0,
        }
    }

    /// How many ids the call uses up.
    pub(crate) fn added(&self) -> u64
        ensures { result ≡ added self.now }
    {
        match self.0 {
            Lent::Insert(_) => 1,
            Lent::Commit(commit) => added_by(commit.as_slice()),
            Lent::Update(_, _) | Lent::Delete(_) | Lent::Begin | Lent::Finish | Lent::Abandon => 0,
        }
    }

    /// Whether the call ends its client's open query.
    pub(crate) fn ends_query(&self) -> bool
        ensures { result ≡ is_end self.now }
    {
        matches!(self.0, Lent::Finish | Lent::Abandon)
    }

    /// The stamp at the begin of its client's open query after the call, by the stamp then and that of the query
    /// before.
    pub(crate) fn begun_after(&self, stamp: u64, begun: Option<u64>) -> Option<u64>
        ensures { result ≡ begin_after stamp self.now begun }
    {
        match self.0 {
            Lent::Begin => Some(stamp),
            Lent::Finish | Lent::Abandon => None,
            _ => begun,
        }
    }

    /// Whether the call is a commit where it succeeds.
    pub(crate) fn is_change(&self) -> bool
        ensures { result ≡ is_change self.now }
    {
        !matches!(self.0, Lent::Begin | Lent::Finish | Lent::Abandon)
    }
}
