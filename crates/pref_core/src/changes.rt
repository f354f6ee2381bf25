//! Changes of rows, and commits of one to eight of them.

ghost use Rattle.std.specs.Prelude.{◌≡◌, ◌<◌, ◌≤◌, ◌++◌, ◌-◌, [], ◌∷◌, ℕ, true, length, take, replicate, slice_index_or, IfSome, IfNone};
ghost use Rattle.std.specs.Option.{option_to_list};
ghost use Rattle.pref_core.specs.Table.{among};
ghost use Rattle.pref_core.specs.LentCalls.{change_of};
ghost use Rattle.pref_core.specs.Changes.{ended_by, begun_by, added_by, begins_any, names_again, twice, commit_of, is_commit};

use crate::fault::CoreFault;
use pref_table::Row;
use std::marker::Model;

/// The most changes of a commit.
const MOST_CHANGES: usize = 8;

/// One change of a commit.
///
/// ```rust
/// let changes = [Change::Add(hotel), Change::Set(2, cheaper), Change::Remove(3)];
/// ```
#[derive(Clone, Copy, Debug, PartialEq, Eq)]
pub enum Change {
    /// A new row, which gets the next id.
    Add(Row),
    /// Another row for this id.
    Set(u64, Row),
    /// The row of this id is removed.
    Remove(u64),
}

impl Change {
    /// This change with its row lent.
    #[inline(always)]
    pub(crate) fn lend(&self) -> LentChange<'_>
        ensures { change_of result ≡ self.now }
    {
        match self {
            Change::Add(row) => LentChange::Add(row),
            Change::Set(id, row) => LentChange::Set(*id, row),
            Change::Remove(id) => LentChange::Remove(*id),
        }
    }

    /// Whether it begins a row.
    fn begins(&self) -> bool
        ensures { result ≡ begins_any (self.now ∷ []) }
    {
        matches!(*self, Change::Add(_) | Change::Set(_, _))
    }
}

/// A [`Change`] whose row is lent: it takes 24 bytes, and a change 144.
#[derive(Clone, Copy)]
pub(crate) enum LentChange<'a> {
    Add(&'a Row),
    Set(u64, &'a Row),
    Remove(u64),
}

impl<'a> LentChange<'a> {
    /// The id of the row that it ends.
    #[inline(always)]
    pub(crate) fn ended(&self) -> Option<u64>
        ensures { option_to_list result ≡ ended_by (change_of self.now ∷ []) }
    {
        match *self {
            LentChange::Add(_) => None,
            LentChange::Set(id, _) | LentChange::Remove(id) => Some(id),
        }
    }

    /// The id and the row that it begins, by the next id.
    #[inline(always)]
    pub(crate) fn begun(&self, next_id: u64) -> Option<(u64, &'a Row)>
        ensures some { IfSome result (λ returned. begun_by next_id (change_of self.now ∷ []) ≡ record { id = returned.0; row = returned.1.now } ∷ []) }
        ensures none { IfNone result (begun_by next_id (change_of self.now ∷ []) ≡ []) }
    {
        match *self {
            LentChange::Add(row) => Some((next_id, row)),
            LentChange::Set(id, row) => Some((id, row)),
            LentChange::Remove(_) => None,
        }
    }

    /// How many rows it adds.
    #[inline(always)]
    pub(crate) fn added(&self) -> u64
        ensures { result ≡ added_by (change_of self.now ∷ []) }
    {
        match *self {
            LentChange::Add(_) => 1,
            LentChange::Set(_, _) | LentChange::Remove(_) => 0,
        }
    }
}

/// One to eight changes, of which no two name one id: all of them are done at one moment, or none is. Contracts see
/// their list.
#[derive(Clone, Copy, Debug, PartialEq, Eq)]
pub struct Commit {
    changes: [Change; MOST_CHANGES],
    count: usize,
}

impl Model for Commit {
    ghost use Rattle.std.specs.Prelude.{List, take, length, ◌-◌, ◌++◌, replicate};
    ghost use Rattle.pref_core.specs.declared.changes.Change.{Change};
    ghost use Rattle.pref_core.specs.declared.changes.Change.TheVariants.{Remove};
    ghost use Rattle.pref_core.specs.PaddedArrays.{IsFilled};

    ghost Value = { List Change };

    ghost view = { λ c. take c.count c.changes };

    ghost invariant = { λ c. IsFilled c.changes c.count };

    ghost inverse = { λ list. record { changes = list ++ replicate (8 - length list) (Remove 0); count = length list } };

    ghost inverse_ok = { λ a h i. record { changes = h.blank i; count = h.counted i } };
}

impl Commit {
    /// The commit of these changes. Takes no memory.
    ///
    /// Refused `ChangeCount` for none or more than eight, then `Twice` for the first change that names an id which an
    /// earlier one names.
    ///
    /// ```rust
    /// let commit = Commit::of(&[Change::Set(1, hotel), Change::Remove(2)])?;
    /// ```
    pub fn of(changes: &[Change]) -> Result<Commit, CoreFault>
        ensures { result ≡ commit_of changes.now }
    {
        if changes.is_empty() || changes.len() > MOST_CHANGES {
            return Err(CoreFault::ChangeCount);
        }
        if let Some(place) = twice(changes) {
            return Err(CoreFault::Twice { place });
        }
        Ok(Commit {
            changes: array_of(changes),
            count: changes.len(),
        })
    }

    /// The changes, in their order.
    pub fn as_slice(&self) -> &[Change]
        ensures same { result.now ≡ self.now }
        ensures commit { is_commit self.now ≡ true }
    {
        &self.changes[..self.count]
    }
}

/// Whether one of the changes names the id.
#[tactic(auto, using(std::proofs::lemmas::Grind::common_steps))]
fn is_named(changes: &[Change], id: u64) -> bool
    ensures { result ≡ among (ended_by changes.now) id }
{
    for change in changes {
        if change.lend().ended() == Some(id) {
            return true;
        }
    }
    false
}

/// Whether the change at this place names an id that one before it names.
fn is_named_before(changes: &[Change], at: usize) -> bool
    requires { at < length changes.now }
    ensures { (d : Change) → result ≡ names_again (take at changes.now) (slice_index_or changes.now at d) }
{
    match changes[at].lend().ended() {
        Some(id) => is_named(&changes[..at], id),
        None => false,
    }
}

/// The place, from 1 on, of the first change that names an id which an earlier one names.
fn twice(changes: &[Change]) -> Option<u64>
    requires { length changes.now ≤ 8 }
    ensures { result ≡ twice changes.now }
{
    for at in 0..changes.len() {
        if is_named_before(changes, at) {
            return Some(at as u64 + 1);
        }
    }
    None
}

/// How many rows the changes begin.
#[tactic(auto, using(std::proofs::lemmas::Grind::common_steps, crate::proofs::ChangesLaws::drop_item, crate::proofs::ChangesLaws::one_begins))]
pub(crate) fn begun_by(changes: &[Change]) -> usize
    ensures { (next_id : ℕ) → result ≡ length (begun_by next_id changes.now) }
{
    let mut begun = 0;
    for change in changes {
        if change.begins() {
            begun += 1;
        }
    }
    begun
}

/// How many rows the changes add.
#[tactic(auto, using(std::proofs::lemmas::Grind::common_steps))]
pub(crate) fn added_by(changes: &[Change]) -> u64
    requires { length changes.now ≤ 8 }
    ensures { result ≡ added_by changes.now }
{
    let mut added = 0;
    for change in changes {
        added += change.lend().added();
    }
    added
}

/// The changes with removes of no row behind them.
fn array_of(changes: &[Change]) -> [Change; MOST_CHANGES]
    requires { length changes.now ≤ 8 }
    ensures { result ≡ changes.now ++ replicate (8 - length changes.now) (Change.Remove 0) }
{
    let mut all = [Change::Remove(0); MOST_CHANGES];
    all[..changes.len()].copy_from_slice(changes);
    all
}
