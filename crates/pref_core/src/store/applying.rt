//! A legal op, done.
//!
//! ```text
//!                             slots                links             places
//! what it says                the versions         id -> place       what each place is used for
//!
//! a row ends                  its version ends     out of its chain  live -> kept for a query, or free
//! a row begins                a version is put     into its chain    free -> live
//! a row is set where it is    a version is put     -                 -
//! a query ends                -                    -                 kept -> kept for another, or free
//! ```
//!
//! A commit first ends all rows that it is to end, and then begins others, so that one change may use the place that
//! another leaves. All takes constant time, but that a query's end goes over the places that were kept for it alone.

ghost use Rattle.std.specs.Prelude.{map, true, false, is_some, [], ◌∷◌, Some, None, slice_set, IfSome, ◌≡◌, ◌+◌, ◌^◌, ◌<◌};
ghost use Rattle.pref_core.specs.Changes.{ended_by, begun_by};
ghost use Rattle.pref_core.specs.Indexes.{row_at};
ghost use Rattle.pref_core.specs.LentCalls.{change_of};
ghost use Rattle.pref_core.specs.ContentsInvariant.{IsKept, AreFresh, KeepSlots, replaced, with_slots};
ghost use Rattle.pref_core.specs.Operations.{close, is_free, filled, is_next, refusal_at, slots_after, stepped, callers_after};
ghost use Rattle.pref_core.specs.Planned.{op_of};
ghost use Rattle.pref_core.specs.Slots.{stamps, new_version, visible};
ghost use Rattle.pref_core.specs.State.{ended, begun, added, changes_of, is_change, succeeds};
ghost use Rattle.pref_core.specs.Table.{has};
ghost use Rattle.pref_core.specs.declared.changes.Change.{Change};

use crate::call::{LentCall, Planned};
use crate::changes::LentChange;
use crate::store::caller::count;
use crate::store::contents::Contents;
use crate::store::needs::use_of;
use crate::store::slot_sets::SlotUse;
use pref_sky::Entry;
use pref_table::Row;

impl Contents {
    /// A legal op, done.
    #[inline(always)]
    pub(crate) fn step(&mut self, op: &Planned<'_>)
        requires kept { IsKept self.old }
        requires next { is_next self.old (op_of op.now) ≡ true }
        requires fits { is_some (slots_after self.old (op_of op.now)) ≡ true }
        ensures slots { slots_after self.old (op_of op.now) ≡ Some self.new.slots }
        ensures rest { self.new ≡ stepped self.old (op_of op.now) self.new.slots }
    {
        if op.call.is_change() && op.outcome.succeeds() {
            self.commit(op);
        }
        self.count(op.client, op.call);
    }

    /// A commit: where it only sets rows, and these stay in their slots, they are replaced there; else all rows end
    /// that are to end, and then others begin in the slots that are free.
    #[inline(always)]
    fn commit(&mut self, op: &Planned<'_>)
        requires kept { IsKept self.old }
        requires next { is_next self.old (op_of op.now) ≡ true }
        requires fits { is_some (slots_after self.old (op_of op.now)) ≡ true }
        requires change { is_change op.now.call.now ≡ true }
        requires succeeds { succeeds op.now.outcome ≡ true }
        ensures slots { slots_after self.old (op_of op.now) ≡ Some self.new.slots }
        ensures rest { self.new ≡ record { slots = self.new.slots; stamp = self.old.stamp + 1; next_id = self.old.next_id + added op.now.call.now; callers = self.old.callers } }
    {
        let first = self.next_id;
        self.slots.advance();
        self.next_id += op.call.added();
        let slots = op.slots.as_slice();
        match (self.kept_slot(op), op.call.lone()) {
            (Some((id, row, place)), _) => self.replace(id, row, place),
            (None, Some(change)) => {
                self.end_one(change);
                self.begin_lone(first, change, slots);
            }
            (None, None) if self.keeps_slots(op) => self.replace_rows(op),
            (None, None) => {
                self.end_rows(op.call);
                self.begin_rows(first, op.call, slots);
            }
        }
    }

    /// The id and the row of an update, and the slot of its row, where it stays there.
    #[inline(always)]
    fn kept_slot<'b>(&self, op: &Planned<'b>) -> Option<(u64, &'b Row, u32)>
        ensures { IfSome result (λ kept. (changes_of op.now.call.now ≡ Change.Set kept.0 kept.1.now ∷ []) × (op.now.slots ≡ kept.2 ∷ []) × (row_at self.now.stamp kept.0 self.now.slots kept.2 ≡ true)) }
    {
        match (op.call.lone()?, op.slots.as_slice()) {
            (LentChange::Set(id, row), [place]) if self.slots.stands_at(*place, id) => {
                Some((id, row, *place))
            }
            _ => None,
        }
    }

    /// Whether the call only sets rows, and each stays in its slot.
    #[tactic(auto, using(std::proofs::lemmas::Grind::common_steps, crate::proofs::ChangesLaws::drop_at, crate::proofs::ChangesLaws::drop_item))]
    fn keeps_slots(&self, op: &Planned<'_>) -> bool
        ensures { result ≡ true → KeepSlots self.now.stamp self.now.slots (changes_of op.now.call.now) op.now.slots }
    {
        let slots = op.slots.as_slice();
        for at in 0..op.call.count() {
            match (op.call.change(at), slots.get(at)) {
                (LentChange::Set(id, _), Some(place)) if self.slots.stands_at(*place, id) => {}
                _ => return false,
            }
        }
        true
    }

    /// Each row that the call sets is replaced where it stands.
    #[tactic(auto, using(std::proofs::lemmas::Grind::common_steps, crate::proofs::ChangesLaws::drop_at, crate::proofs::ReplacedLaws::replaces_next, crate::proofs::ReplacedLaws::replaced_one, crate::proofs::ReplacedLaws::sets_row))]
    fn replace_rows(&mut self, op: &Planned<'_>)
        requires { KeepSlots self.old.stamp self.old.slots (changes_of op.now.call.now) op.now.slots }
        ensures { self.new ≡ with_slots (replaced self.old.stamp (changes_of op.now.call.now) op.now.slots self.old.slots) self.old }
    {
        let slots = op.slots.as_slice();
        for at in 0..op.call.count() {
            if let LentChange::Set(id, row) = op.call.change(at) {
                self.replace(id, row, slots[at]);
            }
        }
    }

    /// A row is replaced where it stands, so nothing else changes: neither what its place is used for nor where it is
    /// found.
    #[inline(always)]
    fn replace(&mut self, id: u64, row: &Row, place: u32)
        requires { row_at self.old.stamp id self.old.slots place ≡ true }
        ensures { self.new ≡ with_slots (slice_set self.old.slots place (new_version self.old.stamp (record { id = id; row = row.now }))) self.old }
    {
        self.slots.begin(place, Entry { id, row: *row });
    }

    /// Ends all rows that the call ends.
    fn end_rows(&mut self, call: &LentCall<'_>)
        ensures { self.new ≡ with_slots (map (close (ended call.now) self.old.stamp) self.old.slots) self.old }
    {
        for at in 0..call.count() {
            self.end_one(call.change(at));
        }
    }

    /// Ends the row that a change ends.
    #[inline(always)]
    fn end_one(&mut self, change: LentChange<'_>)
        ensures { self.new ≡ with_slots (map (close (ended_by (change_of change.entry ∷ [])) self.old.stamp) self.old.slots) self.old }
    {
        if let Some(id) = change.ended() {
            self.end_row(id);
        }
    }

    /// Ends the row of this id, where there is one.
    #[tactic(auto, using(std::proofs::lemmas::Grind::common_steps, crate::proofs::SlotUseLaws::row_version, crate::proofs::UsesAfterQuery::use_few, std::proofs::lemmas::Option::slice_get_within))]
    fn end_row(&mut self, id: u64)
        ensures { self.new ≡ with_slots (map (close (id ∷ []) self.old.stamp) self.old.slots) self.old }
    {
        let Some(place) = self.links.take(&self.slots, id) else {
            return;
        };
        self.slots.end(place);
        let slots = self.slots.as_slice();
        let next_use = use_of(&slots[place as usize], &self.callers);
        self.places.put(place, SlotUse::Live, next_use);
    }

    /// Begins all rows that the call begins, each in its slot; added ones get the ids from this one on.
    #[tactic(auto, using(std::proofs::lemmas::Grind::common_steps, crate::proofs::FilledLaws::begun_all, std::proofs::lemmas::List::drop_all))]
    fn begin_rows(&mut self, first: u64, call: &LentCall<'_>, slots: &[u32])
        requires fits { is_some (filled (stamps self.old) self.old.stamp slots.now (begun first call.now) self.old.slots) ≡ true }
        requires fresh { AreFresh self.old.next_id (visible self.old.stamp self.old.slots) (begun first call.now) }
        requires small { first < 2 ^ 63 }
        ensures slots { filled (stamps self.old) self.old.stamp slots.now (begun first call.now) self.old.slots ≡ Some self.new.slots }
        ensures rest { self.new ≡ with_slots self.new.slots self.old }
    {
        let mut next_id = first;
        let mut used = 0;
        for at in 0..call.count() {
            let change = call.change(at);
            if let Some((id, row)) = change.begun(next_id) {
                self.begin_row(id, row, slots[used]);
                used += 1;
            }
            next_id += change.added();
        }
    }

    /// Begins the row that a change begins, where it is the only one, in the only slot.
    #[inline(always)]
    fn begin_lone(&mut self, first: u64, change: LentChange<'_>, slots: &[u32])
        requires fits { is_some (filled (stamps self.old) self.old.stamp slots.now (begun_by first (change_of change ∷ [])) self.old.slots) ≡ true }
        requires fresh { AreFresh self.old.next_id (visible self.old.stamp self.old.slots) (begun_by first (change_of change ∷ [])) }
        ensures slots { filled (stamps self.old) self.old.stamp slots.now (begun_by first (change_of change.entry ∷ [])) self.old.slots ≡ Some self.new.slots }
        ensures rest { self.new ≡ with_slots self.new.slots self.old }
    {
        if let Some((id, row)) = change.begun(first) {
            self.begin_row(id, row, slots[0]);
        }
    }

    /// Begins a row at a free place.
    #[tactic(auto, using(std::proofs::lemmas::Grind::common_steps, crate::proofs::FilledLaws::free_there))]
    fn begin_row(&mut self, id: u64, row: &Row, place: u32)
        requires free { is_free (stamps self.old) self.old.slots place ≡ true }
        requires absent { has (visible self.old.stamp self.old.slots) id ≡ false }
        requires low { id < self.old.next_id }
        ensures { self.new ≡ with_slots (slice_set self.old.slots place (new_version self.old.stamp (record { id = id; row = row.now }))) self.old }
    {
        self.links.add(&self.slots, id, place);
        self.slots.begin(place, Entry { id, row: *row });
        self.places.put(place, SlotUse::Free, SlotUse::Live);
    }

    /// The client has made one call more. Where it ends a query, each ended version that it kept goes to another open
    /// query that needs it, or its slot is free.
    #[inline(always)]
    #[tactic(auto, using(std::proofs::lemmas::Grind::common_steps, crate::proofs::UsesAfterQuery::callers_long, crate::proofs::UsesAfterQuery::seated))]
    fn count(&mut self, client: u8, call: &LentCall<'_>)
        requires { refusal_at self.old client call.now ≡ None }
        ensures { self.new ≡ record { slots = self.old.slots; stamp = self.old.stamp; next_id = self.old.next_id; callers = callers_after self.old.stamp self.old.callers client call.now } }
    {
        count(&mut self.callers, client, call, self.slots.stamp());
        if call.ends_query() {
            self.places
                .sweep(client - 1, self.slots.as_slice(), &self.callers);
        }
    }
}
