//! Whether a planned call is legal here.

ghost use Rattle.std.specs.Prelude.{map, true, is_some, [], ◌∷◌, ◌≡◌, suc, ◌&&◌};
ghost use Rattle.pref_core.specs.ContentsInvariant.{IsKept, IsFreed, FindsFreed, are_free};
ghost use Rattle.pref_core.specs.Operations.{close, is_next, slots_after, outcome_at};
ghost use Rattle.pref_core.specs.Planned.{op_of};
ghost use Rattle.pref_core.specs.Slots.{begins};
ghost use Rattle.pref_core.specs.State.{ended, is_formed};

use crate::call::{Outcome, Planned, QueryState, SlotList};
use crate::store::caller::caller_of;
use crate::store::contents::Contents;
use crate::store::planning::success_outcome;

impl Contents {
    /// Whether an op is legal next: its call, number and outcome, and its slots.
    #[inline(always)]
    pub(crate) fn is_legal(&self, op: &Planned<'_>) -> bool
        requires { IsKept self.now }
        ensures { result ≡ (is_next self.now (op_of op.now) && is_some (slots_after self.now (op_of op.now))) }
    {
        if self.fit_at_once(None, op.call, &op.slots) {
            return self.is_next(success_outcome(self.next_id, op.call), op);
        }
        let freed = self.freed_places(None, op.call);
        self.is_next(self.outcome(&freed, op.call), op) && self.fits(&freed, op)
    }

    /// Whether the call, its number and its outcome are legal next, by what becomes of the call here.
    #[inline(always)]
    fn is_next(&self, outcome: Outcome, op: &Planned<'_>) -> bool
        requires outcome { outcome ≡ outcome_at self.now op.now.call.now }
        requires formed { is_formed op.now.call.now ≡ true }
        ensures { result ≡ is_next self.now (op_of op.now) }
    {
        let Some(caller) = caller_of(&self.callers, op.client) else {
            return false;
        };
        let refusal = op
            .call
            .refusal(caller.calls, QueryState::of(&caller.at_begin));
        if refusal.is_some() || op.number != caller.calls + 1 {
            return false;
        }
        op.outcome == outcome
    }

    /// Whether the op's slots fit its call: one for each row that begins, each free once the old rows ended, and none
    /// twice.
    fn fits(&self, freed: &Result<SlotList, u64>, op: &Planned<'_>) -> bool
        requires freed { FindsFreed self.now (ended op.now.call.now) freed.now }
        requires next { is_next self.now (op_of op.now) ≡ true }
        ensures { result ≡ is_some (slots_after self.now (op_of op.now)) }
    {
        match freed {
            Ok(freed) if op.call.is_change() && op.outcome.succeeds() => {
                op.slots.as_slice().len() == op.call.begun() && self.are_free(freed, op)
            }
            _ => op.slots.as_slice().is_empty(),
        }
    }

    /// Whether each slot of the op is free once the old rows ended, and none comes twice.
    fn are_free(&self, freed: &SlotList, op: &Planned<'_>) -> bool
        requires { IsFreed self.now (ended op.now.call.now) freed.now }
        ensures { result ≡ are_free (suc self.now.stamp ∷ begins self.now.callers) (map (close (ended op.now.call.now) (suc self.now.stamp)) self.now.slots) [] op.now.slots }
    {
        let mut earlier = SlotList::NONE;
        for place in op.slots.as_slice() {
            if earlier.has(*place) || !self.is_open(freed, *place) {
                return false;
            }
            earlier.push(*place);
        }
        true
    }
}
