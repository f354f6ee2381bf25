//! The outcome of a call, and where its rows go.

ghost use Rattle.std.specs.Prelude.{ℕ, IfSome, IfNone, Some, true, false, is_some, length, ◌≡◌, ◌<◌, ◌⊎◌};
ghost use Rattle.pref_core.specs.Indexes.{IsIndexOf};
ghost use Rattle.pref_core.specs.ContentsInvariant.{IsKept, IsFreed, FindsFreed, FitAtOnce, FitsNext, is_open, uses_of};
ghost use Rattle.pref_core.specs.IdChains.{home_of};
ghost use Rattle.pref_core.specs.LentCalls.{change_of};
ghost use Rattle.pref_core.specs.Operations.{outcome_at, placed, used, grown, Plans};
ghost use Rattle.pref_core.specs.Planned.{op_or_fault};
ghost use Rattle.pref_core.specs.SlotSets.{free_at};
ghost use Rattle.pref_core.specs.State.{ended, is_change, is_formed, succeeds, success_outcome};
ghost use Rattle.pref_core.specs.Table.{among};

use crate::call::slot_list::is_listed;
use crate::call::{LentCall, Outcome, Planned, QueryState, SlotList};
use crate::changes::LentChange;
use crate::fault::CoreFault;
use crate::index::Index;
use crate::store::caller::caller_of;
use crate::store::contents::Contents;
use crate::store::slot_sets::any_but;

impl Contents {
    /// The plan of a call, whose rows are found by an index where there is one: its outcome, and where its new rows go;
    /// or why it gets no number.
    #[inline(always)]
    pub(crate) fn plan<'a>(
        &self,
        index: Option<&Index>,
        client: u8,
        call: &'a LentCall<'a>,
    ) -> Result<Planned<'a>, CoreFault>
        requires kept { IsKept self.now }
        requires index { IfSome index (λ index. IsIndexOf self.now index.now) }
        ensures { Plans self.now client call.now (op_or_fault result) }
    {
        let Some(caller) = caller_of(&self.callers, client) else {
            return Err(CoreFault::NoSuchClient);
        };
        if let Some(fault) = call.refusal(caller.calls, QueryState::of(&caller.at_begin)) {
            return Err(fault);
        }
        let (slots, outcome) = self.slots_and_outcome(index, call);
        Ok(Planned {
            client,
            number: caller.calls + 1,
            call,
            slots,
            outcome,
        })
    }

    /// The slots of a call's new rows and its outcome: at once where that can be, as where no open query needs what
    /// ends.
    fn slots_and_outcome(&self, index: Option<&Index>, call: &LentCall<'_>) -> (SlotList, Outcome)
        requires kept { IsKept self.now }
        requires index { IfSome index (λ index. IsIndexOf self.now index.now) }
        ensures outcome { result.1 ≡ outcome_at self.now call.now }
        ensures placed { is_some (placed self.now call.now result.0 result.1) ≡ true }
        ensures formed { is_formed call.now ≡ true }
    {
        if let Some(slots) = self.slots_at_once(index, call) {
            return (slots, success_outcome(self.next_id, call));
        }
        let freed = self.freed_places(index, call);
        let outcome = self.outcome(&freed, call);
        (self.slots_for(&freed, call, outcome), outcome)
    }

    /// The slots that the rows which a call ends leave free, or the first id that it ends and the table lacks.
    #[tactic(auto, using(std::proofs::lemmas::Grind::common_steps, crate::proofs::BoundsLaws::bounds, crate::proofs::FreedLaws::freed_all, crate::proofs::ChangesLaws::ended_first, std::proofs::lemmas::List::take_all))]
    pub(crate) fn freed_places(
        &self,
        index: Option<&Index>,
        call: &LentCall<'_>,
    ) -> Result<SlotList, u64>
        requires kept { IsKept self.now }
        requires index { IfSome index (λ index. IsIndexOf self.now index.now) }
        ensures found { FindsFreed self.now (ended call.now) result }
        ensures formed { is_formed call.now ≡ true }
    {
        let mut freed = SlotList::NONE;
        for at in 0..call.count() {
            if let Some(id) = call.change(at).ended() {
                let Some(place) = self.place_of(index, id) else {
                    return Err(id);
                };
                if self.frees(place) {
                    freed.push(place);
                }
            }
        }
        Ok(freed)
    }

    /// The slots of a call with this outcome.
    fn slots_for(
        &self,
        freed: &Result<SlotList, u64>,
        call: &LentCall<'_>,
        outcome: Outcome,
    ) -> SlotList
        requires kept { IsKept self.now }
        requires freed { FindsFreed self.now (ended call.now) freed.now }
        requires returned { outcome ≡ outcome_at self.now call.now }
        ensures { is_some (placed self.now call.now result outcome) ≡ true }
    {
        match freed {
            Ok(freed) if call.is_change() && outcome.succeeds() => self.places_for(freed, call),
            _ => SlotList::NONE,
        }
    }

    /// Slots for the rows that a call begins.
    #[tactic(auto, using(std::proofs::lemmas::Grind::common_steps, crate::proofs::BoundsLaws::bounds, crate::proofs::ChangesLaws::added_one, crate::proofs::ChosenSlots::none_chosen))]
    fn places_for(&self, freed: &SlotList, call: &LentCall<'_>) -> SlotList
        requires kept { IsKept self.now }
        requires freed { IsFreed self.now (ended call.now) freed.now }
        requires change { is_change call.now ≡ true }
        requires succeeds { succeeds (outcome_at self.now call.now) ≡ true }
        ensures { is_some (placed self.now call.now result (outcome_at self.now call.now)) ≡ true }
    {
        let mut chosen = SlotList::NONE;
        let mut next_id = self.next_id;
        for at in 0..call.count() {
            let change = call.change(at);
            if let Some((id, _)) = change.begun(next_id) {
                match self.choose(freed, &chosen, id) {
                    Some(place) => chosen.push(place),
                    None => unreachable!(),
                }
            }
            next_id += change.added();
        }
        chosen
    }

    /// The slots of a call whose rows can all have their homes at once, or which begins no row. A row that is added alone
    /// may have any free slot.
    #[tactic(auto, using(std::proofs::lemmas::Grind::common_steps, crate::proofs::BoundsLaws::bounds, crate::proofs::ChangesLaws::added_one))]
    fn slots_at_once(&self, index: Option<&Index>, call: &LentCall<'_>) -> Option<SlotList>
        requires kept { IsKept self.now }
        requires index { IfSome index (λ index. IsIndexOf self.now index.now) }
        ensures { IfSome result (λ slots. FitAtOnce self.now call.now slots) }
    {
        let mut homes = SlotList::NONE;
        let mut next_id = self.next_id;
        for at in 0..call.count() {
            let change = call.change(at);
            if let Some((id, _)) = change.begun(next_id) {
                let is_lone = call.count() == 1 && change.added() == 1;
                homes.push(self.slot_to_try(id, is_lone));
            }
            next_id += change.added();
        }
        if self.fit_at_once(index, call, &homes) {
            Some(homes)
        } else {
            None
        }
    }

    /// The slot that is tried first for a row of this id: its home, or any free one where that is not free and the row is
    /// a lone new one.
    fn slot_to_try(&self, id: u64, is_lone: bool) -> u32
        ensures { (result ≡ home_of (length self.now.slots) id) ⊎ (free_at (uses_of self.now) result ≡ true) }
    {
        let home = self.slots.home_of(id);
        if is_lone && !self.places.is_free(home) {
            if let Some(place) = self.places.any_free_but(&SlotList::NONE) {
                return place;
            }
        }
        home
    }

    /// Whether these are slots for the rows that a call begins, by a look at them alone. A lone change is looked at
    /// without a loop.
    #[inline(always)]
    pub(crate) fn fit_at_once(
        &self,
        index: Option<&Index>,
        call: &LentCall<'_>,
        slots: &SlotList,
    ) -> bool
        requires kept { IsKept self.now }
        requires index { IfSome index (λ index. IsIndexOf self.now index.now) }
        ensures { result ≡ true → FitAtOnce self.now call.now slots.now }
    {
        let slots = slots.as_slice();
        match call.lone() {
            Some(change) => self.used_after(index, change, slots, 0) == Some(slots.len()),
            None => self.all_fit_at_once(index, call, slots),
        }
    }

    /// Whether these are slots for the rows of a call's changes, one after the other.
    fn all_fit_at_once(&self, index: Option<&Index>, call: &LentCall<'_>, slots: &[u32]) -> bool
        requires kept { IsKept self.now }
        requires index { IfSome index (λ index. IsIndexOf self.now index.now) }
        ensures { result ≡ true → FitAtOnce self.now call.now slots.now }
    {
        let mut used = 0;
        for at in 0..call.count() {
            match self.used_after(index, call.change(at), slots, used) {
                Some(after) => used = after,
                None => return false,
            }
        }
        call.is_change() && used == slots.len()
    }

    /// How many slots are used after a change, by how many are before it, where it fits at once. An added row may have the
    /// next slot if that is free; a row that is set, the one where it stands if no open query needs what is there.
    #[inline(always)]
    #[tactic(auto, using(crate::proofs::BoundsLaws::bounds))]
    fn used_after(
        &self,
        index: Option<&Index>,
        change: LentChange<'_>,
        slots: &[u32],
        used: usize,
    ) -> Option<usize>
        requires kept { IsKept self.now }
        requires index { IfSome index (λ index. IsIndexOf self.now index.now) }
        ensures { IfSome result (λ after. FitsNext self.now slots.now used (change_of change.entry) after) }
    {
        match (change, slots.get(used)) {
            (LentChange::Add(_), Some(place))
                if self.places.is_free(*place) && !is_listed(&slots[..used], *place) => Some(
                used + 1,
            ),
            (LentChange::Set(id, _), Some(place))
                if self.slots.stands_at(*place, id) && self.frees(*place) => Some(used + 1),
            (LentChange::Remove(id), _) if self.place_of(index, id).is_some() => Some(used),
            _ => None,
        }
    }

    /// The outcome of a call that gets a number, by the slots that its ended rows leave free.
    pub(crate) fn outcome(&self, freed: &Result<SlotList, u64>, call: &LentCall<'_>) -> Outcome
        requires { FindsFreed self.now (ended call.now) freed.now }
        ensures { result ≡ outcome_at self.now call.now }
    {
        if !call.is_change() {
            return Outcome::Done;
        }
        let freed = match freed {
            Ok(freed) => freed,
            Err(id) => return Outcome::NoSuchRow(*id),
        };
        if call.begun() > 0 {
            let needed = self.size_after(freed, call);
            if needed > self.slots.capacity() as usize {
                return Outcome::Full(needed as u64);
            }
        }
        success_outcome(self.next_id, call)
    }

    /// How many versions are needed after a call that ends rows, by the slots that they leave free.
    fn size_after(&self, freed: &SlotList, call: &LentCall<'_>) -> usize
        requires { IsFreed self.now (ended call.now) freed.now }
        ensures { result ≡ used (grown call.now self.now) }
    {
        let free = self.free() as usize + freed.as_slice().len();
        self.slots.capacity() as usize + call.begun() - free
    }

    /// A slot for a row of this id, beside those that were chosen: its home where that can be used, so that a row that
    /// had to move comes home, else one that an ended row leaves free, else any.
    fn choose(&self, freed: &SlotList, chosen: &SlotList, id: u64) -> Option<u32>
        ensures found { IfSome result (λ place. (is_open (uses_of self.now) freed.now place ≡ true) × (among chosen.now place ≡ false)) }
        ensures none { IfNone result ((place : ℕ) → is_open (uses_of self.now) freed.now place ≡ true → among chosen.now place ≡ true) }
        ensures home { let home = home_of (length self.now.slots) id in 0 < length self.now.slots → is_open (uses_of self.now) freed.now home ≡ true → among chosen.now home ≡ false → result ≡ Some home }
    {
        let home = self.slots.home_of(id);
        if self.is_open(freed, home) && !chosen.has(home) {
            return Some(home);
        }
        if let Some(place) = any_but(freed.as_slice(), chosen) {
            return Some(place);
        }
        self.places.any_free_but(chosen)
    }
}

/// The outcome of a change that succeeds.
pub(crate) fn success_outcome(next_id: u64, call: &LentCall<'_>) -> Outcome
    ensures { result ≡ success_outcome next_id call.now }
{
    if call.added() > 0 {
        Outcome::Added(next_id)
    } else {
        Outcome::Done
    }
}
