//! Which versions are needed, and what slots are used for.

ghost use Rattle.std.specs.Prelude.{Some, length, ◌≡◌, ◌≤◌};
ghost use Rattle.pref_core.specs.SlotSets.{kept_from, use_of};
ghost use Rattle.pref_core.specs.Slots.{begins, is_needed};

use crate::store::caller::{Caller, sees};
use crate::store::slot_sets::SlotUse;
use crate::store::version::Version;

/// Whether an open query needs the version, where it ends then.
pub(crate) fn is_seen(version: &Version, death: Option<u64>, callers: &[Caller]) -> bool
    ensures { result ≡ is_needed (begins callers.now) (Some (record version.now { death = death })) }
{
    for caller in callers {
        if sees(caller, version.birth, death) {
            return true;
        }
    }
    false
}

/// The use of an ended version's slot: it is kept for the first caller whose open query needs it, if there is one.
fn kept_by(version: &Version, callers: &[Caller]) -> SlotUse
    requires { length callers.now ≤ 8 }
    ensures { result ≡ kept_from 0 callers.now (Some version.now) }
{
    for (keeper, caller) in callers.iter().enumerate() {
        if sees(caller, version.birth, version.death) {
            return SlotUse::Ended {
                keeper: keeper as u8,
            };
        }
    }
    SlotUse::Free
}

/// The use of a slot.
#[inline(always)]
pub(crate) fn use_of(slot: &Option<Version>, callers: &[Caller]) -> SlotUse
    requires { length callers.now ≤ 8 }
    ensures { result ≡ use_of callers.now slot.now }
{
    match slot {
        Some(version) if version.death.is_none() => SlotUse::Live,
        Some(version) => kept_by(version, callers),
        None => SlotUse::Free,
    }
}
