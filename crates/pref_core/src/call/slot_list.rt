//! The slots that an op begins its rows in.

ghost use Rattle.std.specs.Prelude.{◌≡◌, ◌++◌, ◌∷◌, [], ◌<◌, ◌≤◌, length};
ghost use Rattle.pref_core.specs.Table.{among};

use std::marker::Model;

/// At most eight slots, each the number of a place. Contracts see their list.
#[derive(Clone, Copy, Debug, PartialEq, Eq)]
pub struct SlotList {
    slots: [u32; 8],
    count: usize,
}

impl Model for SlotList {
    ghost use Rattle.std.specs.Prelude.{ℕ, List, take, length, ◌-◌, ◌++◌, replicate};
    ghost use Rattle.pref_core.specs.PaddedArrays.{AreFilled};

    ghost Value = { List ℕ };

    ghost view = { λ s. take s.count s.slots };

    ghost invariant = { λ s. AreFilled s.slots s.count };

    ghost inverse = { λ list. record { slots = list ++ replicate (8 - length list) 0; count = length list } };

    ghost inverse_ok = { λ a h i. record { slots = h.blank i; count = h.counted i } };
}

impl SlotList {
    /// No slot.
    pub const NONE: SlotList = SlotList {
        slots: [0; 8],
        count: 0,
    };

    /// The slots, in their order.
    pub fn as_slice(&self) -> &[u32]
        ensures same { result.now ≡ self.now }
        ensures few { length self.now ≤ 8 }
    {
        &self.slots[..self.count]
    }

    /// One more slot, behind the others.
    pub(crate) fn push(&mut self, slot: u32)
        requires { length self.old < 8 }
        ensures { self.new ≡ self.old ++ slot ∷ [] }
    {
        self.slots[self.count] = slot;
        self.count += 1;
    }

    /// Whether the slot is one of them.
    pub(crate) fn has(&self, slot: u32) -> bool
        ensures { result ≡ among self.now slot }
    {
        is_listed(self.as_slice(), slot)
    }
}

/// Whether the slot is one of these.
pub(crate) fn is_listed(slots: &[u32], slot: u32) -> bool
    ensures { result ≡ among slots.now slot }
{
    for other in slots {
        if *other == slot {
            return true;
        }
    }
    false
}
