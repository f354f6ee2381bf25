//! Versions of rows.

ghost use Rattle.std.specs.Prelude.{◌≡◌, ◌&&◌, nat_le, not};
ghost use Rattle.pref_core.specs.Slots.{has_ended, is_visible};

use pref_table::Row;

/// A row from the commit that made it up to the commit that ended it.
#[derive(Clone, Copy)]
pub struct Version {
    pub id: u64,
    pub row: Row,
    pub birth: u64,
    pub death: Option<u64>,
}

impl Version {
    pub fn is_visible_at(&self, stamp: u64) -> bool
        ensures { result ≡ is_visible stamp self.now }
    {
        is_alive(self.birth, self.death, stamp)
    }
}

/// Whether what begins and ends then has begun at a stamp, and not ended.
#[inline(always)]
pub(crate) fn is_alive(birth: u64, death: Option<u64>, stamp: u64) -> bool
    ensures { result ≡ (nat_le birth stamp && not (has_ended stamp death)) }
{
    let ended = match death {
        Some(death) => death <= stamp,
        None => false,
    };
    birth <= stamp && !ended
}
