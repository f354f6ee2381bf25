//! How looks for an entry of the last level that dominates a new one went since that level was found. Any numbers are right: they only say
//! which entry is asked first, and whether a look is worth while.

ghost use Rattle.std.specs.Prelude.{◌<◌, All};

use pref_table::Row;
use std::alloc::{AllocError, Global};

/// Where there are groups, so many numbers are kept for them.
const SLOTS: usize = 1024;

/// 2^64 divided by the golden ratio, to the nearest odd number: the upper bits of a product with it distinguish values well.
const GOLDEN: u64 = 0x9E37_79B9_7F4A_7C15;

/// So many tries are made before they are judged.
const JUDGED: usize = 64;

/// Where fewer than one in so many tries find something, no more are made.
const SELDOM: usize = 8;

/// Tries of one kind: how many were made, and how many of them found something.
#[derive(Clone, Copy, Default)]
pub(crate) struct Tries {
    made: usize,
    found: usize,
}

impl Tries {
    /// Whether more are to be made.
    pub(crate) fn are_worthwhile(&self) -> bool {
        self.made < JUDGED || self.found >= self.made / SELDOM
    }

    /// Notes that so many were made, and so many found something.
    pub(crate) fn note(&mut self, made: usize, found: usize) {
        self.made = self.made.saturating_add(made);
        self.found = self.found.saturating_add(found);
    }
}

/// What was tried since the last level was found.
#[derive(Drop)]
pub(crate) struct Lately {
    /// For each slot the one of the last level that is asked first.
    which: Vec<usize>,
    /// Looks at new entries: they find those that are below the cut.
    pub(crate) looks: Tries,
    /// Searches for another one than the one that is asked first.
    pub(crate) searches: Tries,
}

impl Lately {
    /// Nothing yet, with a number for each of many groups, or for one.
    pub(crate) fn of(alloc: Global, groups: &[usize]) -> Result<Lately, AllocError> {
        let slots = if groups.is_empty() { 1 } else { SLOTS };
        Ok(Lately {
            which: vec![in alloc; 0_usize; slots]?,
            looks: Tries::default(),
            searches: Tries::default(),
        })
    }

    /// The slot of a row's group.
    #[inline(always)]
    pub(crate) fn slot(&self, groups: &[usize], row: &Row) -> usize
        requires { All (λ col. col < 16) groups.now }
    {
        let mut hash: u64 = 0;
        for col in groups {
            hash = (hash ^ row.cell(*col).cast_unsigned()).wrapping_mul(GOLDEN);
        }
        (hash >> 54) as usize
    }

    /// The one that is asked first for a slot.
    #[inline(always)]
    pub(crate) fn at(&self, slot: usize) -> usize {
        self.which.get(slot).copied().unwrap_or(0)
    }

    /// Notes what a search for a slot found.
    pub(crate) fn note_search(&mut self, slot: usize, found: Option<usize>) {
        self.searches.note(1, usize::from(found.is_some()));
        if let Some(which) = found
            && slot < self.which.len()
        {
            self.which[slot] = which;
        }
    }

    /// Begins anew, since another last level was found.
    pub(crate) fn begin(&mut self) {
        self.looks = Tries::default();
        self.searches = Tries::default();
    }
}
