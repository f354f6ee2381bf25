//! Scales: the bits that a signature has of one key.
ghost use Rattle.std.specs.Prelude.{◌<◌, length};
ghost use Rattle.std.specs.List.Sorted.{IsNonDecreasing};

use crate::key::Key;
use pref_table::Row;

/// The most marks of a scale: fewer than a word has bits, so that a word can be shifted by them.
pub(super) const MOST_MARKS: usize = 63;

/// Some bits of a signature: for each mark, whether the row reaches it, which is whether its key is no less. The marks are in order.
#[derive(Drop)]
pub struct Scale {
    pub(super) key: Key,
    pub(super) marks: Vec<u64>,
    ghost in_order: { IsNonDecreasing marks.items },
    ghost few: { length marks.items < 64 },
}

impl Scale {
    ghost use Rattle.std.specs.Prelude.{◌≡◌, int_lt, map, not, pos};
    ghost use Rattle.pref_term.specs.Signatures.{bits_by, signed_onto};

    /// A scale by a key and these marks, in any order. Of more than [`MOST_MARKS`] it has the least.
    pub(super) fn of(key: Key, mut marks: Vec<u64>) -> Scale
        ensures { result.key ≡ key }
    {
        marks.sort_unstable();
        marks.truncate(MOST_MARKS);
        Scale { key, marks }
    }

    /// Puts a bit for each mark behind a word's: whether this number is no less. These are ones for the marks that it reaches, which
    /// come first, and then zeros for those beyond it. Counting these takes no branch, unlike a search by halves, whose branches no
    /// processor foresees, and fewer instructions than counting the others.
    fn reached_onto(word: u64, number: u64, marks: &[u64]) -> u64
        requires in_order { IsNonDecreasing marks.now }
        requires few { length marks.now < 64 }
        ensures { result ≡ signed_onto word (map (λ mark. not (int_lt (pos number) (pos mark))) marks.now) }
    {
        let mut beyond = 0;
        for mark in marks {
            beyond += usize::from(*mark > number);
        }
        (word << marks.len()) | ((1 << marks.len()) - (1 << beyond))
    }

    /// Puts its bits of a row behind a word's.
    pub(super) fn sign_onto(&self, word: u64, row: &Row) -> u64
        requires { self.now.key.col < 16 }
        ensures { result ≡ signed_onto word (bits_by self.now row.now) }
    {
        Scale::reached_onto(word, self.key.of(row), &self.marks)
    }
}
