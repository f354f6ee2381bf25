//! The beginnings of a board's history that clients have seen.

ghost use Rattle.std.specs.Prelude.{◌≡◌, ◌<◌, ◌≤◌, length, MatchBool};
ghost use mathlib.Core.List.{IsPrefix};
ghost use Rattle.pref_share.specs.Book.{count_by, ops_of};
ghost use Rattle.pref_share.specs.Openings.{IsLegalFrom};

use crate::book::{BoardBrand, Entries};
use crate::page::Page;
use std::marker::{Model, PhantomData};

/// A beginning of the history, which was seen. Contracts see its operations.
pub(crate) struct Prefix<J: BoardBrand> {
    len: u64,
    seen: Entries,
    of: PhantomData<J>,
}

// By hand, so that letting one go is a call: a derived `drop` is written out, and proved, at each way out of each function that owns one.
impl<J: BoardBrand> Drop for Prefix<J> {
    fn drop(self) {
        let Prefix {
            len: _,
            seen: _,
            of: _,
        } = self;
    }
}

impl<J: BoardBrand> Model for Prefix<J> {
    ghost use Rattle.std.specs.Prelude.{◌≡◌, List, length};
    ghost use Rattle.pref_core.specs.declared.call.Op.{Op};
    ghost use Rattle.pref_share.specs.Book.{ops_of};
    ghost use Rattle.pref_share.specs.Openings.{IsLegalFrom};

    ghost Value = { List Op };

    ghost view = { λ p. ops_of p.seen.log };

    ghost invariant = { λ p. (p.len ≡ length (ops_of p.seen.log)) × (p.seen.book ≡ J.book) × IsLegalFrom J.opening (ops_of p.seen.log) };
}

impl<J: BoardBrand> Prefix<J> {
    /// The history that the entries seen on this board show.
    pub(crate) fn of(len: u64, seen: &Entries) -> Prefix<J>
        requires len { len ≡ length (ops_of seen.now.log) }
        requires book { seen.now.book ≡ J.book }
        requires legal { IsLegalFrom J.opening (ops_of seen.now.log) }
        ensures { result ≡ ops_of seen.now.log }
    {
        Prefix {
            len,
            seen: seen.again(),
            of: PhantomData,
        }
    }

    /// The entries that show it.
    pub(crate) fn entries(&self) -> &Entries
        ensures all { ops_of result.now.log ≡ self.now }
        ensures book { result.now.book ≡ J.book }
    {
        &self.seen
    }

    /// How many operations it has.
    pub(crate) fn len(&self) -> u64
        ensures length { result ≡ length self.now }
        ensures legal { IsLegalFrom J.opening self.now }
    {
        self.len
    }

    /// A copy.
    pub(crate) fn again(&self) -> Prefix<J>
        ensures same { result ≡ self.now }
        ensures legal { IsLegalFrom J.opening self.now }
    {
        Prefix {
            len: self.len,
            seen: self.seen.again(),
            of: PhantomData,
        }
    }

    /// Shows that it holds no more calls of a client than stand on the client's page.
    pub(crate) fn count(&self, page: &mut Page)
        requires book { page.old.book ≡ J.book }
        requires client { 0 < page.old.number }
        ensures same { page.new ≡ page.old }
        ensures few { count_by page.old.number self.now ≤ length page.old.ops }
    {
        page.check(&self.seen);
    }

    /// Whether it begins the other one. Of two beginnings of one history one does.
    pub(crate) fn begins(&self, other: &Prefix<J>) -> bool
        ensures cases { MatchBool result (IsPrefix self.now other.now) (IsPrefix other.now self.now) }
        ensures legal { IsLegalFrom J.opening self.now × IsLegalFrom J.opening other.now }
    {
        let mut both = self.seen.again();
        both.learn(&other.seen);
        self.len <= other.len
    }
}
