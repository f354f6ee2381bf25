//! The pages of the book, each with the right to write on it.

ghost use Rattle.std.specs.Prelude.{◌≡◌, ◌≢◌, suc, ◌++◌, ◌∷◌, ◌+◌, ◌<◌, ◌≤◌, [], length, IfSome, MatchBool, Some};
ghost use mathlib.Core.List.{IsPrefix};
ghost use Rattle.logbook.specs.Pages.{may_write};
ghost use Rattle.pref_core.specs.Planned.{op_of};
ghost use Rattle.pref_share.specs.Book.{IsPageOf, word_of, pages, history_page, count_by, key_after, ops_of, ops_on};

use crate::book::{Entries, Law, MakePen, NoTrade, PageWord, ShowWhole, WriteOp, Writing};
use crate::entry::Entry;
use logbook::{Offer, Pen, Pens, Word};
use pref_core::engine::Planned;
use std::marker::Model;

/// A page of the book, with the right to write on it: who has it knows all that stands there. It is eight bytes. Contracts see its
/// number, its operations and its book.
pub(crate) struct Page {
    word: PageWord,
    seen: Entries,
    pen: Pen,
}

// By hand, so that letting one go is a call: a derived `drop` is written out, and proved, at each way out of each function that owns one.
impl Drop for Page {
    fn drop(self) {
        let Page {
            word: _,
            seen: _,
            pen: _,
        } = self;
    }
}

impl Model for Page {
    ghost use Rattle.std.specs.Prelude.{◌≡◌, ◌<◌, Some};
    ghost use Rattle.logbook.specs.Pages.{may_write};
    ghost use Rattle.pref_share.specs.Book.{Page as PageValue, pages, word_of, key_after, ops_on};

    ghost Value = { PageValue };

    ghost view = { λ p. record { number = p.word.key; ops = ops_on p.word.key p.seen.log; book = p.seen.book } };

    ghost invariant = { λ p. (p.word ≡ word_of p.seen.book p.word.key) × (p.word.key < pages) × (p.pen.book ≡ p.seen.book) × (p.pen.nib.right ≡ may_write) × (key_after p.word.key p.seen.log ≡ Some p.pen.nib.key) };
}

/// A pen for a page, and whether it is the first.
fn new_pen(word: &PageWord, seen: &mut Entries) -> (Pen, bool)
    requires word { word.now ≡ word_of seen.old.book word.now.key }
    requires page { word.now.key < pages }
    ensures seen { (seen.new.book ≡ seen.old.book) × IsPrefix seen.old.log seen.new.log }
    ensures book { result.0.book ≡ seen.old.book }
    ensures right { result.0.nib.right ≡ may_write }
    ensures first { MatchBool result.1 ((key_after word.now.key seen.new.log ≡ Some result.0.nib.key) × (ops_on word.now.key seen.new.log ≡ [])) (Unit {0}) }
{
    let mut offer: Offer<Entry, u64, Law, NoTrade> = seen.plain::<NoTrade, ShowWhole, ShowWhole>(
        &ShowWhole,
    );
    let mut pen = seen.no_pen();
    let found = word.compare_exchange::<MakePen, NoTrade>(0, 1, seen, &mut offer, &mut pen);
    let _word: PageWord = Word::tracked(0, &mut pen);
    (pen, found == 0)
}

impl Page {
    /// The next page, on which nothing stands. No run returns `None`: a page is begun once.
    pub(crate) fn begin(rights: &mut Pens, seen: &Entries) -> Option<Page>
        requires book { rights.old.book ≡ seen.now.book }
        requires left { (rights.old.next + rights.old.left ≡ pages) × (0 < rights.old.left) }
        ensures rights { (rights.new.book ≡ rights.old.book) × (rights.new.next ≡ rights.old.next + 1) × (rights.new.next + rights.new.left ≡ pages) }
        ensures begun { IfSome result (λ page. page ≡ record { number = rights.old.next; ops = []; book = seen.now.book }) }
    {
        let mut right = rights.take();
        let word = Word::tracked(0, &mut right);
        let mut seen = seen.again();
        let (pen, is_first) = new_pen(&word, &mut seen);
        if is_first {
            Some(Page { word, seen, pen })
        } else {
            None
        }
    }

    /// The entries that it has seen, with all that stands on it.
    pub(crate) fn entries(&self) -> Entries
        ensures all { ops_on self.now.number result.log ≡ self.now.ops }
        ensures book { result.book ≡ self.now.book }
    {
        self.seen.again()
    }

    /// Shows that a history that was reached begins this one, where the page is the history's, and that it holds
    /// no more calls of a client than stand on the page, where it is the client's.
    pub(crate) fn check(&mut self, reached: &Entries)
        requires book { reached.now.book ≡ self.old.book }
        ensures same { self.new ≡ self.old }
        ensures begins { self.old.number ≡ history_page → IsPrefix (ops_of reached.now.log) self.old.ops }
        ensures few { 0 < self.old.number → count_by self.old.number (ops_of reached.now.log) ≤ length self.old.ops }
    {
        let mut seen = self.seen.again();
        seen.learn(reached);
        let mut offer: Offer<Entry, u64, Law, NoTrade> = seen.plain::<
            NoTrade,
            ShowWhole,
            ShowWhole,
        >(&ShowWhole);
        let _found = self
            .word
            .compare_exchange::<ShowWhole, NoTrade>(0, 1, &mut seen, &mut offer, &mut self.pen);
    }

    /// Writes an operation. One joins the history only after its client wrote it: `other` is the page of
    /// the client where this is that of the history.
    pub(crate) fn write(&mut self, op: &Planned<'_>, other: &Page)
        requires book { other.now.book ≡ self.old.book }
        requires turn { self.old.number ≡ history_page → (other.now.number ≡ (op_of op.now).client) × (0 < (op_of op.now).client) × (count_by (op_of op.now).client self.old.ops < length other.now.ops) }
        ensures ops { self.new.ops ≡ self.old.ops ++ op_of op.now ∷ [] }
        ensures same { (self.new.number ≡ self.old.number) × (self.new.book ≡ self.old.book) }
    {
        let mut seen = self.seen.again();
        seen.learn(&other.seen);
        let (next, _) = new_pen(&self.word, &mut seen);
        let writing = Writing {
            op,
            word: &self.word,
            next,
        };
        let mut offer: Offer<Entry, u64, Law, NoTrade> = seen.plain::<
            NoTrade,
            Writing<'_>,
            WriteOp,
        >(&writing);
        let _found = self
            .word
            .compare_exchange::<WriteOp, NoTrade>(0, 1, &mut seen, &mut offer, &mut self.pen);
        let Writing {
            op: _,
            word: _,
            next,
        } = writing;
        self.seen = seen;
        self.pen = next;
    }

    /// Adds an operation to the history, whose page this is, which its client writes on its page before.
    pub(crate) fn add(&mut self, op: &Planned<'_>, page: &mut Page)
        requires history { self.old.number ≡ history_page }
        requires page { IsPageOf self.old.book (op_of op.now).client (length page.old.ops) page.old }
        requires few { count_by (op_of op.now).client self.old.ops ≤ length page.old.ops }
        ensures added { self.new.ops ≡ self.old.ops ++ op_of op.now ∷ [] }
        ensures same { (self.new.number ≡ self.old.number) × (self.new.book ≡ self.old.book) }
        ensures page { IsPageOf self.old.book (op_of op.now).client (suc (length page.old.ops)) page.new }
    {
        page.write(op, self);
        self.write(op, page);
    }
}
