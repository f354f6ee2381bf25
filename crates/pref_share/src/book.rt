//! The book in which all operations of a board are noted. It exists in the proofs alone: what threads share of it are
//! words that say nothing.
//!
//! It has a page for the history and one for each client. Who has the pen of a page knows all that stands there: a pen
//! that has written an entry is home, and no pen can write two. The pen of the history lies under the lock, and each
//! client has that of its own page. A call is written on its client's page, and then on that of the history, which by the
//! rule of the book holds no more calls of a client than the client's page. So no call joins the history but by its
//! client, who knows them all.
//!
//! ```text
//! page 0, of the history, is begun    names pen 9
//! page 1, of client 1, is begun       names pen 10
//! page 1: call A                      names pen 11; pen 10 has written it, and is home
//! page 0: call A                      names pen 12; pen 9 has written it, and is home
//!
//! pen 11, not home                    is with client 1, and is to write its next call
//! pen 12, not home                    lies under the lock, and is to write what comes after A
//! ```
//!
//! Each entry names, by its key, the pen that may write the next one of its page, and this pen comes home as it does. So
//! who has seen the entry that names pen 12, and has pen 12, knows that nothing follows it on its page: else pen 12 would
//! be home.

ghost use Rattle.std.specs.Prelude.{◌≡◌, []};
ghost use Rattle.pref_share.specs.Book.{pages};

use crate::entry::Entry;
use logbook::{Gain, Opening, Pen, Pens, Plain, Play, Rule, Seen, Start, Word};
use pref_core::engine::Planned;
use std::marker::Brand;

/// The rule of the book.
pub struct Law;

impl Rule<Entry, u64> for Law {
    ghost use Rattle.std.specs.Prelude.{[]};
    ghost use base.Fml.{ftrue};
    ghost use Rattle.pref_share.specs.Book.{IsKept};

    ghost holds = { λ cells log. IsKept cells log };

    ghost first = { [] };

    ghost hinted = { λ n log. Unit {0} };

    ghost shows = { λ log. [] };

    ghost keeps = { λ names log. ftrue };

    ghost moves = { λ ask before after answer. Unit {0} };
}

/// A proof that the book reached some entries, and so a history. It has no bytes.
pub type Entries = Seen<Entry, u64, Law>;

/// The word of a page.
pub(crate) type PageWord = Word<Entry, u64, Law>;

/// Callers trade nothing.
pub struct NoTrade;

impl Gain<Entry, u64> for NoTrade {
    ghost use base.Fml.{ftrue};

    ghost after = { λ names about answer. ftrue };
}

/// A step that makes a pen.
pub struct MakePen;

impl Play<Entry, u64> for MakePen {
    ghost use Rattle.pref_share.specs.Book.{Begins};

    ghost then = { Begins };
}

/// A step that shows that a page is whole.
pub struct ShowWhole;

impl Play<Entry, u64> for ShowWhole {
    ghost use Rattle.pref_share.specs.Book.{IsWhole};

    ghost then = { IsWhole };
}

/// A step that writes an operation on a page.
pub struct WriteOp;

impl Play<Entry, u64> for WriteOp {
    ghost use Rattle.pref_share.specs.Book.{Adds};

    ghost then = { Adds };
}

/// An operation, the word of its page, and the pen of the next one.
pub(crate) struct Writing<'a> {
    pub(crate) op: &'a Planned<'a>,
    pub(crate) word: &'a PageWord,
    pub(crate) next: Pen,
}

/// A step asks for an operation on a page, and for the pen that may write the next one there.
impl Plain<Writing<'_>, Entry, u64> for WriteOp {
    ghost use Rattle.std.specs.Prelude.{None, Some};
    ghost use Rattle.pref_core.specs.Planned.{op_of};

    ghost ask = { λ a. record { page = a.word.now.key; key = a.next.nib.key; op = Some (op_of a.op.now) } };

    ghost state = { λ a. None };
}

/// For a step that writes nothing. No value of what it asks for is used.
impl Plain<ShowWhole, Entry, u64> for ShowWhole {
    ghost use Rattle.std.specs.Prelude.{None};

    ghost ask = { λ _. record { page = 0; key = 0; op = None } };

    ghost state = { λ _. None };
}

/// A book that opens with no entry.
pub struct Blank;

impl Opening<Blank, Entry> for Blank {
    ghost use Rattle.std.specs.Prelude.{[]};

    ghost log = { λ count about. [] };
}

/// The identity of a board in contracts: the book of its history, its setup and its opening rows. Code that works with any board is generic
/// over it, as below; nobody but this crate implements it. Where a board is opened, `Brand` stands for it, beside [`BoardName::new`].
///
/// ```rust
/// fn insert<J: BoardBrand, R: Wait + AllocGlobal>(rt: &R, board: &Board<J>, desk: &mut Client<J>, hotel: Row) -> Result<u64, ShareFault> {
///     desk.insert(rt, rt.alloc(), board, hotel)
/// }
/// ```
pub trait BoardBrand {
    ghost use Rattle.logbook.specs.Pages.{Book};
    ghost use Rattle.pref_share.specs.Openings.{Opening};

    ghost book: { Book };

    ghost opening: { Opening };
}

impl BoardBrand for Brand {
    ghost use Rattle.std.specs.Prelude.{[]};

    ghost book = { record { number = 0; log_name = 0; cells_name = 0 } };

    ghost opening = { record { limits = record { clients = 0; capacity = 0; block = 0; window = 0 }; rows = [] } };
}

/// The name of a board that is not open yet: a book with an empty history. One board is opened under it. It takes no memory.
///
/// ```rust
/// run_board::<Brand, _>(rt, BoardName::new(), setup, &rows)?;
/// ```
#[derive(Drop)]
pub struct BoardName {
    pub(crate) rights: Pens,
    pub(crate) seen: Entries,
    pub ghost empty: { seen.log ≡ [] },
    pub ghost rights_are: { (rights.book ≡ seen.book) × (rights.next ≡ 0) × (rights.left ≡ pages) },
}

/// How many pages a book has: that of the history, and one for each of eight clients.
const PAGES: usize = 9;

impl BoardName {
    /// A name that no board has.
    pub fn new() -> BoardName {
        let (seen, rights) = Seen::open_row::<Blank, Blank>(&Blank, Start::alone(), PAGES);
        BoardName { rights, seen }
    }
}
