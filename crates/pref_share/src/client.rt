//! A client, which may go to a thread of its own, and the words by which clients pass on what they have seen.

mod acts;
mod calls;
mod reads;

ghost use Rattle.std.specs.Prelude.{◌≡◌, ◌<◌, ◌≤◌, [], length};
ghost use mathlib.Core.List.{IsPrefix};
ghost use Rattle.left_right.specs.Sides.{view};
ghost use Rattle.pref_share.specs.Openings.{IsLegalFrom, first_contents};
ghost use Rattle.pref_share.specs.Standing.{newcomer};
ghost use Rattle.pref_share.specs.Clients.{Sees};
ghost use Rattle.pref_share.specs.Runs.{StandsWithin};
ghost use Rattle.pref_share.specs.Book.{IsPageOf};
ghost use Rattle.pref_share.specs.Views.{Knows};

use crate::book::BoardBrand;
use crate::history::Prefix;
use crate::page::Page;
use crate::published::StoreReader;
use crate::publisher::Publisher;
use pref_core::Setup;
use pref_core::engine::Query;
use std::marker::Model;

/// A beginning of the history, which one client hands to others. Contracts see its operations.
///
/// ```rust
/// let word = desk.word();
/// guest.hear(word);
/// ```
#[derive(Drop)]
pub struct Word<J: BoardBrand> {
    seen: Prefix<J>,
}

impl<J: BoardBrand> Model for Word<J> {
    ghost use Rattle.std.specs.Prelude.{List};
    ghost use Rattle.pref_core.specs.declared.call.Op.{Op};

    ghost Value = { List Op };

    ghost view = { λ w. w.seen };
}

/// An open query, and the history that ends with its begin.
pub(crate) struct Asking<J: BoardBrand> {
    query: Query,
    at_begin: Prefix<J>,
}

// By hand, so that letting one go is a call: a derived `drop` is written out, and proved, at each way out of each function that owns one.
impl<J: BoardBrand> Drop for Asking<J> {
    fn drop(self) {
        let Asking {
            query: _,
            at_begin: _,
        } = self;
    }
}

impl<J: BoardBrand> Model for Asking<J> {
    ghost use Rattle.pref_share.specs.Standing.{Asking as AskingValue};
    ghost use Rattle.pref_term.specs.PreferenceCode.{coded_question};
    ghost use Rattle.std.specs.Coded.{codes};

    ghost Value = { AskingValue };

    ghost coded = { Prim.hlevel (codes, coded_question) };

    ghost view = { λ a. record { scan = a.query; at_begin = a.at_begin } };
}

/// One client of a board: it counts its numbered calls, and keeps its open query, its reader of the published table, and what it has
/// seen of the history. It may be moved to a thread of its own. The right to make calls of its number is its own: the history holds the
/// calls that it made, and no others of its number.
///
/// A client that is dropped with a query open keeps that query's versions needed.
///
/// ```rust
/// let blocks = client.begin(rt, alloc, board, ask)?;
/// for _ in 0..blocks {
///     client.scan(alloc)?;
/// }
/// let ranked = client.finish(rt, alloc, board)?;
/// ```
pub struct Client<J: BoardBrand> {
    number: u8,
    counter: u64,
    setup: Setup,
    seen: Prefix<J>,
    asking: Option<Asking<J>>,
    // The calls that it has made, with the right to make more.
    page: Page,
    reader: StoreReader,
}

// By hand, so that letting one go is a call: a derived `drop` is written out, and proved, at each way out of each function that owns one.
impl<J: BoardBrand> Drop for Client<J> {
    fn drop(self) {
        let Client {
            number: _,
            counter: _,
            setup: _,
            seen: _,
            asking: _,
            page: _,
            reader: _,
        } = self;
    }
}

impl<J: BoardBrand> Model for Client<J> {
    ghost use Rattle.std.specs.Prelude.{◌≡◌};
    ghost use Rattle.left_right.specs.Sides.{view as view_of};
    ghost use Rattle.pref_share.specs.Openings.{first_contents};
    ghost use Rattle.pref_share.specs.Views.{Knows};
    ghost use Rattle.pref_share.specs.Book.{IsPageOf};
    ghost use Rattle.pref_share.specs.SeenHistory.{Stands};
    ghost use Rattle.pref_share.specs.Standing.{Standing};
    ghost use Rattle.pref_term.specs.PreferenceCode.{coded_question};
    ghost use Rattle.std.specs.Coded.{codes};

    ghost Value = { Standing };

    ghost coded = { Prim.hlevel (codes, coded_question) };

    ghost view = { λ c. record { number = c.number; counter = c.counter; seen = c.seen; query = c.asking } };

    ghost invariant = { λ c. Knows (first_contents J.opening) J.book (view_of c.reader.place) × (c.setup ≡ J.opening.limits) × Stands J.opening c.number c.counter c.seen c.asking × IsPageOf J.book c.number c.counter c.page };
}

impl<J: BoardBrand> Client<J> {
    #[tactic(auto, using(crate::proofs::StandingLaws::stands_new))]
    pub(crate) fn new(
        number: u8,
        setup: Setup,
        seen: Prefix<J>,
        page: Page,
        reader: StoreReader,
    ) -> Client<J>
        requires knows { Knows (first_contents J.opening) J.book (view reader.place) }
        requires number { (0 < number) × (number ≤ setup.clients) }
        requires setup { setup ≡ J.opening.limits }
        requires seen { seen ≡ [] }
        requires page { IsPageOf J.book number 0 page }
        ensures { result ≡ newcomer number }
    {
        let seen = seen.again();
        Client {
            number,
            counter: 0,
            setup,
            seen,
            asking: None,
            page,
            reader,
        }
    }

    /// Its number, from 1 on.
    pub fn number(&self) -> u8
        ensures value { result ≡ self.now.number }
        ensures one_of { (0 < result) × (result ≤ J.opening.limits.clients) }
    {
        self.number
    }

    /// How many numbered calls of all clients it has seen.
    pub fn seen(&self) -> u64
        ensures count { result ≡ length self.now.seen }
        ensures legal { IsLegalFrom J.opening self.now.seen }
    {
        self.seen.len()
    }

    /// A word of all that the client has seen, for other clients to hear. It is eight bytes; takes no memory and never waits.
    ///
    /// ```rust
    /// desk.insert(rt, alloc, board, hotel)?;
    /// let word = desk.word();
    /// ```
    #[must_use]
    pub fn word(&self) -> Word<J>
        ensures { result ≡ self.now.seen }
    {
        Word {
            seen: self.seen.again(),
        }
    }

    /// Hears what another client had seen: from now on it has seen no less, so its later replies are at histories that hold every
    /// numbered call that the speaker had made. Takes no memory and never waits.
    ///
    /// ```rust
    /// desk.insert(rt, alloc, board, hotel)?;
    /// guest.hear(desk.word());
    /// let seen = guest.seen();     // 1
    /// ```
    pub fn hear(&mut self, word: Word<J>)
        ensures sees { Sees J.opening self.old self.new }
        ensures heard { IsPrefix word self.new.seen }
    {
        let Word { seen } = word;
        if self.seen.begins(&seen) {
            self.seen = seen;
        }
    }

    /// Shows that the whole history begins with what it has seen, and holds just the calls that it made.
    pub(crate) fn check(&mut self, publisher: &mut Publisher<J>)
        ensures same { (publisher.new ≡ publisher.old) × (self.new ≡ self.old) }
        ensures within { StandsWithin J.opening publisher.old self.old }
    {
        publisher.check(&self.seen, &mut self.page);
    }
}
