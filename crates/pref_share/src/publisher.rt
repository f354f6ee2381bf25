//! The part of a board under its lock: the whole history, an index of the rows that it leaves, and the writer that publishes it.
//!
//! ```text
//!                     readers enter       the other copy      the writer's log
//! between two calls   X: calls 1 to 7     Y: calls 1 to 6     7
//! call 8 joins        X: calls 1 to 7     Y: calls 1 to 6     7 8
//! no one is in Y      X: calls 1 to 7     Y: calls 1 to 8     8
//! it is published     Y: calls 1 to 8     X: calls 1 to 7     8
//! ```
//!
//! A reader that is in a copy keeps it from the writer until it leaves, and takes no lock: a call waits for those
//! alone that went in before the last call was published. So each copy does each call, one before it is published
//! and the other at the next call.

ghost use Rattle.std.specs.Prelude.{◌≡◌, suc, ◌++◌, ◌∷◌, ◌<◌, ◌≤◌, ◌⊎◌, [], length, drop, fold, nat_lt, true, Some, IfOk, IfErr};
ghost use mathlib.Core.List.{IsPrefix};
ghost use Rattle.left_right.specs.Sides.{view};
ghost use Rattle.pref_core.specs.declared.fault.CoreFault.TheVariants.{OutOfMemory};
ghost use Rattle.pref_core.specs.Planned.{boxed_op};
ghost use Rattle.pref_core.specs.State.{added, refusal};
ghost use Rattle.pref_share.specs.SeenHistory.{IsAppended, IsTurn};
ghost use Rattle.pref_share.specs.Book.{IsPageOf, count_by, history_page, ops_of};
ghost use Rattle.pref_share.specs.Openings.{IsLegalFrom, first_contents, contents_at, state_at};
ghost use Rattle.pref_share.specs.Views.{stamped, HoldsHistory, Knows};

use crate::book::BoardBrand;
use crate::history::Prefix;
use crate::page::Page;
use crate::published::{
    GiveView, OpenStep, PublishStep, Published, Stamp, StoreReader, StoreWriter, TakeView,
};
use core::mem::replace_with;
use pref_core::CoreFault;
use pref_core::engine::{BoxedCall, BoxedOp, Index, Outcome, Planned, SlotList, Store};
use std::alloc::{AllocError, Global};
use std::marker::{Model, PhantomData};
use std::mem::ManuallyDrop;
use std::sync::Wait;

/// The whole history, the index of the published store, and the writer: the published store, which is what the history leaves, is the
/// copy that the writer has published. Contracts see the history.
pub(crate) struct Publisher<J: BoardBrand> {
    // The page of the history: who has it alone may add to it, and only the calls of clients whose pages are lent.
    page: Page,
    index: Index,
    // A lock may hold only what is dropped or needs no drop; `close` takes the writer out.
    writer: ManuallyDrop<StoreWriter>,
    of: PhantomData<J>,
}

impl<J: BoardBrand> Model for Publisher<J> {
    ghost use Rattle.std.specs.Prelude.{◌≡◌, List, [], drop};
    ghost use Rattle.core.specs.Mem.{manually_drop_value};
    ghost use Rattle.left_right.specs.Sides.{view as view_of};
    ghost use Rattle.pref_core.specs.declared.call.Op.{Op};
    ghost use Rattle.pref_core.specs.Indexes.{IsIndexOf};
    ghost use Rattle.pref_share.specs.Book.{history_page, ops_of};
    ghost use Rattle.pref_share.specs.Openings.{IsLegalFrom, first_contents, contents_at};
    ghost use Rattle.pref_share.specs.Views.{HoldsHistory, Knows};

    ghost Value = { List Op };

    ghost view = { λ m. m.page.ops };

    ghost invariant = { λ m. (m.page.number ≡ history_page) × (m.page.book ≡ J.book) × IsLegalFrom J.opening m.page.ops × IsIndexOf (contents_at J.opening m.page.ops) m.index × (ops_of (manually_drop_value m.writer).desk.shown.value.seen.log ≡ m.page.ops) × HoldsHistory (first_contents J.opening) J.book (manually_drop_value m.writer).desk.shown.value × Knows (first_contents J.opening) J.book (view_of (manually_drop_value m.writer).desk.place) × (drop (manually_drop_value m.writer).behind (manually_drop_value m.writer).log.items ≡ []) };
}

/// Lets the writer know what the board opens with. What is pending changes nothing.
fn open_with<R: Wait>(rt: &R, writer: StoreWriter) -> StoreWriter
    requires pending { fold stamped writer.desk.shown.value (drop writer.behind writer.log.items) ≡ writer.desk.shown.value }
    requires empty { ops_of writer.desk.shown.value.seen.log ≡ [] }
    ensures knows { Knows writer.desk.shown.value.store writer.desk.shown.value.seen.book (view result.desk.place) }
    ensures shown { result.desk.shown.value ≡ writer.desk.shown.value }
    ensures pending { drop result.behind result.log.items ≡ [] }
{
    let (writer, opened) = writer.publish_as::<OpenStep, R>(rt);
    let Ok(()) = opened else { unreachable!() };
    writer
}

/// How many stamps that change nothing make the room.
const KEPT: usize = 3;

/// Makes room for the stamps of later calls, by stamps that change nothing. The room stays, so later calls need not grow it.
fn with_room(mut writer: StoreWriter) -> Result<StoreWriter, StoreWriter>
    requires empty { writer.desk.shown.value.len ≡ 0 }
    requires pending { drop writer.behind writer.log.items ≡ [] }
    ensures shown { IfOk result (λ w. w.desk.shown.value ≡ writer.desk.shown.value) }
    ensures pending { IfOk result (λ w. fold stamped w.desk.shown.value (drop w.behind w.log.items) ≡ w.desk.shown.value) }
{
    for _ in 0..KEPT {
        // An operation that no store lets in.
        let nothing = BoxedOp {
            client: 0,
            number: 0,
            call: BoxedCall::begin(),
            slots: SlotList::NONE,
            outcome: Outcome::Done,
        };
        let blank = Stamp {
            op: nothing,
            len: 0,
            seen: writer.published().seen.again(),
        };
        if writer.append(blank).is_err() {
            return Err(writer);
        }
    }
    Ok(writer)
}

/// The store that readers take now.
fn published_store(writer: &StoreWriter) -> &Store
    ensures { result.now ≡ writer.now.desk.shown.value.store }
{
    &writer.published().store
}

/// The history that the published store represents.
fn published_history<J: BoardBrand>(writer: &StoreWriter) -> Prefix<J>
    requires stands { HoldsHistory (first_contents J.opening) J.book writer.now.desk.shown.value }
    requires legal { IsLegalFrom J.opening (ops_of writer.now.desk.shown.value.seen.log) }
    ensures { result ≡ ops_of writer.now.desk.shown.value.seen.log }
{
    let published = writer.published();
    Prefix::of(published.len, &published.seen)
}

/// Publishes what is pending.
fn publish<J: BoardBrand, R: Wait>(rt: &R, writer: StoreWriter) -> StoreWriter
    requires knows { Knows (first_contents J.opening) J.book (view writer.desk.place) }
    requires stands { HoldsHistory (first_contents J.opening) J.book (fold stamped writer.desk.shown.value (drop writer.behind writer.log.items)) }
    ensures view { view result.desk.place ≡ view writer.desk.place }
    ensures shown { result.desk.shown.value ≡ fold stamped writer.desk.shown.value (drop writer.behind writer.log.items) }
    ensures pending { drop result.behind result.log.items ≡ [] }
{
    let (writer, published) = writer.publish_as::<PublishStep, R>(rt);
    let Ok(()) = published else { unreachable!() };
    writer
}

/// Appends the stamp of an operation. Where there is no memory for it, waits until there is: the operation has joined the history.
fn append<R: Wait>(rt: &R, writer: &mut StoreWriter, mut stamp: Stamp)
    ensures desk { writer.new.desk ≡ writer.old.desk }
    ensures pending { drop writer.new.behind writer.new.log.items ≡ drop writer.old.behind writer.old.log.items ++ stamp ∷ [] }
{
    for _ in rt.forever() {
        match writer.append(stamp) {
            Ok(()) => return,
            Err(back) => stamp = back,
        }
    }
    unreachable!()
}

impl<J: BoardBrand> Publisher<J> {
    /// Publishes the store as it is opened, to this many readers.
    #[tactic(auto, using(crate::proofs::ExitLaws::exits))]
    pub(crate) fn open<R: Wait>(
        rt: &R,
        alloc: Global,
        store: Store,
        page: Page,
        readers: u8,
    ) -> Result<Publisher<J>, AllocError>
        requires opening { store ≡ first_contents J.opening }
        requires legal { IsLegalFrom J.opening [] }
        requires page { page ≡ record { number = history_page; ops = []; book = J.book } }
        requires readers { 0 < readers }
        ensures { IfOk result (λ m. m ≡ []) }
    {
        let index = Index::new(alloc, &store)?;
        let second = Published {
            store: store.copy(alloc)?,
            len: 0,
            seen: page.entries(),
        };
        let first = Published {
            store,
            len: 0,
            seen: second.seen.again(),
        };
        let writer = StoreWriter::new(alloc, first, second, readers as usize)?;
        match with_room(writer) {
            Ok(writer) => Ok(Publisher {
                page,
                index,
                writer: unsafe { ManuallyDrop::new_unchecked(open_with(rt, writer)) },
                of: PhantomData,
            }),
            Err(writer) => {
                drop(writer.take(rt));
                Err(AllocError)
            }
        }
    }

    /// The published store. It is the newest, since between two calls no change is pending.
    fn store(&self) -> &Store
        ensures left { result.now ≡ contents_at J.opening self.now }
        ensures legal { IsLegalFrom J.opening self.now }
    {
        published_store(&*self.writer)
    }

    /// The history.
    pub(crate) fn whole(&self) -> Prefix<J>
        ensures same { result ≡ self.now }
        ensures legal { IsLegalFrom J.opening self.now }
    {
        published_history(&*self.writer)
    }

    /// Shows that the history begins with what a client has seen, and holds no more calls of it than stand on its page.
    pub(crate) fn check(&mut self, seen: &Prefix<J>, page: &mut Page)
        requires book { page.old.book ≡ J.book }
        requires client { 0 < page.old.number }
        ensures same { (self.new ≡ self.old) × (page.new ≡ page.old) }
        ensures turn { IsTurn J.opening page.old.number (length page.old.ops) seen.now self.old }
    {
        self.page.check(seen.entries());
        self.whole().count(page);
    }

    /// How many commits there were.
    pub(crate) fn stamp(&self) -> u64
        ensures { result ≡ (state_at J.opening self.now).commits }
    {
        self.store().stamp()
    }

    /// A reader that knows the board.
    pub(crate) fn reader(&mut self) -> Result<StoreReader, AllocError>
        ensures kept { self.new ≡ self.old }
        ensures knows { IfOk result (λ r. Knows (first_contents J.opening) J.book (view r.place)) }
    {
        let mut reader = self.writer.factory().reader()?;
        reader.learn::<TakeView>(self.writer.tell::<GiveView>());
        Ok(reader)
    }

    /// A call joins the history by the page of its client, and is published, planned by the index on the published store. It gives the
    /// outcome. `Err` is why it gets no number, or that there is no memory for the places of new rows in the index, which only a call
    /// that adds a row meets; nothing has changed then.
    pub(crate) fn join<R: Wait>(
        &mut self,
        rt: &R,
        alloc: Global,
        client: u8,
        page: &mut Page,
        call: BoxedCall,
    ) -> Result<Outcome, CoreFault>
        requires page { IsPageOf J.book client (length page.old.ops) page.old }
        requires few { count_by client self.old ≤ length page.old.ops }
        ensures joined { IfOk result (λ outcome. IsAppended J.opening self.old client call outcome self.new) }
        ensures refused { IfErr result (λ fault. (refusal (state_at J.opening self.old) client call ≡ Some fault) ⊎ ((fault ≡ OutOfMemory) × (nat_lt 0 (added call) ≡ true))) }
        ensures same { IfErr result (λ fault. (self.new ≡ self.old) × (page.new ≡ page.old)) }
        ensures page { IfOk result (λ outcome. IsPageOf J.book client (suc (length page.old.ops)) page.new) }
    {
        let lent = call.lend();
        let store = published_store(&*self.writer);
        let op = match store.look_up(&self.index, client, &lent) {
            Ok(op) => op,
            Err(fault) => return Err(fault),
        };
        store.reindex(alloc, &mut self.index, &op)?;
        self.page.add(&op, page);
        let Planned {
            client,
            number,
            slots,
            outcome,
            call: _,
        } = op;
        let len = self.writer.published().len + 1;
        let stamp = Stamp {
            op: BoxedOp {
                client,
                number,
                call,
                slots,
                outcome,
            },
            len,
            seen: self.page.entries(),
        };
        append(rt, &mut *self.writer, stamp);
        replace_with(
            &mut *self.writer,
            rt,
            |writer: StoreWriter, rt: &R| -> (StoreWriter, ())
                requires { Knows (first_contents J.opening) J.book (view writer.desk.place) × HoldsHistory (first_contents J.opening) J.book (fold stamped writer.desk.shown.value (drop writer.behind writer.log.items)) }
                ensures { (view result.0.desk.place ≡ view writer.desk.place) × (result.0.desk.shown.value ≡ fold stamped writer.desk.shown.value (drop writer.behind writer.log.items)) × (drop result.0.behind result.0.log.items ≡ []) }
            { (publish::<J, R>(rt, writer), ()) },
        );
        Ok(outcome)
    }

    /// Readers take nothing from now on. Waits for those that are reading.
    pub(crate) fn close<R: Wait>(self, rt: &R) {
        let Publisher {
            page: _page,
            index: _index,
            writer,
            of: _,
        } = self;
        drop(ManuallyDrop::into_inner(writer).take(rt));
    }
}
