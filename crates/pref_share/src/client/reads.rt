//! Reads of the published table by a client: they take no lock and never wait.
//!
//! Each numbered call publishes before it lets the lock go, and a client has seen no more than was published. So no run meets a copy that
//! is older than what its client has seen; where one did, the read would be refused and nothing changed.

ghost use Rattle.std.specs.Prelude.{◌≡◌, ◌<◌, ◌-◌, length, Some, IfOk, IfErr, IfSome, MatchResult};
ghost use Rattle.std.specs.Fn.{FnOnceReturnsAt};
ghost use Rattle.std.specs.Option.{option_map};
ghost use mathlib.Core.List.{IsPrefix};
ghost use Rattle.left_right.specs.Sides.{view};
ghost use Rattle.pref_core.specs.Scans.{Reads};
ghost use Rattle.pref_core.specs.Slots.{StandsFor};
ghost use Rattle.pref_core.specs.State.{State, needed};
ghost use Rattle.pref_core.specs.Table.{line_of};
ghost use Rattle.pref_share.specs.Openings.{IsLegalFrom, first_contents, contents_at};
ghost use Rattle.pref_share.specs.Clients.{Sees};
ghost use Rattle.pref_share.specs.ClientReads.{Scanned, HasMore, RefusesScan, RefusesGet, room_at, row_after};
ghost use Rattle.pref_share.specs.Views.{Knows, HoldsHistory};
ghost use Rattle.pref_share.specs.declared.fault.ShareFault.TheVariants.{Closed};

use crate::book::BoardBrand;
use crate::client::Client;
use crate::fault::ShareFault;
use crate::history::Prefix;
use crate::published::{Published, ReadStep, StoreReader, StoreReading};
use core::mem::replace_with;
use pref_core::CoreFault;
use pref_core::engine::Store;
use pref_sky::Entry;
use pref_table::Row;
use std::alloc::Global;

/// The history of the published table, where it begins with what was seen.
fn history_of<J: BoardBrand>(published: &Published, seen: &Prefix<J>) -> Option<Prefix<J>>
    requires stands { HoldsHistory (first_contents J.opening) J.book published.now }
    requires legal { IsLegalFrom J.opening seen.now }
    ensures { IfSome result (λ now. IsPrefix seen.now now × IsLegalFrom J.opening now × (published.now.store ≡ contents_at J.opening now)) }
{
    let now = Prefix::of(published.len, &published.seen);
    if seen.begins(&now) { Some(now) } else { None }
}

/// The published table to read from, with its history. The reader comes back where it is not let in, or where the history does not
/// begin with what was seen.
fn enter<J: BoardBrand>(
    reader: StoreReader,
    seen: &Prefix<J>,
) -> Result<(StoreReading, Prefix<J>), StoreReader>
    requires knows { Knows (first_contents J.opening) J.book (view reader.place) }
    requires legal { IsLegalFrom J.opening seen.now }
    ensures { MatchResult result (λ entered. (view entered.0.place ≡ view reader.place) × IsPrefix seen.now entered.1 × IsLegalFrom J.opening entered.1 × (entered.0.part.value.store ≡ contents_at J.opening entered.1)) (λ back. view back.place ≡ view reader.place) }
{
    let reading = reader.enter_as::<ReadStep>()?;
    match history_of(reading.get(), seen) {
        Some(now) => Ok((reading, now)),
        None => Err(reading.leave()),
    }
}

/// The result of a look at the published table, with the table's history, where a reader is let in. The reader is back outside when this
/// returns, so that the writer need not wait while the result is used.
fn read<J: BoardBrand, T, F: FnOnce(&Store) -> T>(
    reader: &mut StoreReader,
    seen: &Prefix<J>,
    look: F,
) -> Option<(Prefix<J>, T)>
    requires knows { Knows (first_contents J.opening) J.book (view reader.old.place) }
    requires legal { IsLegalFrom J.opening seen.now }
    requires look { F.IsAlwaysCallable look }
    ensures view { view reader.new.place ≡ view reader.old.place }
    ensures found { IfSome result (λ found. IsPrefix seen.now found.0 × IsLegalFrom J.opening found.0 × FnOnceReturnsAt F.FnOnce look (contents_at J.opening found.0) found.1) }
{
    replace_with(
        reader,
        look,
        |reader: StoreReader, look: F| -> (StoreReader, Option<(Prefix<J>, T)>)
            requires { Knows (first_contents J.opening) J.book (view reader.place) × IsLegalFrom J.opening seen.now × F.IsAlwaysCallable look }
            ensures { (view result.0.place ≡ view reader.place) × IfSome result.1 (λ found. IsPrefix seen.entry.now found.0 × IsLegalFrom J.opening found.0 × FnOnceReturnsAt F.FnOnce look (contents_at J.opening found.0) found.1) }
        { read_at(reader, seen, look) },
    )
}

/// [`read`] with a reader that is handed over and back.
fn read_at<J: BoardBrand, T, F: FnOnce(&Store) -> T>(
    reader: StoreReader,
    seen: &Prefix<J>,
    look: F,
) -> (StoreReader, Option<(Prefix<J>, T)>)
    requires knows { Knows (first_contents J.opening) J.book (view reader.place) }
    requires legal { IsLegalFrom J.opening seen.now }
    requires look { F.IsAlwaysCallable look }
    ensures view { view result.0.place ≡ view reader.place }
    ensures found { IfSome result.1 (λ found. IsPrefix seen.now found.0 × IsLegalFrom J.opening found.0 × FnOnceReturnsAt F.FnOnce look (contents_at J.opening found.0) found.1) }
{
    let (reading, now) = match enter(reader, seen) {
        Ok(entered) => entered,
        Err(reader) => return (reader, None),
    };
    let found = look(&reading.get().store);
    (reading.leave(), Some((now, found)))
}

impl<J: BoardBrand> Client<J> {
    /// The row of this id in the table. Takes no lock, no memory, and never waits.
    ///
    /// Refused `NoSuchRow`, or `Closed` where no reader is let in, and then nothing has changed.
    ///
    /// ```rust
    /// let price = client.get(id)?.cell(0);     // 80
    /// ```
    pub fn get(&mut self, id: u64) -> Result<Row, ShareFault>
        ensures row { IfOk result (λ row. Sees J.opening self.old self.new × (row_after J.opening self.new.seen id ≡ Some row)) }
        ensures refused { IfErr result (λ fault. RefusesGet J.opening self.old id fault self.new) }
    {
        let found = read(
            &mut self.reader,
            &self.seen,
            |store: &Store| -> Option<Row>
                ensures { (state : State) → StandsFor store.now state → result ≡ option_map (λ line. line.row) (line_of state.table id) }
            { store.get(id) },
        );
        let Some((now, row)) = found else {
            return Err(ShareFault::Closed);
        };
        self.seen = now;
        match row {
            Some(row) => Ok(row),
            None => Err(ShareFault::Core(CoreFault::NoSuchRow { id })),
        }
    }

    /// How many more versions there is room for. Takes no lock, no memory, and never waits.
    ///
    /// Refused `Closed` where no reader is let in, and then nothing has changed.
    ///
    /// ```rust
    /// let is_full = client.room()? == 0;     // false
    /// ```
    pub fn room(&mut self) -> Result<u32, ShareFault>
        ensures room { IfOk result (λ room. Sees J.opening self.old self.new × (room ≡ room_at J.opening self.new.seen)) }
        ensures refused { IfErr result (λ fault. (fault ≡ Closed) × (self.new ≡ self.old)) }
    {
        let found = read(
            &mut self.reader,
            &self.seen,
            |store: &Store| -> u32
                ensures { (state : State) → StandsFor store.now state → result ≡ length store.now.slots - length (needed state) }
            { store.room() },
        );
        let Some((now, room)) = found else {
            return Err(ShareFault::Closed);
        };
        self.seen = now;
        Ok(room)
    }

    /// Scans the next block for the open query, and returns how many are left. Takes no lock and never waits.
    ///
    /// Refused `NoQuery` or `AllScanned`, then `OutOfMemory` or `Closed`; the query is as it was then.
    ///
    /// ```rust
    /// for _ in 0..blocks {
    ///     client.scan(alloc)?;
    /// }
    /// ```
    #[tactic(auto, using(crate::proofs::ViewsLaws::still_knows))]
    pub fn scan(&mut self, alloc: Global) -> Result<u32, ShareFault>
        ensures scanned { IfOk result (λ left. Scanned J.opening self.old left self.new) }
        ensures refused { IfErr result (λ fault. RefusesScan J.opening self.old fault self.new) }
    {
        let Some(asking) = &mut self.asking else {
            return Err(ShareFault::Core(CoreFault::NoQuery));
        };
        if asking.query.left() == 0 {
            return Err(ShareFault::Core(CoreFault::AllScanned));
        }
        let query = &asking.query;
        let found = read(
            &mut self.reader,
            &self.seen,
            |store: &Store| -> Result<Vec<Entry>, CoreFault>
                ensures { Reads query.entry.now store.now.slots result }
            { query.read(alloc, store) },
        );
        let Some((now, block)) = found else {
            return Err(ShareFault::Closed);
        };
        now.count(&mut self.page);
        self.seen = now;
        let Ok(shown) = block else {
            return Err(ShareFault::Core(CoreFault::OutOfMemory));
        };
        match asking.query.add(alloc, &shown) {
            Ok(left) => Ok(left),
            Err(_) => Err(ShareFault::Core(CoreFault::OutOfMemory)),
        }
    }
}
