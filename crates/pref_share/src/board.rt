//! A board that threads share: how it is opened and closed.

ghost use Rattle.std.specs.Prelude.{◌≡◌, ◌<◌, ◌+◌, [], length, Err, IfOk, IfErr, ◌⊎◌, ◌↔◌};
ghost use Rattle.pref_core.specs.declared.fault.CoreFault as fault;
ghost use Rattle.pref_share.specs.Book.{pages};
ghost use Rattle.pref_share.specs.Openings.{IsLegalFrom};
ghost use Rattle.pref_share.specs.Standing.{newcomers};

use crate::book::{BoardBrand, BoardName, Entries};
use crate::client::Client;
use crate::fault::ShareFault;
use crate::page::Page;
use crate::publisher::Publisher;
use logbook::Pens;
use pref_core::engine::Store;
use pref_core::{CoreFault, Setup};
use pref_table::Row;
use std::alloc::Global;
use std::sync::{Mutex, Wait};

/// A table that its clients share. It is not `Drop`, since the writer to its readers is not: end it by
/// [`close`](Board::close).
///
/// ```rust
/// let (board, clients) = open_board::<J, R>(rt, alloc, name, setup, rows)?;
/// let done = run_clients(rt, &board, clients);
/// board.close(rt);
/// done
/// ```
pub struct Board<J: BoardBrand> {
    pub(crate) publisher: Mutex<Publisher<J>>,
}

impl<J: BoardBrand> Board<J> {
    /// Lets no reader in from now on: clients that read are refused `Closed`. Waits for those that are reading.
    pub fn close<R: Wait>(self, rt: &R) {
        let Board { publisher } = self;
        publisher.into_inner().close(rt);
    }
}

/// Opens a table with these rows under a new name, and returns the board with its clients, in order of number.
///
/// Refused `Full` where there are more rows than slots, else `OutOfMemory`. `Closed` comes where no
/// reader is given or a board was opened under this name before, which cannot be. Nothing is kept then. Cost: two
/// stores of all slots, since readers take two copies in turn, and an index of the rows.
///
/// The function that opens a board is generic over its name, and its caller picks one: `run_board::<Brand, _>(&rt, BoardName::new(), setup, &schema, &hotels)`.
///
/// ```rust
/// let (board, clients) = open_board::<J, R>(rt, alloc, name, setup, rows)?;
/// let done = run_clients(rt, &board, clients);
/// board.close(rt);
/// done
/// ```
#[tactic(auto, using(crate::proofs::ExitLaws::exits))]
pub fn open_board<J: BoardBrand, R: Wait>(
    rt: &R,
    alloc: Global,
    name: BoardName,
    setup: Setup,
    rows: &[Row],
) -> Result<(Board<J>, Vec<Client<J>>), ShareFault>
    requires book { name.seen.book ≡ J.book }
    requires opening { J.opening ≡ record { limits = setup; rows = rows.now } }
    ensures clients { IfOk result (λ r. r.1.items ≡ newcomers setup.clients) }
    ensures full { result ≡ Err (ShareFault.Core (CoreFault.Full (length rows.now))) ↔ (setup.capacity < length rows.now) }
    ensures other { IfErr result (λ fault. (fault ≡ ShareFault.Core CoreFault.OutOfMemory) ⊎ (fault ≡ ShareFault.Closed) ⊎ (setup.capacity < length rows.now)) }
{
    let store = Store::new(alloc, &setup, rows)?;
    let BoardName { mut rights, seen } = name;
    let Some(page) = Page::begin(&mut rights, &seen) else {
        return Err(ShareFault::Closed);
    };
    let mut publisher = Publisher::open(rt, alloc, store, page, setup.clients())?;
    match all_clients(alloc, &mut publisher, &mut rights, &seen, setup) {
        Ok(clients) => Ok((
            Board {
                publisher: Mutex::new(publisher),
            },
            clients,
        )),
        Err(fault) => {
            publisher.close(rt);
            Err(fault)
        }
    }
}

/// The clients, who have seen nothing and made no call.
fn all_clients<J: BoardBrand>(
    alloc: Global,
    publisher: &mut Publisher<J>,
    rights: &mut Pens,
    seen: &Entries,
    setup: Setup,
) -> Result<Vec<Client<J>>, ShareFault>
    requires publisher { publisher.old ≡ [] }
    requires book { (rights.old.book ≡ J.book) × (seen.now.book ≡ J.book) }
    requires rights { (rights.old.next ≡ 1) × (rights.old.next + rights.old.left ≡ pages) }
    requires setup { setup ≡ J.opening.limits }
    ensures clients { IfOk result (λ all. all.items ≡ newcomers setup.clients) }
    ensures other { IfErr result (λ fault. (fault ≡ ShareFault.Core CoreFault.OutOfMemory) ⊎ (fault ≡ ShareFault.Closed)) }
{
    let mut all = Vec::new(alloc);
    for client in 0..setup.clients() {
        let Ok(reader) = publisher.reader() else {
            return Err(ShareFault::Closed);
        };
        let Some(page) = Page::begin(rights, seen) else {
            return Err(ShareFault::Closed);
        };
        let client = Client::new(client + 1, setup, publisher.whole(), page, reader);
        if all.push(client).is_err() {
            return Err(ShareFault::Core(CoreFault::OutOfMemory));
        }
    }
    Ok(all)
}
