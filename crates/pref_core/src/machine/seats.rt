//! A place for a query of each client.

ghost use Rattle.std.specs.Prelude.{◌≡◌, None, IfOk, is_some, replicate};
ghost use Rattle.pref_core.specs.State.{seat, with_seat};
ghost use Rattle.pref_core.specs.MachineParts.{NextIsNewAt, ScansAt, AnswersAt};

use crate::fault::CoreFault;
use crate::query::Query;
use crate::store::Store;
use pref_sky::Ranked;
use std::alloc::{AllocError, Global};

/// Places without a query.
#[tactic(auto, using(std::proofs::lemmas::Grind::common_steps))]
pub(crate) fn no_queries(alloc: Global, clients: u8) -> Result<Vec<Option<Query>>, AllocError>
    ensures { IfOk result (λ v. v.items ≡ replicate clients None) }
{
    let mut queries = Vec::new(alloc);
    for _client in 0..clients {
        queries.push(None)?;
    }
    Ok(queries)
}

/// Whether there is a client of this number.
pub(crate) fn is_client(queries: &[Option<Query>], client: u8) -> bool
    ensures { result ≡ is_some (seat client queries.now) }
{
    let seat = client as usize;
    0 < seat && seat <= queries.len()
}

/// The client's open query is this one from now on.
pub(crate) fn set(queries: &mut [Option<Query>], client: u8, query: Option<Query>)
    ensures { queries.new ≡ with_seat client query queries.old }
{
    let seat = client as usize;
    if 0 < seat && seat <= queries.len() {
        queries[seat - 1] = query;
    }
}

/// The client's query scans a block.
#[tactic(auto, using(crate::proofs::SeatLaws::seat_read, crate::proofs::SeatLaws::written_same))]
pub(crate) fn scan_at(
    queries: &mut [Option<Query>],
    client: u8,
    alloc: Global,
    store: &Store,
) -> Result<u32, CoreFault>
    requires { NextIsNewAt (seat client queries.old) store.now.slots }
    ensures { ScansAt (seat client queries.old) store.now.slots client queries.old result queries.new }
{
    let seat = client as usize;
    if seat == 0 || seat > queries.len() {
        return Err(CoreFault::NoSuchClient);
    }
    match &mut queries[seat - 1] {
        Some(query) => query.scan(alloc, store),
        None => Err(CoreFault::NoQuery),
    }
}

/// The answer of the client's query.
#[tactic(auto, using(crate::proofs::SeatLaws::seat_read))]
pub(crate) fn answer_at(
    queries: &[Option<Query>],
    client: u8,
    alloc: Global,
) -> Result<Vec<Ranked>, CoreFault>
    ensures { AnswersAt (seat client queries.now) result }
{
    let seat = client as usize;
    if seat == 0 || seat > queries.len() {
        return Err(CoreFault::NoSuchClient);
    }
    match &queries[seat - 1] {
        Some(query) => query.answer(alloc),
        None => Err(CoreFault::NoQuery),
    }
}
