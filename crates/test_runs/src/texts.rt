//! Replies as texts: what the program prints for them behind the client's number.

use pref_core::{Committed, CoreFault, Reply};
use pref_sky::Ranked;
use pref_table::Row;
use std::alloc::{AllocError, Global};

/// A row of an answer: its level, its id and its x.
fn push_ranked(alloc: Global, text: &mut String, ranked: &Ranked) -> Result<(), AllocError> {
    let level = ranked.level;
    let id = ranked.id;
    let value = ranked.row.cell(0);
    text.push_str(format!(in alloc; "\nlevel {level} id {id}: {value}")?.as_str())
}

/// The rows of an answer.
pub fn answer_text(alloc: Global, rows: &[Ranked]) -> Result<String, AllocError> {
    let mut text = counted(alloc, "answer", rows.len() as u64)?;
    for ranked in rows {
        push_ranked(alloc, &mut text, ranked)?;
    }
    Ok(text)
}

fn counted(alloc: Global, word: &str, number: u64) -> Result<String, AllocError> {
    format!(in alloc; "{word} {number}")
}

fn committed_text(alloc: Global, returned: &Committed) -> Result<String, AllocError> {
    let changes = returned.changes;
    let first = returned.first;
    format!(in alloc; "committed {changes} first {first}")
}

fn found_text(alloc: Global, id: u64, row: &Row) -> Result<String, AllocError> {
    let value = row.cell(0);
    format!(in alloc; "row {id}: {value}")
}

/// The number that the program prints of a refusal.
fn number_of(fault: CoreFault) -> u8 {
    match fault {
        CoreFault::NoSuchClient => 1,
        CoreFault::Spent => 2,
        CoreFault::QueryOpen => 3,
        CoreFault::NoQuery => 4,
        CoreFault::AllScanned => 5,
        CoreFault::NotDone { .. } => 6,
        CoreFault::NoSuchRow { .. } => 7,
        CoreFault::Full { .. } => 8,
        CoreFault::OutOfMemory => 9,
        CoreFault::Twice { .. } => 12,
        CoreFault::ChangeCount => 13,
    }
}

pub fn refused_text(alloc: Global, fault: CoreFault) -> Result<String, AllocError> {
    let number = number_of(fault);
    format!(in alloc; "refused {number}: {fault}")
}

pub fn reply_text(alloc: Global, reply: &Reply) -> Result<String, AllocError> {
    match reply {
        Reply::Inserted(id) => counted(alloc, "inserted", *id),
        Reply::Updated(id) => counted(alloc, "updated", *id),
        Reply::Deleted(id) => counted(alloc, "deleted", *id),
        Reply::Committed(returned) => committed_text(alloc, returned),
        Reply::Begun(blocks) => counted(alloc, "begun", u64::from(*blocks)),
        Reply::Left(blocks) => counted(alloc, "left", u64::from(*blocks)),
        Reply::Answer(list) => answer_text(alloc, list.as_slice()),
        Reply::Abandoned => format!(in alloc; "abandoned"),
        Reply::Found(id, row) => found_text(alloc, *id, row),
        Reply::Room(room) => counted(alloc, "room", u64::from(*room)),
        Reply::Refused(fault) => refused_text(alloc, *fault),
    }
}
