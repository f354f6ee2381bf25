//! What clients do over a table with the column x alone, and the acts that this is.

use pref_core::{Act, BoxedCommit, Change, Commit, CoreFault, Setup};
use pref_table::{Row, Schema, TableFault};
use pref_term::{TermFault, read_ask};
use std::alloc::Global;
use std::test::Fail;

/// A change of a commit.
#[derive(Clone, Copy)]
pub enum Changes {
    Adds(i64),
    Sets(u64, i64),
    Removes(u64),
}

/// What a client does. A query asks for the rows with the smallest x, or for what its question says.
#[derive(Clone, Copy)]
pub enum Does {
    Inserts(i64),
    Updates(u64, i64),
    Deletes(u64),
    Commits(&'static [Changes]),
    Begins,
    Asks(&'static str),
    Scans,
    Finishes,
    Abandons,
    Gets(u64),
    AsksRoom,
}

/// A setup of numbers that are allowed.
pub fn setup_of(
    clients: u8,
    capacity: u32,
    block: u32,
    window: u32,
) -> Result<Setup, &'static str> {
    Setup::new(clients, capacity, block, window).ok_or("setup")
}

/// The column x alone.
pub fn columns(alloc: Global) -> Result<Schema, TableFault> {
    let names = [b"x".as_slice()];
    Schema::new(alloc, names.as_slice())
}

pub fn row(schema: &Schema, value: i64) -> Result<Row, TableFault> {
    let cells = [value];
    Row::of(schema, cells.as_slice())
}

/// A row of the column x alone, for those who need no schema beside it.
pub fn row_of(alloc: Global, value: i64) -> Result<Row, TableFault> {
    row(&columns(alloc)?, value)
}

/// Rows of the column x alone.
pub fn rows_of(alloc: Global, values: &[i64]) -> Result<Vec<Row>, TableFault> {
    let schema = columns(alloc)?;
    let mut made = Vec::new(alloc);
    for value in values {
        made.push(row(&schema, *value)?)?;
    }
    Ok(made)
}

pub fn change(schema: &Schema, changes: Changes) -> Result<Change, TableFault> {
    Ok(match changes {
        Changes::Adds(value) => Change::Add(row(schema, value)?),
        Changes::Sets(id, value) => Change::Set(id, row(schema, value)?),
        Changes::Removes(id) => Change::Remove(id),
    })
}

pub fn changes_of(
    alloc: Global,
    schema: &Schema,
    list: &[Changes],
) -> Result<Vec<Change>, TableFault> {
    let mut made = Vec::new(alloc);
    for changes in list {
        made.push(change(schema, *changes)?)?;
    }
    Ok(made)
}

pub fn commit_act(alloc: Global, changes: &[Change]) -> Result<Act, CoreFault> {
    let commit = Commit::of(changes)?;
    Ok(Act::Commit(BoxedCommit::new(alloc, commit)?))
}

pub fn begin_act(alloc: Global, schema: &Schema, question: &str) -> Result<Act, TermFault> {
    Ok(Act::Begin(read_ask(alloc, schema, question.as_bytes())?))
}

pub fn act(alloc: Global, schema: &Schema, does: Does) -> Result<Act, Fail> {
    Ok(match does {
        Does::Inserts(value) => Act::Insert(row(schema, value)?),
        Does::Updates(id, value) => Act::Update(id, row(schema, value)?),
        Does::Deletes(id) => Act::Delete(id),
        Does::Commits(list) => commit_act(alloc, &changes_of(alloc, schema, list)?)?,
        Does::Begins => begin_act(alloc, schema, "best low(x)")?,
        Does::Asks(question) => begin_act(alloc, schema, question)?,
        Does::Scans => Act::Scan,
        Does::Finishes => Act::Finish,
        Does::Abandons => Act::Abandon,
        Does::Gets(id) => Act::Get(id),
        Does::AsksRoom => Act::Room,
    })
}

/// The act of what a client does, for those who need no schema beside it.
pub fn act_of(alloc: Global, does: Does) -> Result<Act, Fail> {
    act(alloc, &columns(alloc)?, does)
}
