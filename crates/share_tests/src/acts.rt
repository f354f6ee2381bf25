//! Rows and acts of clients, and the replies to them as texts.

use pref_core::{Act, Reply};
use pref_table::Row;
use pref_term::{Ask, read_ask};
use std::alloc::{AllocError, Global};
use std::test::Fail;
use test_runs::{Does, act_of, columns, reply_text, row};

/// Three rows, in an array, which takes no memory to keep.
pub fn three_rows(alloc: Global, values: (i64, i64, i64)) -> Result<[Row; 3], Fail> {
    let schema = columns(alloc)?;
    Ok([
        row(&schema, values.0)?,
        row(&schema, values.1)?,
        row(&schema, values.2)?,
    ])
}

/// The question that is asked where none is given.
pub fn best_low(alloc: Global) -> Result<Ask, Fail> {
    Ok(read_ask(alloc, &columns(alloc)?, b"best low(x)")?)
}

pub fn acts_of(alloc: Global, run: &[Does]) -> Result<Vec<Act>, Fail> {
    let mut acts = Vec::new(alloc);
    for does in run {
        acts.push(act_of(alloc, *does)?)?;
    }
    Ok(acts)
}

/// The acts of all clients, client after client.
pub fn lists_of(alloc: Global, runs: &[&[Does]]) -> Result<Vec<Vec<Act>>, Fail> {
    let mut lists = Vec::new(alloc);
    for run in runs {
        lists.push(acts_of(alloc, run)?)?;
    }
    Ok(lists)
}

/// Appends the replies to a client, a line for each.
pub fn push_replies(alloc: Global, text: &mut String, replies: &[Reply]) -> Result<(), AllocError> {
    for reply in replies {
        text.push_str(reply_text(alloc, reply)?.as_str())?;
        text.push('\n')?;
    }
    Ok(())
}

/// The replies to all clients, client after client.
pub fn lists_text(alloc: Global, lists: &[Vec<Reply>]) -> Result<String, Fail> {
    let mut text = String::new(alloc);
    for replies in lists {
        push_replies(alloc, &mut text, replies)?;
    }
    Ok(text)
}
