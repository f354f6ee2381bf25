//! What a call answers of what was returned.
ghost use Rattle.std.specs.Prelude.{◌≡◌, ◌≤◌, ◌<◌, ◌+◌, ◌*◌, None, length, take, Result};
ghost use Rattle.prefq_c.specs.Ends.{Answered, Put, Refused, Returns};
ghost use Rattle.prefq_c.specs.Faults.{behind_number};
ghost use Rattle.prefq_c.specs.Numbers.{row_numbers, rows_numbers};

use crate::ended::{Ended, OUT_OF_MEMORY, REFUSED, Refusal, done};
use crate::fault::{Fault, refusal_numbers, refusal_text};
use crate::handle::{Handle, freeze};
use crate::table::Table;
use pref_sky::Ranked;
use pref_table::Row;
use std::alloc::Global;

/// Puts a text and a zero behind it at the head of an array, as far as both fit.
pub fn put_text(text: &[u8], array: &mut [u8])
    requires { 0 < length array.old }
    ensures { Put text.now array.old array.new }
{
    let count = text.len().min(array.len() - 1);
    array[..count].copy_from_slice(&text[..count]);
    array[count] = 0;
}

/// What stands behind a number, a colon and a blank.
fn behind_number(number: u32, text: &[u8]) -> &[u8]
    ensures { result.now ≡ behind_number number text.now }
{
    let head = if number < 10 { 3 } else { 4 };
    &text[text.len().min(head)..]
}

/// Refuses a call; without its words where there is no memory for them.
pub fn refuse(alloc: Global, why: Fault, said: &mut Refusal) -> Ended
    ensures { Refused why said.old said.new result }
{
    said.why = refusal_numbers(why);
    if let Fault::Memory = why {
        put_text(b"out of memory", &mut said.text);
        return OUT_OF_MEMORY;
    }
    match refusal_text(alloc, why) {
        Ok(text) => put_text(
            behind_number(said.why.number, text.as_bytes()),
            &mut said.text,
        ),
        Err(_) => put_text(b"", &mut said.text),
    }
    REFUSED
}

/// What is answered of what was returned.
fn answer(alloc: Global, returned: Result<u64, Fault>, said: &mut Refusal) -> Ended
    ensures { Answered returned said.old said.new result }
{
    match returned {
        Ok(amount) => done(amount),
        Err(why) => refuse(alloc, why, said),
    }
}

/// The end of a call: the handle gets the table back, unless there was no memory.
pub fn end(
    alloc: Global,
    handle: &mut Handle,
    table: Box<Table>,
    returned: Result<u64, Fault>,
    said: &mut Refusal,
) -> Ended
    requires { handle.old.value ≡ None }
    ensures { Returns returned table.value handle.new.value said.old said.new result }
{
    let ended = answer(alloc, returned, said);
    if ended.outcome != OUT_OF_MEMORY.outcome {
        *handle = freeze(table);
    }
    ended
}

/// Copies the first cells of a row, as many as there are places.
pub fn copy_cells(row: &Row, numbers: &mut [i64])
    requires { length numbers.old ≤ 16 }
    ensures { numbers.new ≡ take (length numbers.old) row.now }
{
    for col in 0..numbers.len() {
        numbers[col] = row.cell(col);
    }
}

/// Puts the numbers of a row of an answer into an array of so many places.
fn put_row(width: usize, ranked: &Ranked, numbers: &mut [i64])
    requires width { width ≤ 16 }
    requires room { length numbers.old ≡ 2 + width }
    ensures { numbers.new ≡ row_numbers width ranked.now }
{
    numbers[0] = i64::from(ranked.level);
    numbers[1] = ranked.id.cast_signed();
    copy_cells(&ranked.row, &mut numbers[2..]);
}

/// Puts the numbers of an answer into an array of so many places.
#[tactic(auto, using(crate::proofs::NumbersLaws::row_inside))]
pub fn put_rows(width: usize, rows: &[Ranked], numbers: &mut [i64])
    requires width { width ≤ 16 }
    requires room { length numbers.old ≡ length rows.now * (2 + width) }
    ensures { numbers.new ≡ rows_numbers width rows.now }
{
    let mut at = 0;
    for ranked in rows {
        put_row(width, ranked, &mut numbers[at..at + 2 + width]);
        at += 2 + width;
    }
}
