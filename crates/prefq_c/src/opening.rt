//! The calls that open and close a table.
//!
//! An opening answers the outcome 0 with the number of columns, -1 with the refusal, or -2 where there was no memory.
ghost use Rattle.std.specs.Prelude.{◌≡◌, ◌≤◌, None, IsSome};
ghost use Rattle.pref_table.specs.Tables.{table_of};
ghost use Rattle.prefq_c.specs.Openings.{Gives, HaveRows, OpensIn, feeds, limits_of, numbers_table};

use crate::answer::refuse;
use crate::ended::{Ended, Refusal, done};
use crate::fault::Fault;
use crate::handle::{Handle, freeze, take};
use crate::sizes::Sizes;
use crate::table::Table;
use std::alloc::Global;

/// The end of an opening: the handle gets the table.
fn give(
    alloc: Global,
    opened: Result<Table, Fault>,
    handle: &mut Handle,
    said: &mut Refusal,
) -> Ended
    ensures { Gives opened handle.old.value handle.new.value said.old said.new result }
{
    let table = match opened {
        Ok(table) => table,
        Err(why) => return refuse(alloc, why, said),
    };
    let width = table.live.schema.width() as u64;
    match Box::new(alloc, table) {
        Ok(table) => {
            *handle = freeze(table);
            done(width)
        }
        Err(_) => refuse(alloc, Fault::Memory, said),
    }
}

/// Opens the table of a text, which is between the lines `table` and `end` of a script, in a handle that has none. Its first line is line 1.
#[unsafe(no_mangle)]
pub extern "C" fn prefq_table_open(
    alloc: Global,
    handle: &mut Handle,
    sizes: &Sizes,
    text: &[u8],
    said: &mut Refusal,
) -> Ended
    ensures { OpensIn (limits_of sizes.now (feeds text.now)) (table_of text.now) handle.old.value handle.new.value said.old said.new result }
{
    give(alloc, Table::open(alloc, sizes, text), handle, said)
}

/// Opens the table of a header, which is the first line of a table text, and of `count` rows of these numbers, each of which has `width`.
#[unsafe(no_mangle)]
pub extern "C" fn prefq_table_open_rows(
    alloc: Global,
    handle: &mut Handle,
    sizes: &Sizes,
    header: &[u8],
    count: usize,
    width: usize,
    numbers: &[i64],
    said: &mut Refusal,
) -> Ended
    requires { count ≤ 65536 → width ≤ 16 → HaveRows width count numbers.now }
    ensures { OpensIn (limits_of sizes.now count) (numbers_table header.now count width numbers.now) handle.old.value handle.new.value said.old said.new result }
{
    give(
        alloc,
        Table::open_rows(alloc, sizes, header, count, width, numbers),
        handle,
        said,
    )
}

/// Ends a table, and gives back its memory.
#[unsafe(no_mangle)]
pub extern "C" fn prefq_table_close(alloc: Global, handle: &mut Handle)
    requires { IsSome handle.old.value }
    ensures { handle.new.value ≡ None }
{
    let _table = take(alloc, handle);
}
