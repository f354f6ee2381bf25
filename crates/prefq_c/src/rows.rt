//! The calls on rows, which are acts of client 1.
//!
//! Each answers what was returned: the outcome 0 with the result, -1 with the refusal, or -2 where there was no memory. Then the table is ended, and the handle has
//! none.
ghost use Rattle.std.specs.Prelude.{◌≡◌, ◌≤◌, IfSome, IsSome};
ghost use Rattle.prefq_c.specs.Acts.{Commits, Deletes, Gets, Inserts, InsertsMany, TellsRoom, Updates, UpdatesFirst};
ghost use Rattle.prefq_c.specs.Openings.{HaveRows};
ghost use Rattle.prefq_c.specs.Ends.{Ends};

use crate::answer::end;
use crate::changes::Piece;
use crate::ended::{Ended, Refusal};
use crate::handle::{Handle, take};
use std::alloc::Global;

/// Inserts a row, whose id is the result.
#[unsafe(no_mangle)]
pub extern "C" fn prefq_table_insert(
    alloc: Global,
    handle: &mut Handle,
    numbers: &[i64],
    said: &mut Refusal,
) -> Ended
    requires { IsSome handle.old.value }
    ensures { IfSome handle.old.value (λ before. Ends (Inserts numbers.now before) handle.new.value said.old said.new result) }
{
    let mut table = take(alloc, handle);
    let returned = table.insert(alloc, numbers);
    end(alloc, handle, table, returned, said)
}

/// Inserts `count` rows of these numbers, each of which has `width`: none where there is no room for all of them. Else one after the other, up to one that is
/// refused all the same, as the 2^56th call of a table is. The result is the id of the first one, 0 where there is none.
#[unsafe(no_mangle)]
pub extern "C" fn prefq_table_insert_many(
    alloc: Global,
    handle: &mut Handle,
    count: usize,
    width: usize,
    numbers: &[i64],
    said: &mut Refusal,
) -> Ended
    requires some { IsSome handle.old.value }
    requires rows { count ≤ 65536 → width ≤ 16 → HaveRows width count numbers.now }
    ensures { IfSome handle.old.value (λ before. Ends (InsertsMany count width numbers.now before) handle.new.value said.old said.new result) }
{
    let mut table = take(alloc, handle);
    let returned = table.insert_many(alloc, count, width, numbers);
    end(alloc, handle, table, returned, said)
}

/// Puts another row in place of the one of this id.
#[unsafe(no_mangle)]
pub extern "C" fn prefq_table_update(
    alloc: Global,
    handle: &mut Handle,
    id: u64,
    numbers: &[i64],
    said: &mut Refusal,
) -> Ended
    requires { IsSome handle.old.value }
    ensures { IfSome handle.old.value (λ before. Ends (Updates id numbers.now before) handle.new.value said.old said.new result) }
{
    let mut table = take(alloc, handle);
    let returned = table.update(alloc, id, numbers);
    end(alloc, handle, table, returned, said)
}

/// Deletes the row of this id.
#[unsafe(no_mangle)]
pub extern "C" fn prefq_table_delete(
    alloc: Global,
    handle: &mut Handle,
    id: u64,
    said: &mut Refusal,
) -> Ended
    requires { IsSome handle.old.value }
    ensures { IfSome handle.old.value (λ before. Ends (Deletes id before) handle.new.value said.old said.new result) }
{
    let mut table = take(alloc, handle);
    let returned = table.delete(alloc, id);
    end(alloc, handle, table, returned, said)
}

/// Makes the changes of a commit at one moment. The result is the id of the first row that they add, 0 where they add none.
#[unsafe(no_mangle)]
pub extern "C" fn prefq_table_commit(
    alloc: Global,
    handle: &mut Handle,
    width: usize,
    pieces: &[Piece],
    said: &mut Refusal,
) -> Ended
    requires { IsSome handle.old.value }
    ensures { IfSome handle.old.value (λ before. Ends (Commits width pieces.now before) handle.new.value said.old said.new result) }
{
    let mut table = take(alloc, handle);
    let returned = table.commit(alloc, width, pieces);
    end(alloc, handle, table, returned, said)
}

/// Makes the first of these updates, as many as can be made at one moment. The result is how many they are.
#[unsafe(no_mangle)]
pub extern "C" fn prefq_table_update_first(
    alloc: Global,
    handle: &mut Handle,
    width: usize,
    pieces: &[Piece],
    said: &mut Refusal,
) -> Ended
    requires { IsSome handle.old.value }
    ensures { IfSome handle.old.value (λ before. Ends (UpdatesFirst width pieces.now before) handle.new.value said.old said.new result) }
{
    let mut table = take(alloc, handle);
    let returned = table.update_first(alloc, width, pieces);
    end(alloc, handle, table, returned, said)
}

/// Copies the values of the row of this id.
#[unsafe(no_mangle)]
pub extern "C" fn prefq_table_get(
    alloc: Global,
    handle: &mut Handle,
    id: u64,
    numbers: &mut [i64],
    said: &mut Refusal,
) -> Ended
    requires { IsSome handle.old.value }
    ensures { IfSome handle.old.value (λ before. Ends (Gets id numbers.old numbers.new before) handle.new.value said.old said.new result) }
{
    let table = take(alloc, handle);
    let returned = table.get(id, numbers);
    end(alloc, handle, table, returned, said)
}

/// How many more versions there is room for.
#[unsafe(no_mangle)]
pub extern "C" fn prefq_table_room(alloc: Global, handle: &mut Handle, said: &mut Refusal) -> Ended
    requires { IsSome handle.old.value }
    ensures { IfSome handle.old.value (λ before. Ends (TellsRoom before) handle.new.value said.old said.new result) }
{
    let table = take(alloc, handle);
    let returned = table.room();
    end(alloc, handle, table, returned, said)
}
