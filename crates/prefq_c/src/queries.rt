//! The calls on queries. They end as those on rows do.
ghost use Rattle.std.specs.Prelude.{◌≡◌, ◌+◌, ◌*◌, [], IfSome, IsSome, Some, length, min};
ghost use Rattle.prefq_c.specs.Acts.{Abandons, Begins, BeginsAll, Finishes, Scans, answer_numbers, width_of};
ghost use Rattle.prefq_c.specs.Ends.{Ends};

use crate::answer::end;
use crate::ended::{Ended, Refusal};
use crate::handle::{Handle, freeze, take};
use std::alloc::Global;

/// Begins a client's query of a question text. The result is how many blocks it has to scan.
#[unsafe(no_mangle)]
pub extern "C" fn prefq_table_begin(
    alloc: Global,
    handle: &mut Handle,
    client: u32,
    text: &[u8],
    said: &mut Refusal,
) -> Ended
    requires { IsSome handle.old.value }
    ensures { IfSome handle.old.value (λ before. Ends (Begins (min client 255) text.now before) handle.new.value said.old said.new result) }
{
    let mut table = take(alloc, handle);
    let returned = table.begin(alloc, client.min(255) as u8, text);
    end(alloc, handle, table, returned, said)
}

/// Begins a client's query of all rows, which all have level 1. The result is how many blocks it has to scan.
#[unsafe(no_mangle)]
pub extern "C" fn prefq_table_begin_all(
    alloc: Global,
    handle: &mut Handle,
    client: u32,
    said: &mut Refusal,
) -> Ended
    requires { IsSome handle.old.value }
    ensures { IfSome handle.old.value (λ before. Ends (BeginsAll (min client 255) before) handle.new.value said.old said.new result) }
{
    let mut table = take(alloc, handle);
    let returned = table.begin_all(alloc, client.min(255) as u8);
    end(alloc, handle, table, returned, said)
}

/// Scans the next block of a client's query. The result is how many are left.
#[unsafe(no_mangle)]
pub extern "C" fn prefq_table_scan(
    alloc: Global,
    handle: &mut Handle,
    client: u32,
    said: &mut Refusal,
) -> Ended
    requires { IsSome handle.old.value }
    ensures { IfSome handle.old.value (λ before. Ends (Scans (min client 255) before) handle.new.value said.old said.new result) }
{
    let mut table = take(alloc, handle);
    let returned = table.scan(alloc, client.min(255) as u8);
    end(alloc, handle, table, returned, said)
}

/// Ends a client's query with its answer. The result is how many rows that has; `prefq_table_answer` copies it.
#[unsafe(no_mangle)]
pub extern "C" fn prefq_table_finish(
    alloc: Global,
    handle: &mut Handle,
    client: u32,
    said: &mut Refusal,
) -> Ended
    requires { IsSome handle.old.value }
    ensures { IfSome handle.old.value (λ before. Ends (Finishes (min client 255) before) handle.new.value said.old said.new result) }
{
    let mut table = take(alloc, handle);
    let returned = table.finish(alloc, client.min(255) as u8);
    end(alloc, handle, table, returned, said)
}

/// Copies the answer that was asked for last: for each row its level, its id and its values. The table has it no more then.
#[unsafe(no_mangle)]
pub extern "C" fn prefq_table_answer(alloc: Global, handle: &mut Handle, numbers: &mut [i64])
    requires some { IsSome handle.old.value }
    requires room { IfSome handle.old.value (λ table. length numbers.old ≡ length table.answer * (2 + width_of table)) }
    ensures { IfSome handle.old.value (λ before. (numbers.new ≡ answer_numbers before) × (handle.new.value ≡ Some (record before { answer = [] }))) }
{
    let mut table = take(alloc, handle);
    table.hand_over(alloc, numbers);
    *handle = freeze(table);
}

/// Ends a client's query without an answer.
#[unsafe(no_mangle)]
pub extern "C" fn prefq_table_abandon(
    alloc: Global,
    handle: &mut Handle,
    client: u32,
    said: &mut Refusal,
) -> Ended
    requires { IsSome handle.old.value }
    ensures { IfSome handle.old.value (λ before. Ends (Abandons (min client 255) before) handle.new.value said.old said.new result) }
{
    let mut table = take(alloc, handle);
    let returned = table.abandon(client.min(255) as u8);
    end(alloc, handle, table, returned, said)
}
