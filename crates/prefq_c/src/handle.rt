//! A table as a pointer that a program of another language keeps.
ghost use Rattle.std.specs.Prelude.{◌≡◌, Option, None, Some, IsSome};
ghost use Rattle.std.specs.Coded.{codes};
ghost use Rattle.pref_term.specs.PreferenceCode.{coded_question};
ghost use Rattle.prefq_c.specs.declared.table.Table.{Table};

use crate::table::Table;
use std::alloc::Global;
use std::marker::Model;
use std::{mem, ptr};

/// A table in memory, or none, where the pointer is null. To C it is a struct of one pointer, which it only keeps and hands back.
#[repr(C)]
#[derive(Drop)]
pub struct Handle {
    at: *mut u8,
    pub ghost value: { Option Table } by { Prim.hlevel (codes, coded_question) },
}

impl Model for Handle {
    ghost use Rattle.prefq_c.specs.Held.{held};
    ghost use Rattle.prefq_c.specs.contracts.table.Table.{the_row};

    ghost also_owns = { λ handle. held the_row handle.at handle.value };
}

/// A handle of no table.
pub fn none() -> Handle
    ensures { result.value ≡ None }
{
    Handle {
        at: ptr::null_mut(),
    }
}

/// A handle of this table.
pub fn freeze(table: Box<Table>) -> Handle
    ensures { result.value ≡ Some table.value }
{
    let at: *mut Table = Box::into_raw(table);
    Handle { at: at as *mut u8 }
}

/// The table of a handle.
pub fn thaw(alloc: Global, handle: Handle) -> Box<Table>
    requires { IsSome handle.value }
    ensures { handle.value ≡ Some result.value }
{
    let Handle { at } = handle;
    unsafe { Box::from_raw(alloc, at as *mut Table) }
}

/// Takes the table out of a handle.
pub fn take(alloc: Global, handle: &mut Handle) -> Box<Table>
    requires { IsSome handle.old.value }
    ensures table { handle.old.value ≡ Some result.value }
    ensures left { handle.new.value ≡ None }
{
    thaw(alloc, mem::replace(handle, none()))
}
