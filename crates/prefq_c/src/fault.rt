//! Why a call is refused, in numbers and as a text.
ghost use Rattle.std.specs.Prelude.{◌≡◌, IfOk, string_bytes};
ghost use Rattle.prefq_c.specs.Faults.{act_fault, core_refusal, question_fault, refusal_numbers, refusal_text, table_refusal, term_refusal, values_fault};
ghost use Rattle.prefq_c.specs.Ended.{numbered};
ghost use Rattle.prefq_c.specs.declared.fault.Fault.TheVariants.{Memory};

use crate::ended::{Why, numbered};
use pref_core::CoreFault;
use pref_script::engine::{push_core_fault, push_table_fault, push_term_fault};
use pref_table::TableFault;
use pref_term::TermFault;
use std::alloc::{AllocError, Global};

/// Why a call is refused.
#[derive(Clone, Copy)]
pub enum Fault {
    /// What a client wants cannot be done now.
    Act(CoreFault),
    /// Names or values make no table, or no row of it.
    Values(TableFault),
    /// The question is none.
    Question(TermFault),
    /// The changes are no commit.
    Changes(CoreFault),
    /// There are more opening rows than there is room for.
    Opening(CoreFault),
    /// A number of the setup is outside its range.
    Outside,
    /// The change of this place, from 1 on, is none.
    NoChange { place: u64 },
    /// An update has no values.
    NoValues,
    /// An allocation was refused.
    Memory,
}

impl From<AllocError> for Fault {
    ghost from_gives = { λ _ fault. fault ≡ Memory };

    fn from(_error: AllocError) -> Fault {
        Fault::Memory
    }
}

/// The refusal of a client's act.
impl From<CoreFault> for Fault {
    ghost from_gives = { λ why fault. fault ≡ act_fault why };

    fn from(why: CoreFault) -> Fault {
        match why {
            CoreFault::OutOfMemory => Fault::Memory,
            _ => Fault::Act(why),
        }
    }
}

impl From<TableFault> for Fault {
    ghost from_gives = { λ why fault. fault ≡ values_fault why };

    fn from(why: TableFault) -> Fault {
        match why {
            TableFault::OutOfMemory => Fault::Memory,
            _ => Fault::Values(why),
        }
    }
}

impl From<TermFault> for Fault {
    ghost from_gives = { λ why fault. fault ≡ question_fault why };

    fn from(why: TermFault) -> Fault {
        match why {
            TermFault::OutOfMemory => Fault::Memory,
            _ => Fault::Question(why),
        }
    }
}

/// The kinds of refusals, as prefq.h numbers them.
const CLIENT: u32 = 1;

const TABLE: u32 = 2;

const TERM: u32 = 3;

const COMMIT: u32 = 4;

const OPENING: u32 = 5;

const ARGUMENTS: u32 = 6;

const TABLE_END: u32 = 7;

/// The numbers of a refusal of the engine, which may be about changes or opening rows.
fn core_refusal(kind: u32, why: CoreFault) -> Why
    ensures { result ≡ core_refusal kind why }
{
    match why {
        CoreFault::NoSuchClient => numbered(kind, 1),
        CoreFault::Spent => numbered(kind, 2),
        CoreFault::QueryOpen => numbered(kind, 3),
        CoreFault::NoQuery => numbered(kind, 4),
        CoreFault::AllScanned => numbered(kind, 5),
        CoreFault::NotDone { left } => numbered(kind, 6).of(left),
        CoreFault::NoSuchRow { id } => numbered(kind, 7).of(id),
        CoreFault::Full { needed } => numbered(kind, 8).of(needed),
        CoreFault::OutOfMemory => numbered(kind, 9),
        CoreFault::Twice { place } => numbered(kind, 12).at(place),
        CoreFault::ChangeCount => numbered(kind, 13),
    }
}

/// Those of names and values.
fn table_refusal(why: TableFault) -> Why
    ensures { result ≡ table_refusal why }
{
    match why {
        TableFault::NoColumns => numbered(TABLE, 1),
        TableFault::TooManyColumns => numbered(TABLE, 2),
        TableFault::BadName { col } => numbered(TABLE, 3).at(col),
        TableFault::SameName { col } => numbered(TABLE, 4).at(col),
        TableFault::Width { row } => numbered(TABLE, 5).in_row(row),
        TableFault::NotWhole { row, col } => numbered(TABLE, 6).at(col).in_row(row),
        TableFault::OutOfRange { row, col } => numbered(TABLE, 7).at(col).in_row(row),
        TableFault::TooManyRows => numbered(TABLE, 8),
        TableFault::OutOfMemory => numbered(TABLE, 9),
    }
}

/// Those of a question.
fn term_refusal(why: TermFault) -> Why
    ensures { result ≡ term_refusal why }
{
    match why {
        TermFault::Unexpected { at } => numbered(TERM, 1).at(at),
        TermFault::UnknownColumn { at } => numbered(TERM, 2).at(at),
        TermFault::NumberRange { at } => numbered(TERM, 3).at(at),
        TermFault::TooDeep { at } => numbered(TERM, 4).at(at),
        TermFault::TooLong => numbered(TERM, 5),
        TermFault::BadCount { at } => numbered(TERM, 6).at(at),
        TermFault::NoMinOrMax => numbered(TERM, 7),
        TermFault::OutOfMemory => numbered(TERM, 8),
        TermFault::EmptyRange { at } => numbered(TERM, 9).at(at),
    }
}

/// The numbers of a refusal, before its text is there.
pub fn refusal_numbers(why: Fault) -> Why
    ensures { result ≡ refusal_numbers why }
{
    match why {
        Fault::Act(why) => core_refusal(CLIENT, why),
        Fault::Values(why) => table_refusal(why),
        Fault::Question(why) => term_refusal(why),
        Fault::Changes(why) => core_refusal(COMMIT, why),
        Fault::Opening(why) => core_refusal(OPENING, why),
        Fault::NoChange { place } => numbered(ARGUMENTS, 0).at(place),
        Fault::Outside | Fault::NoValues => numbered(ARGUMENTS, 0),
        Fault::Memory => numbered(TABLE_END, 0),
    }
}

/// The number of a refusal and what the program says behind it.
pub fn refusal_text(alloc: Global, why: Fault) -> Result<String, AllocError>
    ensures { IfOk result (λ text. string_bytes text ≡ refusal_text why) }
{
    let mut text = String::new(alloc);
    match why {
        Fault::Act(why) | Fault::Changes(why) | Fault::Opening(why) => {
            push_core_fault(&mut text, why)?
        }
        Fault::Values(why) => push_table_fault(&mut text, why)?,
        Fault::Question(why) => push_term_fault(&mut text, why)?,
        Fault::Outside => text.push_str("0: a number of the setup is outside its range")?,
        Fault::NoChange { place } => {
            return format!(in alloc; "0: there is no such change place {place}");
        }
        Fault::NoValues => text.push_str("0: the values are NULL")?,
        Fault::Memory => text.push_str("0: out of memory")?,
    }
    Ok(text)
}
