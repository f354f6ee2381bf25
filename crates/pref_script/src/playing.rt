//! A command line, played on one table, and the replies to it.
ghost use Rattle.std.specs.Prelude.{ℕ, ◌≡◌, ◌≤◌, ◌++◌, ◌∷◌, [], length, string_bytes, IfErr, OnOk, Some};
ghost use Rattle.pref_core.specs.declared.event.Act.TheVariants.{Delete, Insert, Update};
ghost use Rattle.pref_core.specs.declared.event.Reply.{Reply};
ghost use Rattle.pref_script.specs.Commands.{command_of, commands_in, event_said, runs};
ghost use Rattle.pref_script.specs.Forms.{changes, said};
ghost use Rattle.pref_script.specs.Pieces.{change_said};
ghost use Rattle.pref_script.specs.Playing.{Plays};
ghost use Rattle.pref_script.specs.Text.{reply_lines};

use crate::command::{Refusal, Stop, form_event};
use crate::fault::RunFault;
use crate::forms::{Form, cut_form};
use crate::pieces::ChangeForm;
use crate::script::is_blank_line;
use crate::text::{push_line, push_refused, push_refused_act, push_reply};
use pref_core::{CoreFault, Event, Machine};
use pref_table::{Row, Schema, read_row};
use std::alloc::{AllocError, Global};

/// Appends the lines of the reply to an event of any kind. It stays a call of its own, since whoever holds the room of a
/// reply clears it first.
#[inline(never)]
fn play_any_event(
    alloc: Global,
    width: usize,
    machine: &mut Machine,
    event: Event,
    text: &mut String,
) -> Result<(), AllocError>
    requires { width ≤ 16 }
    ensures { OnOk result (Plays width machine.old (runs event ∷ []) (string_bytes text.old) (string_bytes text.new) machine.new) }
{
    let client = event.client;
    let reply = machine.reply(alloc, event)?;
    push_reply(text, width, client, &reply)?;
    Ok(())
}

/// Appends the line of a change that failed with this fault, where that is a refusal.
fn push_failed_change(text: &mut String, client: u8, fault: CoreFault) -> Result<(), AllocError>
    ensures { OnOk result ((fault ≡ CoreFault.OutOfMemory → ⊥) × (string_bytes text.new ≡ string_bytes text.old ++ reply_lines 0 client (Reply.Refused fault))) }
{
    match fault {
        CoreFault::OutOfMemory => Err(AllocError),
        _ => push_refused_act(text, client, fault),
    }
}

/// Plays an insert, and appends its line.
fn play_insert(
    alloc: Global,
    machine: &mut Machine,
    client: u8,
    row: &Row,
    text: &mut String,
) -> Result<(), AllocError>
    ensures { (width : ℕ) → OnOk result (Plays width machine.old (runs (record { client = client; act = Insert row.now }) ∷ []) (string_bytes text.old) (string_bytes text.new) machine.new) }
{
    match machine.insert(alloc, client, row) {
        Ok(id) => push_line(text, client, " inserted ", id),
        Err(fault) => push_failed_change(text, client, fault),
    }
}

/// Plays an update, and appends its line.
fn play_update(
    alloc: Global,
    machine: &mut Machine,
    client: u8,
    id: u64,
    row: &Row,
    text: &mut String,
) -> Result<(), AllocError>
    ensures { (width : ℕ) → OnOk result (Plays width machine.old (runs (record { client = client; act = Update id row.now }) ∷ []) (string_bytes text.old) (string_bytes text.new) machine.new) }
{
    match machine.update(alloc, client, id, row) {
        Ok(()) => push_line(text, client, " updated ", id),
        Err(fault) => push_failed_change(text, client, fault),
    }
}

/// Plays a delete, and appends its line.
fn play_delete(
    alloc: Global,
    machine: &mut Machine,
    client: u8,
    id: u64,
    text: &mut String,
) -> Result<(), AllocError>
    ensures { (width : ℕ) → OnOk result (Plays width machine.old (runs (record { client = client; act = Delete id }) ∷ []) (string_bytes text.old) (string_bytes text.new) machine.new) }
{
    match machine.delete(alloc, client, id) {
        Ok(()) => push_line(text, client, " deleted ", id),
        Err(fault) => push_failed_change(text, client, fault),
    }
}

/// Plays a client's change, by the number of its line. Most lines are such: their row is lent to the machine from where it
/// was read, with no event between them.
#[tactic(auto, unfolding(crate::specs::Commands::act_of, crate::specs::Commands::change_of))]
fn play_change(
    alloc: Global,
    schema: &Schema,
    machine: &mut Machine,
    number: u64,
    client: u8,
    form: ChangeForm<'_>,
    text: &mut String,
) -> Result<(), AllocError>
    ensures { OnOk result (Plays (length schema.now) machine.old (command_of number (event_said schema.now (Some (client, changes (change_said form.entry)))) ∷ []) (string_bytes text.old) (string_bytes text.new) machine.new) }
{
    match form {
        ChangeForm::Insert(values) => match &read_row(schema, values) {
            Ok(row) => play_insert(alloc, machine, client, row, text),
            Err(why) => push_refused(text, number, &Refusal::Values(*why)),
        },
        ChangeForm::Update(id, values) => match &read_row(schema, values) {
            Ok(row) => play_update(alloc, machine, client, id, row, text),
            Err(why) => push_refused(text, number, &Refusal::Values(*why)),
        },
        ChangeForm::Delete(id) => play_delete(alloc, machine, client, id, text),
    }
}

/// Plays a client's line of any form, by its number. It stays a call of its own, since whoever holds the room of an event
/// clears it first.
#[inline(never)]
fn play_any_form(
    alloc: Global,
    schema: &Schema,
    machine: &mut Machine,
    number: u64,
    client: u8,
    form: Form<'_>,
    text: &mut String,
) -> Result<(), AllocError>
    ensures { OnOk result (Plays (length schema.now) machine.old (command_of number (event_said schema.now (Some (client, said form.entry))) ∷ []) (string_bytes text.old) (string_bytes text.new) machine.new) }
{
    match form_event(alloc, schema, client, form) {
        Ok(event) => play_any_event(alloc, schema.width(), machine, event, text)?,
        Err(Stop::Refused(why)) => push_refused(text, number, &why)?,
        Err(Stop::OutOfMemory) => return Err(AllocError),
    }
    Ok(())
}

/// Appends the replies to a command line, by its number, if it isn't blank.
pub fn play_line(
    alloc: Global,
    schema: &Schema,
    machine: &mut Machine,
    number: u64,
    line: &[u8],
    text: &mut String,
) -> Result<(), RunFault>
    ensures played { OnOk result (Plays (length schema.now) machine.old (commands_in schema.now number line.now) (string_bytes text.old) (string_bytes text.new) machine.new) }
    ensures memory { IfErr result (λ fault. fault ≡ RunFault.Memory) }
{
    if is_blank_line(line) {
        return Ok(());
    }
    match cut_form(line) {
        Some((client, Form::Change(form))) => {
            play_change(alloc, schema, machine, number, client, form, text)?
        }
        Some((client, form)) => {
            play_any_form(alloc, schema, machine, number, client, form, text)?
        }
        None => push_refused(text, number, &Refusal::NotCommand)?,
    }
    Ok(())
}
