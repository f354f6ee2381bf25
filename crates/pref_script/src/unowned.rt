//! The lines of a script that belong to none of its clients.
ghost use Rattle.std.specs.Prelude.{◌≡◌, ◌≤◌, ◌<◌, ◌+◌, ◌^◌, ◌++◌, [], true, All, IfErr, IfOk, OnOk, if◌then◌else◌, length, string_bytes};
ghost use Rattle.pref_core.specs.declared.event.Reply.TheVariants.{Refused};
ghost use Rattle.pref_core.specs.declared.fault.CoreFault.TheVariants.{NoSuchClient};
ghost use Rattle.pref_script.specs.ClientParts.{IsWhole};
ghost use Rattle.pref_script.specs.Commands.{commands_in, commands_of};
ghost use Rattle.pref_script.specs.Script.{raw_lines};
ghost use Rattle.pref_script.specs.Text.{reply_lines};
ghost use Rattle.pref_script.specs.Threads.{is_client, unowned_lines};

use crate::command::{Stop, read_event};
use crate::fault::RunFault;
use crate::parts::{Part, are_whole};
use crate::script::{Sections, cut_line, is_blank_line, line_text};
use crate::text::{push_refused, push_reply};
use pref_core::{CoreFault, Reply};
use pref_table::Schema;
use std::alloc::{AllocError, Global};

/// Whether one of this many clients has this number.
fn is_client(clients: usize, number: u8) -> bool
    ensures { result ≡ is_client clients number }
{
    0 < number && usize::from(number) <= clients
}

/// Appends what is printed for an event of this client where it is none of this many clients: that there is no such client.
fn push_if_nobody(
    out: &mut String,
    width: usize,
    clients: usize,
    client: u8,
) -> Result<(), AllocError>
    requires { width ≤ 16 }
    ensures { OnOk result (string_bytes out.new ≡ string_bytes out.old ++ (if is_client clients client then [] else reply_lines width client (Refused NoSuchClient))) }
{
    if is_client(clients, client) {
        return Ok(());
    }
    push_reply(out, width, client, &Reply::Refused(CoreFault::NoSuchClient))
}

/// Appends what is printed for a line, by its number, that belongs to none of this many clients.
fn push_unowned(
    alloc: Global,
    schema: &Schema,
    clients: usize,
    number: u64,
    line: &[u8],
    out: &mut String,
) -> Result<(), RunFault>
    ensures returned { OnOk result (string_bytes out.new ≡ string_bytes out.old ++ unowned_lines clients (length schema.now) (commands_in schema.now number line.now)) }
    ensures memory { IfErr result (λ fault. fault ≡ RunFault.Memory) }
{
    if is_blank_line(line) {
        return Ok(());
    }
    match read_event(alloc, schema, line) {
        Ok(event) => push_if_nobody(out, schema.width(), clients, event.client)?,
        Err(Stop::Refused(why)) => push_refused(out, number, &why)?,
        Err(Stop::OutOfMemory) => return Err(RunFault::Memory),
    }
    Ok(())
}

/// The text of the lines that belong to no client, in order of the script: refused ones, and those of clients that do not exist. These are the
/// clients' parts once their acts are done. If each line that is not blank went to a part and all parts are whole, there are no such lines.
pub fn unowned_text(
    alloc: Global,
    schema: &Schema,
    parts: &[Part<'_>],
    all_given: bool,
    script: Sections<'_>,
) -> Result<String, RunFault>
    requires few { script.first + length script.commands.now < 2 ^ 64 }
    requires none { all_given ≡ true → All IsWhole parts.now → unowned_lines (length parts.now) (length schema.now) (commands_of schema.now script.first (raw_lines script.commands.now)) ≡ [] }
    ensures returned { IfOk result (λ text. string_bytes text ≡ unowned_lines (length parts.now) (length schema.now) (commands_of schema.now script.entry.first (raw_lines script.entry.commands.now))) }
    ensures memory { IfErr result (λ fault. fault ≡ RunFault.Memory) }
{
    let mut text = String::new(alloc);
    if all_given && are_whole(parts) {
        return Ok(text);
    }
    let mut left = script.commands;
    let mut number = script.first;
    while !left.is_empty() {
        let (raw, tail) = cut_line(left);
        push_unowned(
            alloc,
            schema,
            parts.len(),
            number,
            line_text(raw),
            &mut text,
        )?;
        number += 1;
        left = tail;
    }
    Ok(text)
}
