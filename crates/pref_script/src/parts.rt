//! The part of each client in a script on threads: its commands, one after the other.
ghost use Rattle.std.specs.Prelude.{◌≡◌, ◌<◌, ◌++◌, ◌∷◌, [], true, length, string_bytes, suc, All, IfOk, MatchOption, OnOk};
ghost use Rattle.pref_script.specs.ClientParts.{AllGiven, ArePartsUpTo, AreParts, IsCommandOf, IsGiven, IsWhole, NamesNone};
ghost use Rattle.pref_script.specs.Script.{raw_lines};
ghost use Rattle.pref_script.specs.Text.{texts};

use crate::command::{Stop, read_command};
use crate::forms::cut_client;
use crate::script::{cut_line, is_blank_line, line_text};
use crate::text::push_reply;
use pref_core::{Act, Reply};
use pref_share::Task;
use pref_table::Schema;
use std::alloc::{AllocError, Global};

/// A client's part of a script: its commands, which are what follows its number in the lines that name it, how many of them were
/// read, the lines of the replies so far, and whether a command that was read is refused.
#[derive(Drop)]
pub struct Part<'script> {
    schema: &'script Schema,
    client: u8,
    commands: Vec<&'script [u8]>,
    read: usize,
    text: String,
    refused: bool,
}

impl Part<'_> {
    /// Whether all commands were acts, and none is left.
    fn is_whole(&self) -> bool
        ensures { result ≡ true → IsWhole self.now }
    {
        self.read == self.commands.len() && !self.refused
    }
}

impl Task for Part<'_> {
    ghost use Rattle.pref_script.specs.ClientParts.{HasReplied, acts_left};

    ghost left = { acts_left };

    ghost took = { HasReplied };

    fn next(&mut self, alloc: Global) -> Result<Option<Act>, AllocError> {
        while self.read < self.commands.len() {
            let command = self.commands[self.read];
            self.read += 1;
            match read_command(alloc, self.schema, self.client, command) {
                Ok(event) => return Ok(Some(event.act)),
                Err(Stop::Refused(_)) => self.refused = true,
                Err(Stop::OutOfMemory) => return Err(AllocError),
            }
        }
        Ok(None)
    }

    fn take(&mut self, reply: Reply) -> Result<(), AllocError> {
        push_reply(&mut self.text, self.schema.width(), self.client, &reply)
    }
}

/// The part of each of this many clients, before it has commands.
fn empty_parts(alloc: Global, schema: &Schema, clients: u8) -> Result<Vec<Part<'_>>, AllocError>
    ensures count { IfOk result (λ parts. length parts.items ≡ clients) }
    ensures parts { IfOk result (λ parts. (raws : _) → ArePartsUpTo schema.now raws raws parts.items) }
{
    let mut parts = Vec::new(alloc);
    for client in 0..clients {
        parts.push(Part {
            schema,
            client: client + 1,
            commands: Vec::new(alloc),
            read: 0,
            text: String::new(alloc),
            refused: false,
        })?;
    }
    Ok(parts)
}

/// The index of the client that a line names among this many clients, and its command, where it is one of them.
fn cut_owner(clients: usize, line: &[u8]) -> Option<(usize, &[u8])>
    ensures { MatchOption result (NamesNone clients line.now)
        (λ cut. (cut.0 < clients) × IsCommandOf (suc cut.0) line.now cut.1.now) }
{
    let (client, command) = cut_client(line)?;
    let number = usize::from(client);
    if 0 < number && number <= clients {
        Some((number - 1, command))
    } else {
        None
    }
}

/// Gives what a line says to the part of the client that it names, where it is one of these. Returns whether that was done, or the line
/// is blank.
fn give_line<'script>(
    parts: &mut Vec<Part<'script>>,
    raw: &'script [u8],
) -> Result<bool, AllocError>
    ensures count { OnOk result (length parts.new.items ≡ length parts.old.items) }
    ensures parts { OnOk result ((names : _) (raws : _) (left : _) → ArePartsUpTo names raws (raw.now ∷ left) parts.old.items → ArePartsUpTo names raws left parts.new.items) }
    ensures given { IfOk result (λ given. given ≡ true → IsGiven (length parts.old.items) raw.now) }
{
    let line = line_text(raw);
    if let Some((index, command)) = cut_owner(parts.len(), line) {
        parts[index].commands.push(command)?;
        return Ok(true);
    }
    Ok(is_blank_line(line))
}

/// The part of each of this many clients, before its first command is read, and whether each line that is not blank went to one of them.
#[tactic(auto, using(crate::proofs::ExitLaws::exits))]
pub fn client_parts<'script>(
    alloc: Global,
    schema: &'script Schema,
    clients: u8,
    lines: &'script [u8],
) -> Result<(Vec<Part<'script>>, bool), AllocError>
    ensures count { IfOk result (λ split. length split.0.items ≡ clients) }
    ensures parts { IfOk result (λ split. AreParts schema.now (raw_lines lines.now) split.0.items) }
    ensures given { IfOk result (λ split. split.1 ≡ true → AllGiven clients (raw_lines lines.now)) }
{
    let mut parts = empty_parts(alloc, schema, clients)?;
    let mut all_given = true;
    let mut left = lines;
    while !left.is_empty() {
        let (raw, tail) = cut_line(left);
        if !give_line(&mut parts, raw)? {
            all_given = false;
        }
        left = tail;
    }
    Ok((parts, all_given))
}

/// Whether all these parts are whole.
pub fn are_whole(parts: &[Part<'_>]) -> bool
    ensures { result ≡ true → All IsWhole parts.now }
{
    for part in parts {
        if !part.is_whole() {
            return false;
        }
    }
    true
}

/// Appends the texts of all parts, in order of the clients.
pub fn push_parts(out: &mut String, parts: &[Part<'_>]) -> Result<(), AllocError>
    ensures { OnOk result (string_bytes out.new ≡ string_bytes out.old ++ texts (λ part. string_bytes part.text) parts.now) }
{
    for part in parts {
        out.push_str(part.text.as_str())?;
    }
    Ok(())
}
