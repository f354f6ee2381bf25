//! A command line as an event, or why it is refused.
ghost use Rattle.std.specs.Prelude.{◌≡◌, Ok, Some};
ghost use Rattle.pref_term.specs.Asked.{asked};
ghost use Rattle.pref_script.specs.Commands.{change_of, event_of, event_said, of_question};
ghost use Rattle.pref_script.specs.Forms.{begins, changes, commits, said, said_by_client};
ghost use Rattle.pref_script.specs.Pieces.{change_said};
ghost use Rattle.pref_script.specs.Reading.{Reads};
ghost use Rattle.pref_script.specs.declared.command.Refusal.TheVariants.{Values};
ghost use Rattle.pref_script.specs.declared.command.Stop.TheVariants.{Refused};

use crate::commits::read_commit;
use crate::forms::{Form, cut_client, read_form};
use crate::pieces::ChangeForm;
use pref_core::{Act, BoxedCommit, Change, CoreFault, Event};
use pref_table::{Schema, TableFault, read_row};
use pref_term::{Ask, TermFault, read_ask};
use std::alloc::Global;

/// Why a command line is no event.
#[derive(Clone, Copy)]
pub enum Refusal {
    /// It has not the form of a command.
    NotCommand,
    /// Its values are refused.
    Values(TableFault),
    /// Its question is refused.
    Question(TermFault),
    /// Its changes are no commit.
    Changes(CoreFault),
}

/// Why reading a command line ended: it is refused, or there was no memory for its question or its commit.
#[derive(Clone, Copy)]
pub enum Stop {
    Refused(Refusal),
    OutOfMemory,
}

/// The fault of values as the refusal of their line.
impl From<TableFault> for Stop {
    ghost from_gives = { λ why stop. stop ≡ Refused (Values why) };

    fn from(why: TableFault) -> Stop {
        Stop::Refused(Refusal::Values(why))
    }
}

fn read_question(alloc: Global, schema: &Schema, question: &[u8]) -> Result<Ask, Stop>
    ensures { Reads result (of_question (asked schema.now question.now)) }
{
    match read_ask(alloc, schema, question) {
        Ok(ask) => Ok(ask),
        Err(TermFault::OutOfMemory) => Err(Stop::OutOfMemory),
        Err(why) => Err(Stop::Refused(Refusal::Question(why))),
    }
}

/// The change that a form asks for, with its values read. Refused for its values; takes no memory.
#[tactic(auto, unfolding(crate::specs::Commands::change_of))]
pub fn read_change(schema: &Schema, form: ChangeForm<'_>) -> Result<Change, Stop>
    ensures { Reads result (change_of schema.now (change_said form.entry)) }
{
    match form {
        ChangeForm::Insert(values) => Ok(Change::Add(read_row(schema, values)?)),
        ChangeForm::Update(id, values) => Ok(Change::Set(id, read_row(schema, values)?)),
        ChangeForm::Delete(id) => Ok(Change::Remove(id)),
    }
}

/// The event of a client's change. Its row is read into the event.
#[tactic(auto, unfolding(crate::specs::Commands::act_of, crate::specs::Commands::change_of))]
fn change_event(schema: &Schema, client: u8, form: ChangeForm<'_>) -> Result<Event, Stop>
    ensures { Reads result (event_said schema.now (Some (client, changes (change_said form.entry)))) }
{
    match form {
        ChangeForm::Insert(values) => Ok(Event {
            client,
            act: Act::Insert(read_row(schema, values)?),
        }),
        ChangeForm::Update(id, values) => Ok(Event {
            client,
            act: Act::Update(id, read_row(schema, values)?),
        }),
        ChangeForm::Delete(id) => Ok(Event {
            client,
            act: Act::Delete(id),
        }),
    }
}

/// The event of a client's commit. It stays a call of its own, since whoever holds the room of a whole commit clears it first.
#[inline(never)]
#[tactic(auto, unfolding(crate::specs::Commands::act_of))]
fn commit_event(alloc: Global, schema: &Schema, client: u8, pieces: &[u8]) -> Result<Event, Stop>
    ensures { Reads result (event_said schema.now (Some (client, commits pieces.now))) }
{
    match BoxedCommit::new(alloc, read_commit(schema, pieces)?) {
        Ok(commit) => Ok(Event {
            client,
            act: Act::Commit(commit),
        }),
        Err(_) => Err(Stop::OutOfMemory),
    }
}

/// The event of a client's question.
#[inline(never)]
#[tactic(auto, unfolding(crate::specs::Commands::act_of))]
fn question_event(
    alloc: Global,
    schema: &Schema,
    client: u8,
    question: &[u8],
) -> Result<Event, Stop>
    ensures { Reads result (event_said schema.now (Some (client, begins question.now))) }
{
    Ok(Event {
        client,
        act: Act::Begin(read_question(alloc, schema, question)?),
    })
}

/// The event of a client's line that has this form: its values, its pieces or its question are read.
#[tactic(auto, unfolding(crate::specs::Commands::act_of))]
pub fn form_event(alloc: Global, schema: &Schema, client: u8, form: Form<'_>) -> Result<Event, Stop>
    ensures { Reads result (event_said schema.now (Some (client, said form.entry))) }
{
    let act = match form {
        Form::Change(change) => return change_event(schema, client, change),
        Form::Commit(pieces) => return commit_event(alloc, schema, client, pieces),
        Form::Begin(question) => return question_event(alloc, schema, client, question),
        Form::Scan => Act::Scan,
        Form::Finish => Act::Finish,
        Form::Abandon => Act::Abandon,
        Form::Get(id) => Act::Get(id),
        Form::Room => Act::Room,
    };
    Ok(Event { client, act })
}

/// The event of a client's command, which is what follows the client's number in a command line.
///
/// Refused for its form first, then for its values, its pieces or its question; whether there is such a client is not
/// tested. Takes memory for a question and for a commit.
pub fn read_command(
    alloc: Global,
    schema: &Schema,
    client: u8,
    command: &[u8],
) -> Result<Event, Stop>
    ensures { Reads result (event_said schema.now (said_by_client client command.now)) }
{
    let Some(form) = read_form(command) else {
        return Err(Stop::Refused(Refusal::NotCommand));
    };
    form_event(alloc, schema, client, form)
}

/// The event of a command line, which is given without its end. Refused for its form first, as [`read_command`] is.
/// It is made a part of its callers: as a call of its own it copies the event once more.
#[inline(always)]
pub fn read_event(alloc: Global, schema: &Schema, line: &[u8]) -> Result<Event, Stop>
    ensures { Reads result (event_of schema.now line.now) }
{
    let Some((client, command)) = cut_client(line) else {
        return Err(Stop::Refused(Refusal::NotCommand));
    };
    read_command(alloc, schema, client, command)
}
