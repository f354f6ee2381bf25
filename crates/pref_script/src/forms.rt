//! The forms of a command line.
ghost use Rattle.std.specs.Prelude.{◌≡◌, MatchOption, None, Some, option_map};
ghost use Rattle.pref_script.specs.Forms.{client_named, said, said_by, said_by_client, said_in, said_of, verb_of};
ghost use Rattle.pref_script.specs.Words.{after_word, alone as alone_of, word_of};

use crate::pieces::{ChangeForm, ChangeVerb, change_form, cut_change};
use crate::words::{cut_number, id_alone, skip_blanks, strip_word};

/// The kinds of commands, by their word.
#[derive(Clone, Copy)]
enum Verb {
    Change(ChangeVerb),
    Commit,
    Begin,
    Scan,
    Finish,
    Abandon,
    Get,
    Room,
}

/// What a command line says: its ids are read, its values, its pieces and its question are not.
#[derive(Clone, Copy)]
pub enum Form<'a> {
    Change(ChangeForm<'a>),
    Commit(&'a [u8]),
    Begin(&'a [u8]),
    Scan,
    Finish,
    Abandon,
    Get(u64),
    Room,
}

/// The kind of command that a text's first word names, and the rest behind the blanks after that word.
#[tactic(auto, unfolding(crate::specs::Forms::verb_of))]
fn cut_verb(text: &[u8]) -> Option<(Verb, &[u8])>
    ensures { MatchOption result (verb_of (word_of text.now) ≡ None)
        (λ cut. (verb_of (word_of text.now) ≡ Some cut.0) × (cut.1.now ≡ after_word text.now)) }
{
    if let Some((change, rest)) = cut_change(text) {
        return Some((Verb::Change(change), rest));
    }
    if let Some(rest) = strip_word(text, b"get".as_slice()) {
        return Some((Verb::Get, rest));
    }
    if let Some(rest) = strip_word(text, b"commit".as_slice()) {
        return Some((Verb::Commit, rest));
    }
    if let Some(rest) = strip_word(text, b"begin".as_slice()) {
        return Some((Verb::Begin, rest));
    }
    if let Some(rest) = strip_word(text, b"scan".as_slice()) {
        return Some((Verb::Scan, rest));
    }
    if let Some(rest) = strip_word(text, b"finish".as_slice()) {
        return Some((Verb::Finish, rest));
    }
    if let Some(rest) = strip_word(text, b"abandon".as_slice()) {
        return Some((Verb::Abandon, rest));
    }
    if let Some(rest) = strip_word(text, b"room".as_slice()) {
        return Some((Verb::Room, rest));
    }
    None
}

/// The form, where nothing follows.
fn alone<'a>(form: Form<'a>, rest: &[u8]) -> Option<Form<'a>>
    ensures { option_map said result ≡ alone_of (said form.entry) rest.now }
{
    if rest.is_empty() { Some(form) } else { None }
}

/// The form of a verb with what follows it.
#[tactic(auto, unfolding(crate::specs::Forms::said_by))]
fn verb_form(verb: Verb, rest: &[u8]) -> Option<Form<'_>>
    ensures { option_map said result ≡ said_by verb rest.now }
{
    match verb {
        Verb::Change(change) => Some(Form::Change(change_form(change, rest)?)),
        Verb::Commit => Some(Form::Commit(rest)),
        Verb::Begin => Some(Form::Begin(rest)),
        Verb::Scan => alone(Form::Scan, rest),
        Verb::Finish => alone(Form::Finish, rest),
        Verb::Abandon => alone(Form::Abandon, rest),
        Verb::Get => Some(Form::Get(id_alone(rest)?)),
        Verb::Room => alone(Form::Room, rest),
    }
}

/// The client that a line names by the word `as` and a number, and the command behind that.
#[inline(never)]
#[tactic(auto, unfolding(crate::specs::Forms::said_in, crate::specs::Forms::client_named))]
fn cut_any_client(line: &[u8]) -> Option<(u8, &[u8])>
    ensures said { MatchOption result (said_in line.now ≡ None) (λ cut. said_in line.now ≡ said_by_client cut.0 cut.1.now) }
    ensures named { option_map (λ cut. cut.0) result ≡ client_named line.now }
{
    let rest = strip_word(skip_blanks(line), b"as".as_slice())?;
    let (client, rest) = cut_number(255, rest)?;
    Some((client as u8, rest))
}

/// The client that a line names, and its command, which is what follows the client's number and may be anything. Most lines begin by
/// `as`, one blank, one digit and one blank: that is tested first.
pub fn cut_client(line: &[u8]) -> Option<(u8, &[u8])>
    ensures said { MatchOption result (said_in line.now ≡ None) (λ cut. said_in line.now ≡ said_by_client cut.0 cut.1.now) }
    ensures named { option_map (λ cut. cut.0) result ≡ client_named line.now }
{
    if line.len() >= 5
        && line[0] == b'a'
        && line[1] == b's'
        && line[2] == b' '
        && line[3].is_ascii_digit()
        && line[4] == b' '
    {
        return Some((line[3] - b'0', skip_blanks(&line[5..])));
    }
    cut_any_client(line)
}

/// The form of a command, which is the part of a command line behind the client's number, if it has one.
pub fn read_form(command: &[u8]) -> Option<Form<'_>>
    ensures { option_map said result ≡ said_of command.now }
{
    let (verb, rest) = cut_verb(command)?;
    verb_form(verb, rest)
}

/// The client that a line names and the form of its command, where the line has the form of a command line.
pub fn cut_form(line: &[u8]) -> Option<(u8, Form<'_>)>
    ensures { option_map (λ cut. (cut.0, said cut.1)) result ≡ said_in line.now }
{
    let (client, command) = cut_client(line)?;
    Some((client, read_form(command)?))
}
