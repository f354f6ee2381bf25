//! The changes that a script asks for: each in a command line of its own, or in a piece of a commit.
ghost use Rattle.std.specs.Prelude.{◌≡◌, ◌∷◌, is_some, option_map, MatchOption, None, Some};
ghost use Rattle.pref_script.specs.Reading.{pieces_left};
ghost use Rattle.pref_script.specs.Words.{after_word, word_of};
ghost use Rattle.pref_script.specs.Pieces.{are_changes as are_changes_in, change_said, change_said_by, change_verb_of, piece_said, pieces_of};

use crate::words::{cut_number, id_alone, skip_blanks, strip_word};
use memchr::memchr;

/// The kinds of changes, by their word.
#[derive(Clone, Copy)]
pub enum ChangeVerb {
    Insert,
    Update,
    Delete,
}

/// What a change says: its id is read, its values are not.
#[derive(Clone, Copy)]
pub enum ChangeForm<'a> {
    Insert(&'a [u8]),
    Update(u64, &'a [u8]),
    Delete(u64),
}

/// The kind of change that a text's first word names, and the rest behind the blanks after that word.
#[tactic(auto, unfolding(crate::specs::Pieces::change_verb_of))]
pub fn cut_change(text: &[u8]) -> Option<(ChangeVerb, &[u8])>
    ensures { MatchOption result (change_verb_of (word_of text.now) ≡ None)
        (λ cut. (change_verb_of (word_of text.now) ≡ Some cut.0) × (cut.1.now ≡ after_word text.now)) }
{
    if let Some(rest) = strip_word(text, b"update".as_slice()) {
        return Some((ChangeVerb::Update, rest));
    }
    if let Some(rest) = strip_word(text, b"insert".as_slice()) {
        return Some((ChangeVerb::Insert, rest));
    }
    if let Some(rest) = strip_word(text, b"delete".as_slice()) {
        return Some((ChangeVerb::Delete, rest));
    }
    None
}

/// The form of a change: its verb with what follows it.
#[tactic(auto, unfolding(crate::specs::Pieces::change_said_by))]
pub fn change_form(verb: ChangeVerb, rest: &[u8]) -> Option<ChangeForm<'_>>
    ensures { option_map change_said result ≡ change_said_by verb rest.now }
{
    match verb {
        ChangeVerb::Insert => Some(ChangeForm::Insert(rest)),
        ChangeVerb::Update => {
            let (id, values) = cut_number(u64::MAX, rest)?;
            Some(ChangeForm::Update(id, values))
        }
        ChangeVerb::Delete => Some(ChangeForm::Delete(id_alone(rest)?)),
    }
}

/// What the change of a piece says, where the piece has the form of one.
#[tactic(auto, unfolding(crate::specs::Pieces::piece_said))]
pub fn piece_form(piece: &[u8]) -> Option<ChangeForm<'_>>
    ensures { option_map change_said result ≡ piece_said piece.now }
{
    let (verb, rest) = cut_change(skip_blanks(piece))?;
    change_form(verb, rest)
}

/// The first piece of a text, and what follows the semicolon after it, where there is one.
pub fn cut_piece(text: &[u8]) -> (&[u8], Option<&[u8]>)
    ensures { pieces_of text.now ≡ result.0.now ∷ pieces_left (option_map (λ rest. rest.now) result.1) }
{
    match memchr(b';', text) {
        Some(place) => (&text[..place], Some(&text[place + 1..])),
        None => (text, None),
    }
}

/// Whether a piece has the form of a change.
fn is_change(piece: &[u8]) -> bool
    ensures { result ≡ is_some (piece_said piece.now) }
{
    piece_form(piece).is_some()
}

/// Whether each piece of a commit's text has the form of a change.
pub fn are_changes(text: &[u8]) -> bool
    ensures { result ≡ are_changes_in text.now }
{
    text.split(|byte| *byte == b';')
        .all(|piece| is_change(piece))
}
