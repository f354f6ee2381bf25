//! A place in a question text, from which tokens are taken.

ghost use Rattle.std.specs.Prelude.{◌≡◌, ◌≤◌, length};

use crate::fault::TermFault;
use crate::front::{Token, first_token};
use crate::token::Sign;
use pref_table::engine::blanks_length;

/// A place in a text.
#[derive(Clone, Copy)]
pub(crate) struct Cursor<'a> {
    text: &'a [u8],
    place: usize,
    ghost within: { place ≤ length text.now },
}

/// A token, where it begins, and what lies behind it.
#[derive(Clone, Copy)]
pub(crate) struct Lexeme<'a> {
    pub token: Token<'a>,
    pub at: u64,
    pub next: Cursor<'a>,
}

impl<'a> Cursor<'a> {
    ghost use Rattle.pref_term.specs.Token as tokens;
    ghost use Rattle.pref_term.specs.Ahead.{ahead, taken};

    /// The beginning of a text.
    pub(crate) fn new(text: &'a [u8]) -> Cursor<'a>
        ensures { ahead result ≡ tokens.tokens_of text.now }
    {
        Cursor { text, place: 0 }
    }

    /// The next token. The end of the text is taken again and again.
    pub(crate) fn take(self) -> Lexeme<'a>
        ensures { ahead self.entry ≡ taken result }
    {
        let text = self.text;
        let start = self.place + blanks_length(&text[self.place..]);
        let (token, length) = first_token(&text[start..]);
        let place = start + length;
        let next = Cursor { text, place };
        let at = start as u64;
        Lexeme { token, at, next }
    }
}

impl<'a> Lexeme<'a> {
    ghost use Rattle.std.specs.Prelude.{◌≢◌, [], ◌∷◌};
    ghost use Rattle.std.specs.Bool.{OnTrue, OnFalse};
    ghost use Rattle.pref_term.specs.Token as tokens;
    ghost use Rattle.pref_term.specs.SeenTokens.{seen};
    ghost use Rattle.pref_term.specs.Ahead.{ahead, taken};

    /// Whether the end was taken.
    pub(crate) fn ends(self) -> bool
        ensures yes { OnTrue result (taken self.entry ≡ record { token = tokens.finish; place = self.entry.at } ∷ []) }
        ensures no { OnFalse result (seen self.entry.token ≢ tokens.finish) }
    {
        matches!(self.token, Token::End)
    }

    /// Whether this sign was taken.
    pub(crate) fn is(self, sign: Sign) -> bool
        ensures yes { OnTrue result (taken self.entry ≡ record { token = tokens.sign sign; place = self.entry.at } ∷ ahead self.entry.next) }
        ensures no { OnFalse result (seen self.entry.token ≢ tokens.sign sign) }
    {
        matches!(self.token, Token::Sign(found) if found == sign)
    }

    /// The fault of a token that cannot follow.
    pub(crate) fn unexpected(self) -> TermFault
        ensures { result ≡ TermFault.Unexpected self.entry.at }
    {
        TermFault::Unexpected { at: self.at }
    }
}
