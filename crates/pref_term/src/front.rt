//! The token that bytes begin with.

ghost use Rattle.std.specs.Prelude.{◌≡◌, ◌≤◌, length};
ghost use Rattle.std.specs.List.{prefix_len};
ghost use Rattle.std.specs.Char.{is_ascii_digit};
ghost use Rattle.pref_table.specs.Names as names;
ghost use Rattle.pref_term.specs.SeenTokens.{seen, IsFront};

use crate::token::Sign;
use pref_table::engine::is_name_byte;

/// A token, with its bytes where it has a choice of them.
#[derive(Clone, Copy)]
pub(crate) enum Token<'a> {
    Word(&'a [u8]),
    Digits(&'a [u8]),
    Sign(Sign),
    Other,
    End,
}

/// How many bytes at the front go on with a word.
fn word_length(bytes: &[u8]) -> usize
    ensures length { result ≡ prefix_len names.is_name_byte bytes.now }
    ensures within { result ≤ length bytes.now }
{
    bytes.iter().take_while(|byte| is_name_byte(**byte)).count()
}

/// How many bytes at the front are digits.
fn digits_length(bytes: &[u8]) -> usize
    ensures length { result ≡ prefix_len is_ascii_digit bytes.now }
    ensures within { result ≤ length bytes.now }
{
    bytes
        .iter()
        .take_while(|byte| byte.is_ascii_digit())
        .count()
}

/// The token at the front, and its length.
pub(crate) fn first_token(bytes: &[u8]) -> (Token<'_>, usize)
    ensures token { IsFront bytes.now (seen result.0) result.1 }
    ensures within { result.1 ≤ length bytes.now }
{
    if bytes.is_empty() {
        return (Token::End, 0);
    }
    let first = bytes[0];
    if first.is_ascii_alphabetic() {
        let length = 1 + word_length(&bytes[1..]);
        return (Token::Word(&bytes[..length]), length);
    }
    if first.is_ascii_digit() {
        let length = 1 + digits_length(&bytes[1..]);
        return (Token::Digits(&bytes[..length]), length);
    }
    let token = match first {
        b'(' => Token::Sign(Sign::Left),
        b')' => Token::Sign(Sign::Right),
        b',' => Token::Sign(Sign::Comma),
        b'*' => Token::Sign(Sign::Star),
        b'&' => Token::Sign(Sign::Ampersand),
        b'-' => Token::Sign(Sign::Minus),
        b'{' => Token::Sign(Sign::LeftBrace),
        b'}' => Token::Sign(Sign::RightBrace),
        _ => Token::Other,
    };
    (token, 1)
}
