//! The words of a command line.
ghost use Rattle.std.specs.Prelude.{false, ◌≡◌, ◌≤◌, IfSome, MatchOption, None, Some};
ghost use Rattle.std.specs.List.{list_any};
ghost use Rattle.std.specs.Str.{bytes_eq};
ghost use Rattle.pref_table.specs.Number.{after_blanks, is_blank};
ghost use Rattle.pref_script.specs.Reading.{HasNoNumber, IsDigitsWord};
ghost use Rattle.pref_script.specs.Words.{after_word, lone_id, word_number, word_of};

use pref_table::engine::blanks_length;

fn is_blank_byte(byte: u8) -> bool
    ensures { result ≡ is_blank byte }
{
    byte == b' ' || byte == b'\t'
}

/// A text without the blanks that it begins with.
pub fn skip_blanks(text: &[u8]) -> &[u8]
    ensures { result.now ≡ after_blanks text.now }
{
    &text[blanks_length(text)..]
}

/// The rest of a text behind its first word and the blanks after that, if this is its first word; else `None`. The word has
/// to be without blanks.
pub fn strip_word<'a>(text: &'a [u8], word: &[u8]) -> Option<&'a [u8]>
    requires { list_any is_blank word.now ≡ false }
    ensures { MatchOption result (bytes_eq (word_of text.now) word.now ≡ false)
        (λ rest. (word_of text.now ≡ word.now) × (rest.now ≡ after_word text.now)) }
{
    let rest = text.strip_prefix(word)?;
    if !rest.is_empty() && !is_blank_byte(rest[0]) {
        return None;
    }
    Some(skip_blanks(rest))
}

/// The value of the word that a text begins with, and its size in bytes, where the word is digits and the value has room.
fn word_digits(text: &[u8]) -> Option<(u64, usize)>
    ensures { MatchOption result (HasNoNumber (word_of text.now)) (λ word. IsDigitsWord text.now word.0 word.1) }
{
    let mut number: u64 = 0;
    for (place, byte) in text.iter().enumerate() {
        if !byte.is_ascii_digit() {
            if is_blank_byte(*byte) {
                return Some((number, place));
            }
            return None;
        }
        number = number
            .checked_mul(10)?
            .checked_add(u64::from(*byte - b'0'))?;
    }
    Some((number, text.len()))
}

/// The first word of a text as a number, and the rest of the text behind the blanks after it. `None` where the word is not
/// all digits, is empty, or is a number above `most`. Leading zeros do no harm. Reads the word in one pass.
pub fn cut_number(most: u64, text: &[u8]) -> Option<(u64, &[u8])>
    ensures cut { MatchOption result (word_number most (word_of text.now) ≡ None)
        (λ cut. (word_number most (word_of text.now) ≡ Some cut.0) × (cut.1.now ≡ after_word text.now)) }
    ensures small { IfSome result (λ cut. cut.0 ≤ most) }
{
    let (number, size) = word_digits(text)?;
    if size == 0 || number > most {
        return None;
    }
    Some((number, skip_blanks(&text[size..])))
}

/// The id that is all of a text: digits of a number below 2^64, perhaps with blanks after them. `None` for any other text.
pub fn id_alone(text: &[u8]) -> Option<u64>
    ensures { result ≡ lone_id text.now }
{
    let (id, rest) = cut_number(u64::MAX, text)?;
    if rest.is_empty() { Some(id) } else { None }
}
