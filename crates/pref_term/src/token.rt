//! The tokens of a question text.

ghost use Rattle.std.specs.Prelude.{◌≡◌};
ghost use Rattle.std.specs.Str.{bytes_eq};
ghost use Rattle.pref_term.specs.Grammar.{base_words, keyword_of, cased_of, outer_words, word_among};

/// A byte that is a token by itself.
#[derive(Clone, Copy)]
pub enum Sign {
    Left,
    Right,
    Comma,
    Star,
    Ampersand,
    Minus,
    LeftBrace,
    RightBrace,
}

/// A word of the grammar, where the place makes it one.
#[derive(Clone, Copy)]
pub enum Keyword {
    Best,
    Low,
    High,
    Around,
    Between,
    Pos,
    Layered,
    Reverse,
    TopLevel,
    AtLeast,
    By,
}

/// A word of the grammar that may be in any case.
#[derive(Clone, Copy)]
pub enum CasedWord {
    Skyline,
    Of,
    Min,
    Max,
    Diff,
}

/// The word after a column of a skyline clause.
#[derive(Clone, Copy)]
pub enum Direction {
    /// Smaller is better.
    Min,
    /// Larger is better.
    Max,
    /// Rows that differ there are never compared.
    Diff,
}

/// The word of the grammar with these letters.
pub(crate) fn word_of_grammar(letters: &[u8]) -> Option<Keyword>
    ensures { result ≡ keyword_of letters.now }
{
    outer_word(letters).or(base_word(letters))
}

/// Whether the letters are those of the word.
fn is_word(letters: &[u8], word: &[u8]) -> bool
    ensures { result ≡ bytes_eq word.now letters.now }
{
    letters == word
}

/// The word around base terms with these letters.
fn outer_word(letters: &[u8]) -> Option<Keyword>
    ensures { result ≡ word_among outer_words letters.now }
{
    if is_word(letters, b"best") {
        Some(Keyword::Best)
    } else if is_word(letters, b"reverse") {
        Some(Keyword::Reverse)
    } else if is_word(letters, b"top_level") {
        Some(Keyword::TopLevel)
    } else if is_word(letters, b"at_least") {
        Some(Keyword::AtLeast)
    } else if is_word(letters, b"by") {
        Some(Keyword::By)
    } else {
        None
    }
}

/// The word of a base term with these letters.
fn base_word(letters: &[u8]) -> Option<Keyword>
    ensures { result ≡ word_among base_words letters.now }
{
    if is_word(letters, b"low") {
        Some(Keyword::Low)
    } else if is_word(letters, b"high") {
        Some(Keyword::High)
    } else if is_word(letters, b"around") {
        Some(Keyword::Around)
    } else if is_word(letters, b"between") {
        Some(Keyword::Between)
    } else if is_word(letters, b"pos") {
        Some(Keyword::Pos)
    } else if is_word(letters, b"layered") {
        Some(Keyword::Layered)
    } else {
        None
    }
}

/// The word of the grammar with these letters, in any case.
pub(crate) fn cased_word(letters: &[u8]) -> Option<CasedWord>
    ensures { result ≡ cased_of letters.now }
{
    if letters.eq_ignore_ascii_case(b"skyline") {
        Some(CasedWord::Skyline)
    } else if letters.eq_ignore_ascii_case(b"of") {
        Some(CasedWord::Of)
    } else if letters.eq_ignore_ascii_case(b"min") {
        Some(CasedWord::Min)
    } else if letters.eq_ignore_ascii_case(b"max") {
        Some(CasedWord::Max)
    } else if letters.eq_ignore_ascii_case(b"diff") {
        Some(CasedWord::Diff)
    } else {
        None
    }
}
