//! The lines of a script, and its sections.
ghost use Rattle.std.specs.Prelude.{◌≡◌, ◌≤◌, ◌<◌, ◌+◌, ◌∷◌, ◌++◌, length, take, drop, IfOk, MatchOption, MatchResult, Ok, Err};
ghost use Rattle.std.specs.List.{concat, list_all, position_or_len};
ghost use Rattle.pref_table.specs.Number.{is_blank};
ghost use Rattle.pref_script.specs.Script.{is_end_line, is_table_line, sections_of, raw_lines, without_last, without_line_end};

use crate::fault::RunFault;
use memchr::memchr;

/// The first line of a text with its end, and the text after it.
pub fn cut_line(text: &[u8]) -> (&[u8], &[u8])
    requires { 0 < length text.now }
    ensures whole { text.now ≡ result.0.now ++ result.1.now }
    ensures some { 0 < length result.0.now }
    ensures lines { raw_lines text.now ≡ result.0.now ∷ raw_lines result.1.now }
{
    match memchr(b'\n', text) {
        Some(place) => text.split_at(place + 1),
        None => text.split_at(text.len()),
    }
}

fn drop_last(byte: u8, text: &[u8]) -> &[u8]
    ensures { result.now ≡ without_last byte text.now }
{
    if !text.is_empty() && text[text.len() - 1] == byte {
        return &text[..text.len() - 1];
    }
    text
}

/// A line without its end: a line feed, and a carriage return before that.
pub fn line_text(raw: &[u8]) -> &[u8]
    ensures { result.now ≡ without_line_end raw.now }
{
    drop_last(b'\r', drop_last(b'\n', raw))
}

/// Whether a line is blank.
pub fn is_blank_line(line: &[u8]) -> bool
    ensures { result ≡ list_all is_blank line.now }
{
    line.iter().all(|byte| *byte == b' ' || *byte == b'\t')
}

/// Whether a line is the one that a script begins with.
pub fn is_table_line(raw: &[u8]) -> bool
    ensures { result ≡ is_table_line raw.now }
{
    line_text(raw) == b"table".as_slice()
}

/// Whether a line ends the table text.
pub fn is_end_line(raw: &[u8]) -> bool
    ensures { result ≡ is_end_line raw.now }
{
    line_text(raw) == b"end".as_slice()
}

/// The sections of a script: its table text, its command lines, and the number of the first of these lines.
#[derive(Clone, Copy)]
pub struct Sections<'a> {
    pub table: &'a [u8],
    pub commands: &'a [u8],
    pub first: u64,
}

/// Cuts what follows the line `table` at its first line `end`.
fn cut_at_end(rest: &[u8]) -> Option<Sections<'_>>
    ensures { let lines = raw_lines rest.now in let count = position_or_len is_end_line lines in
        MatchOption result (length lines ≤ count)
        (λ script. (count < length lines) × (script.table.now ≡ concat (take count lines)) × (raw_lines script.commands.now ≡ drop (count + 1) lines)
        × (script.first ≡ count + 3) × (script.first + length script.commands.now ≤ length rest.now + 3)) }
{
    let mut left = rest;
    let mut count = 0u64;
    while !left.is_empty() {
        let (raw, tail) = cut_line(left);
        if is_end_line(raw) {
            return Some(Sections {
                table: &rest[..rest.len() - left.len()],
                commands: tail,
                first: count + 3,
            });
        }
        count += 1;
        left = tail;
    }
    None
}

/// The sections of a script. Refused `NoTable` or `NoEnd`, in this order.
pub fn cut_sections(script: &[u8]) -> Result<Sections<'_>, RunFault>
    ensures few { IfOk result (λ sections. sections.first + length sections.commands.now ≤ length script.now + 3) }
    ensures sections { MatchResult result
        (λ sections. sections_of (raw_lines script.now) ≡ Ok (record { table = sections.table.now; commands = raw_lines sections.commands.now; first = sections.first }))
        (λ fault. sections_of (raw_lines script.now) ≡ Err fault) }
{
    if script.is_empty() {
        return Err(RunFault::NoTable);
    }
    let (first, rest) = cut_line(script);
    if !is_table_line(first) {
        return Err(RunFault::NoTable);
    }
    match cut_at_end(rest) {
        Some(sections) => Ok(sections),
        None => Err(RunFault::NoEnd),
    }
}
