//! The lines of a table text that are read without the crate `csv`.
ghost use Rattle.std.specs.Prelude.{◌≡◌, ◌≤◌, true, length, IfOk, IfErr, IfSome, List, []};
ghost use Rattle.csv.specs.Reading.{default_config, records};
ghost use Rattle.pref_table.specs.Lines.{IsCutAtLine, IsLineBefore, IsLineEnd, IsPlainLine, ReadsRow, rows_with};
ghost use Rattle.pref_table.specs.Plain.{ArePlain};

use crate::fault::TableFault;
use crate::line::plain_row;
use crate::row::Row;
use crate::table::MAX_ROWS;
use memchr::{memchr, memchr2};
use std::alloc::Global;

/// A line without the carriage return at its end, if one is there.
fn without_return(line: &[u8]) -> &[u8]
    ensures { IsLineBefore line.now result.now [] }
{
    if !line.is_empty() && line[line.len() - 1] == b'\r' {
        return &line[..line.len() - 1];
    }
    line
}

/// The first line of a text, without a carriage return at its end, and what follows the line from its line feed on.
fn cut_line(text: &[u8]) -> (&[u8], &[u8])
    ensures { IsCutAtLine text.now result.0.now result.1.now }
{
    let size = memchr(b'\n', text).unwrap_or(text.len());
    let (line, after) = text.split_at(size);
    (without_return(line), after)
}

/// The header of a text and what follows it from its line feed on, where the header is the first line: that line has no
/// quote, no carriage return before its end, and is not empty.
pub(crate) fn cut_header(text: &[u8]) -> Option<(&[u8], &[u8])>
    ensures cut { IfSome result (λ cut. IsCutAtLine text.now cut.0.now cut.1.now) }
    ensures plain { IfSome result (λ cut. IsPlainLine cut.0.now) }
{
    let (line, after) = cut_line(text);
    if line.is_empty() || memchr2(b'"', b'\r', line).is_some() {
        return None;
    }
    Some((line, after))
}

/// A row and what is left of the text behind it, from the end of its line on.
#[derive(Clone, Copy)]
struct NextRow<'text> {
    row: Row,
    left: &'text [u8],
}

/// Reads the row of the next line of a text that begins where a line ends, if that line's fields are plain digits.
fn next_row(width: usize, text: &[u8]) -> Option<NextRow<'_>>
    requires few { width ≤ 16 }
    requires ends { IsLineEnd text.now }
    ensures { IfSome result (λ read. ReadsRow width text.now read.row read.left.now) }
{
    let [_, lines @ ..] = text else {
        return None;
    };
    let (line, left) = cut_line(lines);
    let row = plain_row(width, line, lines)?;
    Some(NextRow { row, left })
}

/// The rows of a text that begins where a line ends, up to the first line that has another field than plain digits, and
/// what is left of the text: it begins where the last of these rows ends.
pub(crate) fn plain_rows(
    alloc: Global,
    width: usize,
    text: &[u8],
) -> Result<(Vec<Row>, &[u8]), TableFault>
    requires few { width ≤ 16 }
    requires ends { IsLineEnd text.now }
    ensures rows { IfOk result (λ read. rows_with width [] (records default_config text.now) ≡ rows_with width read.0.items (records default_config read.1.now)) }
    ensures room { IfOk result (λ read. length read.0.items ≤ 65536) }
    ensures left { IfOk result (λ read. IsLineEnd read.1.now) }
    ensures memory { IfErr result (λ fault. fault ≡ TableFault.OutOfMemory) }
{
    let mut rows = Vec::new(alloc);
    let mut left = text;
    for _ in 0..MAX_ROWS {
        let Some(read) = next_row(width, left) else {
            break;
        };
        rows.push(read.row)?;
        left = read.left;
    }
    Ok((rows, left))
}
