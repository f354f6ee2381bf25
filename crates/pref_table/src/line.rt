//! A row from a line of text.
ghost use Rattle.std.specs.Prelude.{◌≡◌, ◌==◌, ◌+◌, ◌<◌, ◌≤◌, ℕ, length, drop, count_by, IfSome, Ok};
ghost use Rattle.pref_table.specs.Fields.{IsFront};
ghost use Rattle.pref_table.specs.Lines.{IsPlainLine};
ghost use Rattle.pref_table.specs.Rows.{line_row};

use crate::fault::TableFault;
use crate::number::plain_field;
use crate::row::{Row, row_of_fields};
use crate::schema::{MAX_COLUMNS, Schema};

fn count_commas(line: &[u8]) -> usize
    ensures { result ≡ count_by (λ byte. byte == 44) line.now }
{
    line.iter().filter(|byte| **byte == b',').count()
}

/// The part of a line behind the comma after a first field of this size.
fn after_comma(line: &[u8], size: usize) -> &[u8]
    requires { size < length line.now }
    ensures { result.now ≡ drop (size + 1) line.now }
{
    &line[size + 1..]
}

/// The row of a line of text.
#[inline(never)]
fn cut_row(schema: &Schema, line: &[u8]) -> Result<Row, TableFault>
    ensures { result ≡ line_row (length schema.now) line.now }
{
    let fields = line.split(|byte| *byte == b',');
    row_of_fields(schema, 0, count_commas(line) + 1, fields)
}

/// The row of a line whose fields are each 1 to 18 digits, perhaps behind a sign, and no other byte. Reads it in one pass. The text begins
/// with the line.
pub(crate) fn plain_row(width: usize, line: &[u8], text: &[u8]) -> Option<Row>
    requires few { width ≤ 16 }
    requires front { IsFront line.now text.now }
    ensures row { IfSome result (λ row. line_row width line.now ≡ Ok row) }
    ensures plain { IfSome result (λ _. IsPlainLine line.now) }
{
    let mut cells = [0; MAX_COLUMNS];
    let mut ahead = text;
    let mut left = line.len();
    for col in 0..width {
        let (number, size) = plain_field(&ahead[..left], ahead)?;
        cells[col] = number;
        if size < left {
            left -= size + 1;
            ahead = after_comma(ahead, size);
        } else if col + 1 == width {
            return Some(Row::of_cells(cells));
        } else {
            return None;
        }
    }
    None
}

/// The row of a line of text, whose fields are cut at each comma; there are no quotes. Takes no memory.
///
/// A field is a whole number with spaces and tabs around it. Refused with the first of these faults, with row 0: `Width`,
/// then field by field `NotWhole` or `OutOfRange`. An empty line is one empty field.
///
/// Where each field is plain digits, perhaps behind a sign, the line is read in one pass.
pub fn read_row(schema: &Schema, line: &[u8]) -> Result<Row, TableFault>
    ensures { result ≡ line_row (length schema.now) line.now }
{
    match plain_row(schema.width(), line, line) {
        Some(row) => Ok(row),
        None => cut_row(schema, line),
    }
}
