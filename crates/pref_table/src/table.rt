//! A table from its text.
ghost use Rattle.std.specs.Prelude.{◌≡◌, ◌++◌, true, ◌<◌, ◌≤◌, ℕ, List, drop, length, map, IfOk, IfErr};
ghost use Rattle.csv.specs.Records.{fields_of};
ghost use Rattle.pref_table.specs.Lines.{IsLineEnd, IsPlainLine, header_names, rows_with};
ghost use Rattle.pref_table.specs.Names.{schema_of};
ghost use Rattle.pref_table.specs.Number.{without_blanks};
ghost use Rattle.pref_table.specs.Records.{HasLeft, ReadsFirst, ReadsNext};
ghost use Rattle.pref_table.specs.Rows.{row_of};
ghost use Rattle.pref_table.specs.Tables.{Gives, table_of, table_of_records, without_marks};
ghost use Rattle.csv.specs.Reading.{default_config, error_kind, records, stops_reader, strip_bom};

use crate::fault::TableFault;
use crate::lines::{cut_header, plain_rows};
use crate::number::trim_blanks;
use crate::records::{Next, next_in};
use crate::row::{Row, row_of_fields};
use crate::schema::Schema;
use csv::{ByteRecord, Reader, ReaderBuilder};
use std::alloc::Global;

/// The most rows that a table text has.
pub(crate) const MAX_ROWS: u64 = 65_536;

/// The text without the byte order marks at its start.
fn skip_marks(bytes: &[u8]) -> &[u8]
    ensures { result.now ≡ without_marks bytes.now }
{
    let mut rest = bytes;
    while let Some(tail) = rest.strip_prefix(&[0xEF, 0xBB, 0xBF]) {
        rest = tail;
    }
    rest
}

/// The records of a text, which are read one after the other, and the last one that was read.
struct Records<'text> {
    reader: Reader<&'text [u8]>,
    last: ByteRecord,
}

// By hand, so that letting one go is a call: a derived `drop` is written out, and proved, at each way out of each function that owns one.
impl Drop for Records<'_> {
    fn drop(self) {
        let Records { reader: _, last: _ } = self;
    }
}

/// The records of a text that has no byte order mark at its start.
fn records_of(alloc: Global, text: &[u8]) -> Records<'_>
    requires { strip_bom text.now ≡ text.now }
    ensures { HasLeft result.reader (records default_config text.now) }
{
    let reader = ReaderBuilder::new()
        .has_headers(false)
        .flexible(true)
        .from_reader(alloc, text);
    Records {
        reader,
        last: ByteRecord::new(alloc),
    }
}

/// Reads the next record, if there is one. What fails is the reader underneath, or memory.
fn read_next(from: &mut Records<'_>) -> Result<bool, csv::Error>
    ensures found { IfOk result (λ found. ReadsFirst from.old.reader from.new.reader found (fields_of from.new.last)) }
    ensures stops { IfErr result (λ error. (left : List (List (List ℕ))) → HasLeft from.old.reader left → stops_reader (error_kind error) ≡ true) }
{
    let found = from.reader.read_byte_record(&mut from.last)?;
    Ok(found)
}

/// Reads the next record of a text in memory, where it has no more fields than a table has columns. Only memory can fail.
fn next_record<'text>(from: &mut Records<'_>, text: &'text [u8]) -> Result<Next<'text>, TableFault>
    requires { HasLeft from.old.reader (records default_config text.now) }
    ensures next { IfOk result (λ next. ReadsNext from.new.reader text.now (fields_of from.new.last) next) }
    ensures memory { IfErr result (λ fault. fault ≡ TableFault.OutOfMemory) }
{
    let next = next_in(text);
    if let Next::Narrow(_) = next {
        let Ok(_found) = read_next(from) else {
            return Err(TableFault::OutOfMemory);
        };
    }
    Ok(next)
}

/// The schema of a header.
fn read_schema(alloc: Global, header: &ByteRecord) -> Result<Schema, TableFault>
    ensures { Gives (λ schema. schema) result (schema_of (map without_blanks (fields_of header.now))) }
{
    let mut names: Vec<&[u8]> = Vec::new(alloc);
    for field in header {
        names.push(trim_blanks(field))?;
    }
    Schema::new(alloc, names.as_slice())
}

fn record_row(schema: &Schema, row: u64, cells_text: &ByteRecord) -> Result<Row, TableFault>
    ensures { result ≡ row_of (length schema.now) row (fields_of cells_text.now) }
{
    row_of_fields(schema, row, cells_text.len(), cells_text.iter())
}

/// Reads the names in the first record of a text, and gives what follows it.
fn read_header<'text>(
    alloc: Global,
    from: &mut Records<'_>,
    text: &'text [u8],
) -> Result<(Schema, &'text [u8]), TableFault>
    requires { HasLeft from.old.reader (records default_config text.now) }
    ensures names { Gives (λ read. read.0) result (header_names (records default_config text.now)) }
    ensures rest { IfOk result (λ read. records default_config read.1.now ≡ drop 1 (records default_config text.now)) }
    ensures left { IfOk result (λ read. HasLeft from.new.reader (records default_config read.1.now)) }
{
    match next_record(from, text)? {
        Next::Nothing => Err(TableFault::NoColumns),
        Next::Wide => Err(TableFault::TooManyColumns),
        Next::Narrow(rows) => Ok((read_schema(alloc, &from.last)?, rows)),
    }
}

/// Reads the rows of a text behind those that are read already, up to its end.
#[tactic(auto, using(crate::proofs::TablesFacts::rows_with_none))]
fn read_rows(
    schema: &Schema,
    mut rows: Vec<Row>,
    from: &mut Records<'_>,
    text: &[u8],
) -> Result<Vec<Row>, TableFault>
    requires few { length rows.items ≤ 65536 }
    requires left { HasLeft from.old.reader (records default_config text.now) }
    ensures { Gives (λ rows. rows.items) result (rows_with (length schema.now) rows.items (records default_config text.now)) }
{
    let _width = schema.width();
    let mut left = text;
    for row in rows.len() as u64 + 1..MAX_ROWS + 1 {
        match next_record(from, left)? {
            Next::Nothing => return Ok(rows),
            Next::Wide => return Err(TableFault::Width { row }),
            Next::Narrow(more) => {
                rows.push(record_row(schema, row, &from.last)?)?;
                left = more;
            }
        }
    }
    match next_in(left) {
        Next::Nothing => Ok(rows),
        _ => Err(TableFault::TooManyRows),
    }
}

/// The table of a header and the lines under it. The first lines are read without csv, as far as they are rows of plain digits.
fn read_lines(alloc: Global, header: &[u8], lines: &[u8]) -> Result<(Schema, Vec<Row>), TableFault>
    requires marks { strip_bom header.now ≡ header.now }
    requires plain { IsPlainLine header.now }
    requires ends { IsLineEnd lines.now }
    ensures { Gives (λ table. (table.0, table.1.items)) result (table_of_records (records default_config (header.now ++ lines.now))) }
{
    let (schema, _) = read_header(alloc, &mut records_of(alloc, header), header)?;
    let (rows, left) = plain_rows(alloc, schema.width(), lines)?;
    if left.len() <= 1 {
        // At most a line feed is left, and no record.
        return Ok((schema, rows));
    }
    let rows = read_rows(&schema, rows, &mut records_of(alloc, left), left)?;
    Ok((schema, rows))
}

/// The table of a text whose records csv reads.
#[tactic(auto, using(crate::proofs::TablesFacts::fails_on, crate::proofs::TablesFacts::table_names))]
fn read_records(alloc: Global, text: &[u8]) -> Result<(Schema, Vec<Row>), TableFault>
    requires { strip_bom text.now ≡ text.now }
    ensures { Gives (λ table. (table.0, table.1.items)) result (table_of_records (records default_config text.now)) }
{
    let mut from = records_of(alloc, text);
    let (schema, lines) = read_header(alloc, &mut from, text)?;
    let rows = read_rows(&schema, Vec::new(alloc), &mut from, lines)?;
    Ok((schema, rows))
}

/// The schema and the rows of a table text: its first record is the header, and each further one a row.
///
/// Records and fields are those that the crate `csv` reads with its defaults, after byte order marks at the very
/// beginning. The faults come in the order of the text: those of the header as `Schema::new` orders them, then record by
/// record `TooManyRows`, `Width`, and from the left `NotWhole` or `OutOfRange`; `OutOfMemory` as soon as memory runs out.
/// Reads the text once, keeps one record at a time, and stops at the first fault and after 65,537 rows.
///
/// Rows of plain digits, perhaps behind signs, are read in one pass without the reader of `csv`, up to the first other line.
///
/// ```rust
/// let (schema, rows) = read_table(alloc, b"price,dist\n50,8\n60,5\n")?;
/// ```
pub fn read_table(alloc: Global, bytes: &[u8]) -> Result<(Schema, Vec<Row>), TableFault>
    ensures { Gives (λ table. (table.0, table.1.items)) result (table_of bytes.now) }
{
    let text = skip_marks(bytes);
    match cut_header(text) {
        Some((header, lines)) => read_lines(alloc, header, lines),
        None => read_records(alloc, text),
    }
}
