//! Table texts with the results that the format names.
mod numbers;
mod refusals;

use crate::same::{assert_messages, assert_same};
use pref_table::engine::{blanks_length, is_name_byte, signed_number};
use pref_table::{Row, Schema, TableFault, read_row, read_table};
use std::alloc::{AllocError, Global};
use std::process::Abort;

fn fault_of(alloc: Global, text: &[u8]) -> Option<TableFault> {
    read_table(alloc, text).err()
}

/// The cells of the first two columns of a row.
fn pair(row: &Row) -> (i64, i64) {
    (row.cell(0), row.cell(1))
}

/// The columns are a and b.
fn check_columns(rt: &impl Abort, schema: &Schema) {
    let found = (schema.width(), schema.index_of(b"b"), schema.index_of(b"B"));
    assert_same(rt, "width, b, B", found, (2, Some(1), None));
}

/// The only row holds a 7 and a 0.
fn check_rows(rt: &impl Abort, rows: &[Row]) {
    let [row] = rows else {
        panic!(rt; "not one row");
    };
    let found = (pair(row), row.cell(15));
    assert_same(rt, "its columns, no column", found, ((7, 0), 0));
}

#[test]
fn marks_quotes_and_line_ends(rt: HostRuntime) {
    let text = b"\xEF\xBB\xBF\xEF\xBB\xBF\"a\",\"b\"\r\n +007 ,-0\r\n";
    let (schema, rows) = read_table(rt.alloc(), text).expect(&rt, "a table");
    check_columns(&rt, &schema);
    check_rows(&rt, rows.as_slice());
}

/// How many rows a table text has, and the first two cells of the first.
fn count_and_first(alloc: Global, text: &[u8]) -> Result<(usize, Option<(i64, i64)>), TableFault> {
    let (_, rows) = read_table(alloc, text)?;
    Ok((rows.len(), rows.first().map(pair)))
}

/// Rows of plain digits are read another way than the rows behind the first other line.
static TABLES: [(&str, &[(i64, i64)]); 20] = [
    ("a,b\n1,2\n-3,+4\n", &[(1, 2), (-3, 4)]),
    ("a,b\n1,2\n\"3\",4\n5,6", &[(1, 2), (3, 4), (5, 6)]),
    ("a,b\n1,2\n3,4\r\n5,6\r\n", &[(1, 2), (3, 4), (5, 6)]),
    ("a,b\r\n1,2\r\n3,4\n", &[(1, 2), (3, 4)]),
    ("a,b\n1,2\n 3 ,\t4\n5,6\n", &[(1, 2), (3, 4), (5, 6)]),
    ("a,b\n1,2\n\n\n3,4\n\n", &[(1, 2), (3, 4)]),
    ("a,b\n1,2\r3,4", &[(1, 2), (3, 4)]),
    ("a,b\r\n1,2\r\r\n3,4\r", &[(1, 2), (3, 4)]),
    ("\"a\",b\n1,2\n3,\"4\"\n", &[(1, 2), (3, 4)]),
    (
        "a\n1\n9223372036854775807\n2\n",
        &[(1, 0), (i64::MAX, 0), (2, 0)],
    ),
    ("\u{FEFF}a,b\n1,2\n", &[(1, 2)]),
    ("a,b\n", &[]),
    (
        "\"a\",b,c,d,e,f,g,h,i,j,k,l,m,n,o,p\n1,2,3,4,5,6,7,8,9,10,11,12,13,14,15,\"16\"\n",
        &[(1, 2)],
    ),
    ("x\n\n1\n", &[(1, 0)]),
    ("a,b\n1,\"2\"\r3,4", &[(1, 2), (3, 4)]),
    ("a\n\"5", &[(5, 0)]),
    ("\"price\",\"rating\"\n-10,3\n20,5\n", &[(-10, 3), (20, 5)]),
    (" a\t, b \n1,2\r\n", &[(1, 2)]),
    ("\u{FEFF}\u{FEFF}\u{FEFF}a\n1\n", &[(1, 0)]),
    ("a", &[]),
];

/// A table text has rows whose first two cells are these.
fn check_table(rt: &impl Abort, alloc: Global, text: &str, wanted: &[(i64, i64)]) {
    let (_, rows) = read_table(alloc, text.as_bytes()).expect(rt, text);
    assert_same(rt, (text, "rows"), rows.len(), wanted.len());
    for (row, cells) in rows.as_slice().iter().zip(wanted) {
        assert_same(rt, text, pair(row), *cells);
    }
}

#[test]
fn records_as_csv_reads_them(rt: HostRuntime) {
    for (text, wanted) in &TABLES {
        check_table(&rt, rt.alloc(), text, wanted);
    }
}

static FAULTS_BEHIND_PLAIN_ROWS: [(&str, TableFault); 9] = [
    ("a,b\n1,2\n3,x\n", TableFault::NotWhole { row: 2, col: 2 }),
    ("a,b\n1,2\n3,4\n5\n6,7\n", TableFault::Width { row: 3 }),
    ("a,b\n1,2\n3,4,5\n", TableFault::Width { row: 2 }),
    ("a,b\n1,2,\n", TableFault::Width { row: 1 }),
    ("a\n1\n\u{FEFF}2\n", TableFault::NotWhole { row: 2, col: 1 }),
    ("a\n1\n2\n\n\n-\n", TableFault::NotWhole { row: 3, col: 1 }),
    ("a\n1\n\"2\"\nx", TableFault::NotWhole { row: 3, col: 1 }),
    ("a\n1\n\"2\n\"\n", TableFault::NotWhole { row: 2, col: 1 }),
    (
        "a\n1\n9223372036854775808\n",
        TableFault::OutOfRange { row: 2, col: 1 },
    ),
];

/// Table texts, and the fault of each.
fn check_refused(rt: &impl Abort, alloc: Global, cases: &[(&str, TableFault)]) {
    for (text, fault) in cases {
        let found = fault_of(alloc, text.as_bytes());
        assert_same(rt, *text, found, Some(*fault));
    }
}

static REFUSED: [(&str, TableFault); 18] = [
    ("", TableFault::NoColumns),
    ("\n\n", TableFault::NoColumns),
    ("a,a", TableFault::SameName { col: 2 }),
    ("a,", TableFault::BadName { col: 2 }),
    ("a,b,a,1", TableFault::SameName { col: 3 }),
    ("1,1", TableFault::BadName { col: 1 }),
    ("_a", TableFault::BadName { col: 1 }),
    (
        "a,b,c,d,e,f,g,h,i,j,k,l,m,n,o,p,q",
        TableFault::TooManyColumns,
    ),
    (",,,,,,,,,,,,,,,,", TableFault::TooManyColumns),
    ("a\n1,2", TableFault::Width { row: 1 }),
    ("a,b\n1,2\nNA", TableFault::Width { row: 2 }),
    ("a\nNA", TableFault::NotWhole { row: 1, col: 1 }),
    ("a\n\"1\"\"2\"", TableFault::NotWhole { row: 1, col: 1 }),
    ("a\n+-5", TableFault::NotWhole { row: 1, col: 1 }),
    ("x,y\n1,2\n3,1.5\n", TableFault::NotWhole { row: 2, col: 2 }),
    (
        "x\n9223372036854775808\n",
        TableFault::OutOfRange { row: 1, col: 1 },
    ),
    (
        "x\n99999999999999999999x\n",
        TableFault::NotWhole { row: 1, col: 1 },
    ),
    ("x,y\n\"1,2\",3\n", TableFault::NotWhole { row: 1, col: 1 }),
];

/// Texts of which a record has one field more than a table has columns, unless commas are inside quotes.
static WIDE: [(&str, TableFault); 9] = [
    ("\"a\",,,,,,,,,,,,,,,,", TableFault::TooManyColumns),
    ("\n\r\n\"a\",,,,,,,,,,,,,,,,\n1", TableFault::TooManyColumns),
    (
        "\",,,,,,,,,,,,,,,,\"\"\"\n1",
        TableFault::BadName { col: 1 },
    ),
    ("a\n,,,,,,,,,,,,,,,,\n", TableFault::Width { row: 1 }),
    (
        "a\n1\n\"2\"\r\"3\",,,,,,,,,,,,,,,,",
        TableFault::Width { row: 3 },
    ),
    ("a\n\"1\n\",,,,,,,,,,,,,,,,\n", TableFault::Width { row: 1 }),
    (
        "a\nx\n,,,,,,,,,,,,,,,,",
        TableFault::NotWhole { row: 1, col: 1 },
    ),
    (
        "a\n\"1,,,,,,,,,,,,,,,,\"",
        TableFault::NotWhole { row: 1, col: 1 },
    ),
    ("a\n1\"2,,,,,,,,,,,,,,,,\"", TableFault::Width { row: 1 }),
];

#[test]
fn refused_texts(rt: HostRuntime) {
    check_refused(&rt, rt.alloc(), &REFUSED);
    check_refused(&rt, rt.alloc(), &WIDE);
    check_refused(&rt, rt.alloc(), &FAULTS_BEHIND_PLAIN_ROWS);
}

/// Adds a line to a text this many times.
fn add_lines(text: &mut Vec<u8>, line: &[u8], times: usize) -> Result<(), AllocError> {
    for _ in 0..times {
        text.extend_from_slice(line)?;
    }
    Ok(())
}

/// The text of these lines, of which each comes this many times.
fn text_of(alloc: Global, lines: &[(&str, usize)]) -> Result<Vec<u8>, AllocError> {
    let mut text = Vec::new(alloc);
    for (line, times) in lines {
        add_lines(&mut text, line.as_bytes(), *times)?;
    }
    Ok(text)
}

/// A text of these lines has the most rows that a table can have, and with one more line too many.
fn check_last_row(rt: &impl Abort, alloc: Global, lines: &[(&str, usize)], line: &[u8]) {
    let mut text = text_of(alloc, lines).expect(rt, "memory");
    let found = count_and_first(alloc, text.as_slice());
    let count = found.map(|(count, _)| count);
    assert_same(rt, "the last row", count, Ok(65_536));
    text.extend_from_slice(line).expect(rt, "memory");
    let found = fault_of(alloc, text.as_slice());
    assert_same(rt, "one more", found, Some(TableFault::TooManyRows));
}

/// Also where the last rows are behind plain ones.
#[test]
fn the_row_after_the_last_is_too_many(rt: HostRuntime) {
    let signed = [("a\n", 1), ("-12\n", 65_536)];
    check_last_row(&rt, rt.alloc(), &signed, b"1,2\n");
    let plain_first = [("a\n", 1), ("7\n", 65_534), ("\"8\"\n9\n", 1)];
    check_last_row(&rt, rt.alloc(), &plain_first, b"10\n");
}

/// The longest name and a short one.
fn check_names(rt: &impl Abort, schema: &Schema, longest: &[u8]) {
    let found = (schema.width(), schema.index_of(longest), schema.name(0));
    assert_same(rt, "width, place, name", found, (2, Some(0), longest));
}

#[test]
fn names_of_a_schema(rt: HostRuntime) {
    let too_long = [b"abcdefghijklmnopqrstuvwxyz_.01234".as_slice()];
    let returned = Schema::new(rt.alloc(), too_long.as_slice()).err();
    let wanted = Some(TableFault::BadName { col: 1 });
    assert_same(&rt, "too long", returned, wanted);
    let longest = b"abcdefghijklmnopqrstuvwxyz_.0123";
    let names = [longest.as_slice(), b"y_1".as_slice()];
    let schema = Schema::new(rt.alloc(), names.as_slice()).expect(&rt, "two columns");
    check_names(&rt, &schema, longest);
}

static LINES: [(&str, Result<[i64; 2], TableFault>); 7] = [
    (" 3\t,-9223372036854775808", Ok([3, i64::MIN])),
    (
        "000000000000000007,999999999999999999",
        Ok([7, 999_999_999_999_999_999]),
    ),
    (
        "1000000000000000000,9223372036854775807",
        Ok([1_000_000_000_000_000_000, i64::MAX]),
    ),
    ("1", Err(TableFault::Width { row: 0 })),
    ("", Err(TableFault::Width { row: 0 })),
    ("1,", Err(TableFault::NotWhole { row: 0, col: 2 })),
    (
        "9223372036854775808,1",
        Err(TableFault::OutOfRange { row: 0, col: 1 }),
    ),
];

/// Lines over the columns of a schema, and of each the cells of its row or its fault.
fn check_lines(rt: &impl Abort, schema: &Schema, lines: &[(&str, Result<[i64; 2], TableFault>)]) {
    for (line, cells) in lines {
        let wanted = match cells {
            Ok(cells) => Row::of(schema, cells.as_slice()),
            Err(fault) => Err(*fault),
        };
        assert_same(rt, *line, read_row(schema, line.as_bytes()), wanted);
    }
}

/// Rows have the cells that they are made of, one for each column.
fn check_rows_of_cells(rt: &impl Abort, schema: &Schema) {
    let row = Row::of(schema, [3, i64::MIN].as_slice()).expect(rt, "a row");
    assert_same(rt, "its cells", pair(&row), (3, i64::MIN));
    let short = Row::of(schema, [1].as_slice());
    assert_same(rt, "one cell", short, Err(TableFault::Width { row: 0 }));
}

#[test]
fn rows_of_a_line(rt: HostRuntime) {
    let names = [b"x".as_slice(), b"y_1".as_slice()];
    let schema = Schema::new(rt.alloc(), names.as_slice()).expect(&rt, "two columns");
    check_rows_of_cells(&rt, &schema);
    check_lines(&rt, &schema, &LINES);
    check_lines(&rt, &schema, &numbers::LINES);
}

static NAME_BYTES: [(u8, bool); 6] = [
    (b'a', true),
    (b'Z', true),
    (b'0', true),
    (b'_', true),
    (b'.', true),
    (b'-', false),
];

static SIGNED_DIGITS: [(bool, &str, Option<i64>); 4] = [
    (true, "007", Some(-7)),
    (true, "9223372036854775808", Some(i64::MIN)),
    (false, "9223372036854775808", None),
    (false, "7.", None),
];

#[test]
fn parts_that_questions_share(rt: HostRuntime) {
    assert_same(&rt, "blanks", blanks_length(b" \t x "), 3);
    for (byte, wanted) in &NAME_BYTES {
        assert_same(&rt, *byte, is_name_byte(*byte), *wanted);
    }
    for (is_minus, digits, wanted) in &SIGNED_DIGITS {
        let found = signed_number(*is_minus, digits.as_bytes());
        assert_same(&rt, *digits, found, *wanted);
    }
}

static MESSAGES: [(TableFault, &str); 9] = [
    (TableFault::NoColumns, "no columns"),
    (TableFault::TooManyColumns, "too many columns"),
    (TableFault::BadName { col: 3 }, "bad name col 3"),
    (TableFault::SameName { col: 4 }, "same name col 4"),
    (TableFault::Width { row: 5 }, "width row 5"),
    (
        TableFault::NotWhole { row: 6, col: 1 },
        "not whole row 6 col 1",
    ),
    (
        TableFault::OutOfRange { row: 7, col: 2 },
        "out of range row 7 col 2",
    ),
    (TableFault::TooManyRows, "too many rows"),
    (TableFault::OutOfMemory, "out of memory"),
];

#[test]
fn messages(rt: HostRuntime) {
    assert_messages(&rt, rt.alloc(), &MESSAGES);
}
