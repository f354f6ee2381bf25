//! Number fields, in lines of text and in table texts.
use super::count_and_first;
use crate::same::assert_same;
use pref_table::{Schema, TableFault, read_row};
use std::alloc::Global;
use std::process::Abort;

/// The only cell of a line over one column.
fn cell_of_line(alloc: Global, field: &str) -> Result<i64, TableFault> {
    let names = [b"x".as_slice()];
    let schema = Schema::new(alloc, names.as_slice())?;
    Ok(read_row(&schema, field.as_bytes())?.cell(0))
}

/// The only cell of a table text over one column.
fn cell_of_text(alloc: Global, field: &str) -> Result<i64, TableFault> {
    let text = format!(in alloc; "x\n{field}\n")?;
    let (_, first) = count_and_first(alloc, text.as_bytes())?;
    Ok(first.map_or(0, |(cell, _)| cell))
}

static NUMBERS: [(&str, i64); 24] = [
    ("7", 7),
    ("-7", -7),
    ("+5", 5),
    ("-0", 0),
    ("1234567", 1_234_567),
    ("12345678", 12_345_678),
    ("-90817263", -90_817_263),
    ("123456789", 123_456_789),
    ("123456789012345", 123_456_789_012_345),
    ("1234567890123456", 1_234_567_890_123_456),
    ("-12345678901234567", -12_345_678_901_234_567),
    ("908172635445362718", 908_172_635_445_362_718),
    ("+0", 0),
    ("999999999999999999", 999_999_999_999_999_999),
    ("-999999999999999999", -999_999_999_999_999_999),
    ("+999999999999999999", 999_999_999_999_999_999),
    ("1000000000000000000", 1_000_000_000_000_000_000),
    ("-1000000000000000000", -1_000_000_000_000_000_000),
    ("-000000000000000000007", -7),
    ("9223372036854775807", i64::MAX),
    ("-9223372036854775808", i64::MIN),
    ("\t -12 ", -12),
    (" +12\t", 12),
    ("12 ", 12),
];

/// The only cell of a field as a line and in a table text.
fn check_cells(
    rt: &impl Abort,
    alloc: Global,
    field: &str,
    in_line: Result<i64, TableFault>,
    in_text: Result<i64, TableFault>,
) {
    let found = (cell_of_line(alloc, field), cell_of_text(alloc, field));
    assert_same(rt, field, found, (in_line, in_text));
}

#[test]
fn whole_numbers(rt: HostRuntime) {
    for (field, wanted) in &NUMBERS {
        check_cells(&rt, rt.alloc(), field, Ok(*wanted), Ok(*wanted));
    }
}

static NO_NUMBERS: [&str; 16] = [
    "-",
    "+",
    " ",
    "--1",
    "+-1",
    "- 1",
    "1-",
    "1 2",
    "1.",
    "0x1",
    "-:",
    "1/",
    "1234567/",
    "12345678:",
    "1234567x90123456",
    "123456789012345/7",
];

static PAST_A_CELL: [&str; 2] = ["9223372036854775808", "-9223372036854775809"];

/// Fields that are refused, each with this fault in a line and that in a text.
fn check_no_cells(
    rt: &impl Abort,
    alloc: Global,
    fields: &[&str],
    in_line: TableFault,
    in_text: TableFault,
) {
    for field in fields {
        check_cells(rt, alloc, field, Err(in_line), Err(in_text));
    }
}

#[test]
fn fields_that_are_no_cells(rt: HostRuntime) {
    let in_line = TableFault::NotWhole { row: 0, col: 1 };
    let in_text = TableFault::NotWhole { row: 1, col: 1 };
    check_no_cells(&rt, rt.alloc(), &NO_NUMBERS, in_line, in_text);
    let in_line = TableFault::OutOfRange { row: 0, col: 1 };
    let in_text = TableFault::OutOfRange { row: 1, col: 1 };
    check_no_cells(&rt, rt.alloc(), &PAST_A_CELL, in_line, in_text);
}

/// Lines over two columns, as those of `rows_of_a_line`.
pub(super) static LINES: [(&str, Result<[i64; 2], TableFault>); 12] = [
    ("-3,-45", Ok([-3, -45])),
    ("-3, -45", Ok([-3, -45])),
    (" -3,-45\t", Ok([-3, -45])),
    ("-3", Err(TableFault::Width { row: 0 })),
    ("-3,-45,", Err(TableFault::Width { row: 0 })),
    ("-3,-45,6", Err(TableFault::Width { row: 0 })),
    ("x,-45,6", Err(TableFault::Width { row: 0 })),
    ("x", Err(TableFault::Width { row: 0 })),
    ("-3,", Err(TableFault::NotWhole { row: 0, col: 2 })),
    (",-45", Err(TableFault::NotWhole { row: 0, col: 1 })),
    ("-3,-45x", Err(TableFault::NotWhole { row: 0, col: 2 })),
    ("\"3\",4", Err(TableFault::NotWhole { row: 0, col: 1 })),
];
