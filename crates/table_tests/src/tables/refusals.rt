//! Requests for memory that are refused. `tests/refuse_each_allocation.sh` runs these tests once for each of their requests,
//! and refuses it; where none is refused they show that the calls succeed.
use super::pair;
use crate::same::assert_same;
use pref_table::{Row, Schema, TableFault, read_table};
use std::alloc::Global;
use std::process::Abort;

/// A table text that is read, again where memory was refused.
fn read_in_the_end(rt: &impl Abort, alloc: Global, text: &[u8]) -> (Schema, Vec<Row>) {
    match read_table(alloc, text) {
        Ok(table) => table,
        Err(fault) => {
            assert_same(rt, "refused", fault, TableFault::OutOfMemory);
            read_table(alloc, text).expect(rt, "memory")
        }
    }
}

#[test]
fn a_refused_reading_of_a_table_is_reported_and_made_again(rt: HostRuntime) {
    let text = b"price,\"city\"\n1,2\n\"-3\",4\n5,6\n7,8\n9,10\n";
    let (schema, rows) = read_in_the_end(&rt, rt.alloc(), text);
    let columns = (schema.width(), schema.index_of(b"city"));
    assert_same(&rt, "width, city", columns, (2, Some(1)));
    let cells = (rows.len(), rows.get(1).map(pair), rows.get(4).map(pair));
    let wanted = (5, Some((-3, 4)), Some((9, 10)));
    assert_same(&rt, "rows, second, last", cells, wanted);
}

/// A schema of these columns, made again where memory was refused.
fn schema_in_the_end(rt: &impl Abort, alloc: Global, names: &[&[u8]]) -> Schema {
    match Schema::new(alloc, names) {
        Ok(schema) => schema,
        Err(fault) => {
            assert_same(rt, "refused", fault, TableFault::OutOfMemory);
            Schema::new(alloc, names).expect(rt, "memory")
        }
    }
}

#[test]
fn a_refused_schema_is_reported_and_made_again(rt: HostRuntime) {
    let names = [b"x".as_slice(), b"y".as_slice(), b"z".as_slice()];
    let schema = schema_in_the_end(&rt, rt.alloc(), names.as_slice());
    assert_same(&rt, "z", schema.index_of(b"z"), Some(2));
}
