//! What is shown of questions.
use crate::same::assert_same;
use pref_table::Schema;
use pref_term::{read_ask, show};
use std::alloc::Global;
use std::process::Abort;

/// What is shown of a text over the columns x, y, z, g and h.
fn shown(rt: &impl Abort, alloc: Global, text: &[u8]) -> Vec<u8> {
    let names: [&[u8]; 5] = [b"x", b"y", b"z", b"g", b"h"];
    let schema = Schema::new(alloc, &names).expect(rt, "columns");
    let ask = read_ask(alloc, &schema, text).expect(rt, "a question");
    show(alloc, &schema, &ask).expect(rt, "memory")
}

static SPELLINGS: [(&str, &str); 13] = [
    (
        "best low(x)*low(y)&high(z)",
        "best low(x) * low(y) & high(z)",
    ),
    (
        "best low(x)*(low(y)*high(z))",
        "best low(x) * (low(y) * high(z))",
    ),
    ("best ((low(x)))", "best low(x)"),
    (
        "best reverse(low(x) & pos(y,-1,2))",
        "best -(low(x) & pos(y, -1, 2))",
    ),
    ("best low(x)*-high(y)", "best low(x) * -high(y)"),
    (
        "SKYLINE OF x Min, g DIFF, y max",
        "best low(x) * high(y) by g",
    ),
    (
        "at_least 007 around( x , - 3 ) by g,h",
        "at_least 7 around(x, -3) by g, h",
    ),
    (
        "top_level 1000 (low(x) & low(y)) * low(z)",
        "top_level 1000 (low(x) & low(y)) * low(z)",
    ),
    (
        "best low(x)&(low(y)&low(z))",
        "best low(x) & (low(y) & low(z))",
    ),
    ("best - -(low(x)*low(y))", "best --(low(x) * low(y))"),
    (
        "best around(x, -9223372036854775808)",
        "best around(x, -9223372036854775808)",
    ),
    (
        "best -between(y,-  9223372036854775808,007)",
        "best -between(y, -9223372036854775808, 7)",
    ),
    (
        "best -layered(y,{-  1,02,2},{007})",
        "best -layered(y, {-1, 2, 2}, {7})",
    ),
];

fn check_spelling(rt: &impl Abort, alloc: Global, text: &str, wanted: &str) {
    let found = shown(rt, alloc, text.as_bytes());
    assert_same(rt, text, found.as_slice(), wanted.as_bytes());
}

#[test]
fn shown_in_one_spelling(rt: HostRuntime) {
    for (text, wanted) in &SPELLINGS {
        check_spelling(&rt, rt.alloc(), text, wanted);
    }
}

static TEXTS: [&str; 7] = [
    "best reverse((low(x)&-(low(y)*low(z)))*pos(g,3,-4,3)) by h,x",
    "at_least 1000 reverse(reverse(around(h,9223372036854775807)))",
    "skyline of h DIFF, z max, y min, x max, g diff",
    "best layered(g,{3,-4,3},{3})*-layered(h,{-9223372036854775808})&low(x)",
    "skyline of Distinct h DIFF, z max, y min, x max, g diff",
    "best between(g,-5,-5)*-between(h,-3,9223372036854775807)&low(x)",
    "top_level 01 (((low(x)*high(x))&low(x))&low(y))&(low(x)&low(y))*(low(x)*low(y))",
];

/// What is shown of a text is shown of itself.
fn check_shown_again(rt: &impl Abort, alloc: Global, text: &str) {
    let first = shown(rt, alloc, text.as_bytes());
    let second = shown(rt, alloc, first.as_slice());
    assert_same(rt, text, first.as_slice(), second.as_slice());
}

#[test]
fn what_was_shown_is_shown_again(rt: HostRuntime) {
    for text in &TEXTS {
        check_shown_again(&rt, rt.alloc(), text);
    }
}
