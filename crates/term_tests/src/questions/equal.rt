//! Terms, sets and questions that are equal exactly where the same is seen of them.

use super::{XYG, ask_over, set_of};
use crate::same::assert_same;
use pref_term::Term;
use std::alloc::Global;
use std::process::Abort;

static PAIRS_OF_QUESTIONS: [(&str, &str, bool); 23] = [
    (
        "best low(x) * low(y) by g",
        "skyline of x min, g diff, y min",
        true,
    ),
    ("best ((low(x)))", "best low(x)", true),
    ("best reverse(high(x))", "best -high(x)", true),
    ("best --low(x)", "best low(x)", false),
    ("best low(x)", "best high(x)", false),
    ("best low(x) & low(y)", "best low(y) & low(x)", false),
    ("best low(x) & low(y)", "best low(x) * low(y)", false),
    ("best pos(x, 1, 2)", "best pos(x, 2, 1)", false),
    ("best around(x, 1)", "best around(x, 2)", false),
    ("best between(x, 1, 2)", "best between( x , 1 , 02 )", true),
    ("best between(x, 1, 2)", "best between(y, 1, 2)", false),
    ("best between(x, 1, 2)", "best between(x, 0, 2)", false),
    ("best between(x, 1, 2)", "best between(x, 1, 3)", false),
    ("best between(x, 1, 1)", "best around(x, 1)", false),
    (
        "best layered(x, {1, 2}, {3})",
        "best layered( x ,{1,02}, { 3 } )",
        true,
    ),
    (
        "best layered(x, {1, 2}, {3})",
        "best layered(x, {2, 1}, {3})",
        false,
    ),
    (
        "best layered(x, {1, 2}, {3})",
        "best layered(x, {3}, {1, 2})",
        false,
    ),
    (
        "best layered(x, {1, 2}, {3})",
        "best layered(x, {1, 2, 3})",
        false,
    ),
    (
        "best layered(x, {1, 2}, {3})",
        "best layered(y, {1, 2}, {3})",
        false,
    ),
    ("best layered(x, {1, 2})", "best pos(x, 1, 2)", false),
    ("best low(x) by g", "best low(x)", false),
    ("skyline of x min", "skyline of distinct x min", false),
    ("top_level 1 low(x)", "at_least 1 low(x)", false),
];

fn check_equal_terms(rt: &impl Abort) {
    let low = Term::Low { col: 0 };
    let found = (low == Term::Low { col: 0 }, low == Term::Low { col: 1 });
    assert_same(rt, "one column, two columns", found, (true, false));
}

fn check_equal_sets(rt: &impl Abort, alloc: Global) {
    let set = set_of(rt, alloc, &[2, 5]);
    let one = set == set_of(rt, alloc, &[2, 5]);
    let two = set == set_of(rt, alloc, &[2]);
    assert_same(rt, "one set, two sets", (one, two), (true, false));
}

/// Whether two questions over the columns x, y and g are equal.
fn check_equal(rt: &impl Abort, alloc: Global, case: &(&str, &str, bool)) {
    let (first, second, wanted) = *case;
    let ask = ask_over(alloc, &XYG, first.as_bytes()).expect(rt, first);
    let other = ask_over(alloc, &XYG, second.as_bytes()).expect(rt, second);
    assert_same(rt, (first, second), ask == other, wanted);
}

#[test]
fn equal_where_the_same_is_seen(rt: HostRuntime) {
    for case in &PAIRS_OF_QUESTIONS {
        check_equal(&rt, rt.alloc(), case);
    }
    check_equal_terms(&rt);
    check_equal_sets(&rt, rt.alloc());
}
