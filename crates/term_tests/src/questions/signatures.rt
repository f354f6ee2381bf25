//! Signatures of rows, by the scales that questions make and take.
use super::{XY, ask_over, row_over};
use crate::same::assert_same;
use pref_table::Row;
use pref_term::engine::{Scales, is_within};
use pref_term::{Ask, Dominance, Relation};
use std::alloc::Global;
use std::process::Abort;

/// All rows with cells from -1 to 1.
pub(super) fn small_rows(rt: &impl Abort, alloc: Global) -> Vec<Row> {
    let mut rows = Vec::new(alloc);
    for place in 0..9 {
        let cells = [place % 3 - 1, place / 3 - 1];
        let row = row_over(alloc, &XY, &cells).expect(rt, "a row");
        rows.push(row).expect(rt, "memory");
    }
    rows
}

static LEADING_PARTS: [(&str, &str); 10] = [
    ("best low(x) * high(y)", "best low(x) * high(y)"),
    (
        "best around(x, 1) * -around(y, 0)",
        "best around(x, 1) * -around(y, 0)",
    ),
    (
        "best between(x, 0, 1) * -between(y, 0, 1)",
        "best between(x, 0, 1) * -between(y, 0, 1)",
    ),
    ("best low(x) & high(y)", "best low(x)"),
    ("best -(high(x) & low(y))", "best low(x)"),
    ("best low(x) * pos(y, 0)", "best low(x) * pos(y, 0)"),
    ("best -pos(x, 0, 1) & low(y)", "best -pos(x, 0, 1)"),
    (
        "best layered(x, {1}, {-1}) * high(y)",
        "best layered(x, {1}, {-1}) * high(y)",
    ),
    ("at_least 3 -low(x) by y", "best high(x)"),
    ("skyline of distinct x min, y diff", "skyline of x min"),
];

/// Of all pairs of these rows the signature of the first is within that of the second just where the first is not worse.
fn check_pairs(rt: &impl Abort, text: &str, ask: &Ask, scales: &Scales, rows: &[Row]) {
    for first in rows {
        for second in rows {
            let within = is_within(scales.signature(first), scales.signature(second));
            let relation = ask.compare(first, second);
            let wanted = matches!(relation, Relation::Better | Relation::Same);
            assert_same(rt, (text, first, second), within, wanted);
        }
    }
}

/// The scales that a question makes from these rows tell them apart as its leading part does.
fn check_signatures(rt: &impl Abort, alloc: Global, rows: &[Row], (text, leading): (&str, &str)) {
    let ask = ask_over(alloc, &XY, text.as_bytes()).expect(rt, text);
    let scales = ask.scales(alloc, rows).expect(rt, text);
    let part = ask_over(alloc, &XY, leading.as_bytes()).expect(rt, leading);
    check_pairs(rt, text, &part, &scales, rows);
}

/// Where there is a cut at each value, a signature is within another just where its row is worse in no leading part.
#[test]
fn few_values_are_distinguished(rt: HostRuntime) {
    let rows = small_rows(&rt, rt.alloc());
    for case in &LEADING_PARTS {
        check_signatures(&rt, rt.alloc(), &rows, *case);
    }
}

/// Questions, and what decides between rows that are the same in the chains that lead them; nothing where these decide alone.
static PARTS_BEHIND: [(&str, Option<&str>); 7] = [
    ("best low(x) * high(y)", None),
    ("best low(x) & high(y)", None),
    ("best (low(x) * high(x)) & high(y)", Some("best high(y)")),
    ("best -((low(x) * high(x)) & high(y))", Some("best low(y)")),
    (
        "best (low(x) * high(x)) & high(y) & low(y)",
        Some("best high(y)"),
    ),
    (
        "best (low(x) * high(x)) & (low(y) * high(y))",
        Some("best low(y) * high(y)"),
    ),
    (
        "best low(x) & (low(y) * high(y) * around(y, 0) * pos(y, 1))",
        Some("best low(y) * high(y) * around(y, 0) * pos(y, 1)"),
    ),
];

/// The scales behind the chains of a question tell apart the rows that are the same in these, as what stands behind does.
fn check_behind(
    rt: &impl Abort,
    alloc: Global,
    rows: &[Row],
    (text, behind): (&str, Option<&str>),
) {
    let ask = ask_over(alloc, &XY, text.as_bytes()).expect(rt, text);
    let leading = ask.leading();
    assert_same(rt, text, leading.decides_alone(), behind.is_none());
    if let Some(behind) = behind {
        let part = ask_over(alloc, &XY, behind.as_bytes()).expect(rt, behind);
        let scales = leading.scales(alloc, rows).expect(rt, text);
        check_pairs(rt, text, &part, &scales, rows);
    }
}

#[test]
fn what_is_behind_the_chains_is_signed(rt: HostRuntime) {
    let rows = small_rows(&rt, rt.alloc());
    for case in &PARTS_BEHIND {
        check_behind(&rt, rt.alloc(), &rows, *case);
    }
}
