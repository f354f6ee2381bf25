//! The chains that lead questions, and the order of all keys.
ghost use Rattle.std.specs.Prelude.{All};
ghost use Rattle.pref_term.specs.Chains.{AreInRow};

use super::signatures::small_rows;
use super::{XY, ask_over, row_over};
use crate::same::assert_same;
use pref_table::Row;
use pref_term::engine::{Chain, in_same_group};
use pref_term::{Ask, Dominance, Relation, compare};
use std::alloc::Global;
use std::process::Abort;

/// Questions, how many chains lead them, and whether their product is all that the question says.
static QUESTIONS: [(&str, usize, bool); 28] = [
    ("best low(x)", 1, true),
    ("best -pos(x, 0) & low(y) & high(x)", 1, true),
    ("best low(x) & -(high(y) & low(x))", 1, true),
    ("best low(x) by y", 1, true),
    ("best low(x) * high(y)", 2, true),
    ("best -(low(x) * layered(y, {0}, {1}))", 2, true),
    ("best (low(x) & low(y)) * (around(y, 0) & high(x))", 2, true),
    ("best low(x) * low(x) * high(y)", 2, true),
    ("best low(x) * pos(y, 0)", 2, true),
    ("best around(x, 1) * -around(y, 0)", 2, true),
    ("best between(x, 0, 0) * -between(y, 0, 1)", 2, true),
    ("best -(low(x) * -(high(y) * around(x, 0)))", 3, true),
    ("best low(x) & (low(x) * high(y))", 2, true),
    // A chain stands before three others, and no more.
    (
        "best high(x) & (low(x) * around(x, 1) * around(x, 2))",
        3,
        true,
    ),
    (
        "best high(x) & (low(x) * around(x, 1) * around(x, 2) * around(x, 3))",
        1,
        false,
    ),
    ("best -(low(x) & (high(y) & (low(y) * -low(x))))", 2, true),
    ("best low(x) * (low(y) & (low(x) * low(y)))", 3, true),
    ("skyline of distinct x min, y max", 2, true),
    ("skyline of x min, y diff", 1, true),
    ("skyline of x min, y max, x max", 3, true),
    ("best low(x) * low(y) * low(x)", 2, true),
    ("best (low(x) & low(y)) * (low(x) & low(y))", 1, true),
    ("best (low(x) * low(y)) & high(x)", 2, false),
    ("best low(x) & (low(x) * low(y)) & low(y)", 2, false),
    ("best (low(x) * low(y)) & (low(y) * low(x))", 2, false),
    ("best ((low(x) * low(y)) & low(x)) * low(y)", 0, false),
    (
        "best (low(x) & ((low(x) * low(y)) & low(x))) * low(y)",
        0,
        false,
    ),
    (
        "best low(x) & (((low(x) * low(y)) & low(x)) * low(y))",
        1,
        false,
    ),
];

const ABCD: [&[u8]; 4] = [b"a", b"b", b"c", b"d"];

/// Questions over four columns, with the same.
static QUESTIONS_OF_FOUR: [(&str, usize, bool); 10] = [
    ("best (low(a) * low(b)) & low(c)", 2, false),
    ("best -((low(a) * low(b)) & low(c))", 2, false),
    ("best low(d) & ((low(a) * low(b)) & high(c))", 2, false),
    ("best low(a) * high(b) & pos(c, 1) & low(d)", 2, false),
    ("best -(low(a) & -(low(b) * low(c))) & high(d)", 2, false),
    ("best (low(a) * low(b)) & low(c) by d", 2, false),
    ("best low(a) * low(b) * low(c)", 3, true),
    ("best low(d) & (low(a) * (low(b) & high(c)))", 2, true),
    ("best (low(a) * low(b)) & (low(c) * low(d))", 2, false),
    ("best ((low(a) * low(b)) & low(c)) * low(d)", 0, false),
];

/// How two rows compare by the product of two relations.
fn product(first: Relation, second: Relation) -> Relation {
    match (first, second) {
        (Relation::Same, decided) | (decided, Relation::Same) => decided,
        (Relation::Better, Relation::Better) => Relation::Better,
        (Relation::Worse, Relation::Worse) => Relation::Worse,
        _ => Relation::Neither,
    }
}

/// How two rows compare by the product of some chains, and by these one after the other.
fn by_chains(chains: &[Chain], a: &Row, b: &Row) -> (Relation, Relation)
    requires { All AreInRow chains.now }
{
    let mut by_product = Relation::Same;
    let mut in_turn = Relation::Same;
    for chain in chains {
        let found = chain.compare(a, b);
        by_product = product(by_product, found);
        if in_turn.is_same() {
            in_turn = found;
        }
    }
    (by_product, in_turn)
}

/// What the chains say decides between two rows of a group, and is all that the question says where they are the whole.
fn check_product(
    rt: &impl Abort,
    (question, is_whole): (&str, bool),
    ask: &Ask,
    rows: (&Row, &Row),
) {
    let (a, b) = rows;
    let (by_product, _) = by_chains(ask.leading().chains, a, b);
    if in_same_group(ask.group(), a, b) && (is_whole || !by_product.is_same()) {
        assert_same(rt, (question, a, b), ask.compare(a, b), by_product);
    }
}

/// By all keys a row is better than one that it dominates, and the same as one of its group that is the same to the question. In one
/// group the chains that lead, one after the other, put no row before another that all keys put behind it, and a walk of the term
/// finds what the question says.
fn check_order(rt: &impl Abort, question: &str, ask: &Ask, a: &Row, b: &Row) {
    let relation = ask.compare(a, b);
    let in_order = ask.compare_in_order(a, b);
    let (_, in_turn) = by_chains(ask.leading().chains, a, b);
    let near = in_same_group(ask.group(), a, b);
    let found = (
        !relation.is_better() || in_order.is_better(),
        relation.is_same() == in_order.is_same(),
        !near || in_turn.is_same() || in_turn == in_order,
        !near || compare(ask.term(), a, b) == relation,
    );
    assert_same(rt, (question, a, b), found, (true, true, true, true));
}

/// All pairs of these rows.
fn check_pairs(rt: &impl Abort, question: (&str, bool), ask: &Ask, rows: &[Row]) {
    for first in rows {
        for second in rows {
            check_product(rt, question, ask, (first, second));
            check_order(rt, question.0, ask, first, second);
        }
    }
}

fn check_questions(
    rt: &impl Abort,
    alloc: Global,
    names: &[&[u8]],
    rows: &[Row],
    cases: &[(&str, usize, bool)],
) {
    for (question, count, is_whole) in cases {
        let ask = ask_over(alloc, names, question.as_bytes()).expect(rt, question);
        assert_same(rt, *question, ask.leading().chains.len(), *count);
        check_pairs(rt, (*question, *is_whole), &ask, rows);
    }
}

/// All rows over four columns with cells 0 and 1.
fn rows_of_four(rt: &impl Abort, alloc: Global) -> Vec<Row> {
    let mut rows = Vec::new(alloc);
    for place in 0..16 {
        let cells = [place % 2, place / 2 % 2, place / 4 % 2, place / 8];
        let row = row_over(alloc, &ABCD, &cells).expect(rt, "a row");
        rows.push(row).expect(rt, "memory");
    }
    rows
}

/// All pairs of rows over x and y with cells from -1 to 1, and of rows over four columns with cells 0 and 1.
#[test]
fn a_product_of_chains_leads_a_question(rt: HostRuntime) {
    let rows = small_rows(&rt, rt.alloc());
    check_questions(&rt, rt.alloc(), &XY, &rows, &QUESTIONS);
    let rows = rows_of_four(&rt, rt.alloc());
    check_questions(&rt, rt.alloc(), &ABCD, &rows, &QUESTIONS_OF_FOUR);
}
