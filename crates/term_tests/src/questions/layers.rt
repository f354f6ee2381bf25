//! Questions with sets in layers: where they are wrong, and that the first set that holds a value counts.
use super::{X, row_over, set_of};
use crate::same::assert_same;
use pref_table::Row;
use pref_term::{NumberSets, Relation, Term, TermFault, compare};
use std::alloc::Global;
use std::process::Abort;

/// A set is read to its brace.
pub(super) static REFUSED: [(&str, TermFault); 19] = [
    ("best layered(x)", TermFault::Unexpected { at: 14 }),
    ("best layered(x, )", TermFault::Unexpected { at: 16 }),
    ("best layered(x, {})", TermFault::Unexpected { at: 17 }),
    ("best layered(x, {1}, {})", TermFault::Unexpected { at: 22 }),
    ("best layered(x, {1,})", TermFault::Unexpected { at: 19 }),
    ("best layered(x, {1)", TermFault::Unexpected { at: 18 }),
    ("best layered(x, {1}", TermFault::Unexpected { at: 19 }),
    ("best layered(x, {1}, )", TermFault::Unexpected { at: 21 }),
    ("best layered(x, 1)", TermFault::Unexpected { at: 16 }),
    ("best layered(x, {1} {2})", TermFault::Unexpected { at: 20 }),
    ("best layered(x, {1}) +", TermFault::Unexpected { at: 21 }),
    (
        "best layered(x, {9223372036854775808}, {})",
        TermFault::NumberRange { at: 17 },
    ),
    (
        "best layered(x, {1}, {2, - 9223372036854775809})",
        TermFault::NumberRange { at: 25 },
    ),
    ("best layered(q, {})", TermFault::UnknownColumn { at: 13 }),
    ("best Layered(x, {1})", TermFault::Unexpected { at: 5 }),
    ("best low(x) }", TermFault::Unexpected { at: 12 }),
    ("best {low(x)}", TermFault::Unexpected { at: 5 }),
    ("best pos(x, {1})", TermFault::Unexpected { at: 12 }),
    ("best pos(x, 1}", TermFault::Unexpected { at: 13 }),
];

const TWO: &str = "best layered(x, {2, 3}, {5})";

const OVERLAPPING: &str = "best layered(x, {2, 3}, {3, 2, 4}, {1, 2, 1})";

const TWICE: &str = "best layered(x, {5}, {5})";

const ENDS: &str = "best layered(x, {9223372036854775807}, {-9223372036854775808})";

/// The first set that holds a value counts.
pub(super) static STANDINGS: [(&str, [i64; 3], [i64; 3], Relation); 15] = [
    (TWO, [3, 0, 0], [2, 0, 0], Relation::Same),
    (TWO, [5, 0, 0], [2, 0, 0], Relation::Worse),
    (TWO, [5, 0, 0], [7, 0, 0], Relation::Better),
    (TWO, [7, 0, 0], [0, 0, 0], Relation::Same),
    (OVERLAPPING, [2, 0, 0], [4, 0, 0], Relation::Better),
    (OVERLAPPING, [4, 0, 0], [1, 0, 0], Relation::Better),
    (OVERLAPPING, [5, 0, 0], [1, 0, 0], Relation::Worse),
    (TWICE, [5, 0, 0], [1, 0, 0], Relation::Better),
    (TWICE, [1, 0, 0], [2, 0, 0], Relation::Same),
    (ENDS, [i64::MAX, 0, 0], [i64::MIN, 0, 0], Relation::Better),
    (ENDS, [0, 0, 0], [i64::MIN, 0, 0], Relation::Worse),
    (
        "best layered(x, {2, 3}, {5}) & low(y)",
        [2, 3, 0],
        [3, 9, 0],
        Relation::Better,
    ),
    (
        "best layered(x, {1}) * low(y)",
        [1, 9, 0],
        [2, 3, 0],
        Relation::Neither,
    ),
    (
        "best -layered(x, {2, 3}, {5})",
        [7, 0, 0],
        [2, 0, 0],
        Relation::Better,
    ),
    (
        "best layered(x, {1}, {2}) by y",
        [1, 1, 0],
        [2, 2, 0],
        Relation::Neither,
    ),
];

/// A set of 2 and 3, and a set of this number.
fn two_sets(rt: &impl Abort, alloc: Global, last: i64) -> NumberSets {
    let mut sets = Vec::new(alloc);
    sets.push(set_of(rt, alloc, &[2, 3])).expect(rt, "memory");
    sets.push(set_of(rt, alloc, &[last])).expect(rt, "memory");
    NumberSets::of(sets)
}

/// These are a set of 2 and 3, and a set of 5.
fn check_numbers(rt: &impl Abort, sets: &NumberSets) {
    let [first, second] = sets.as_slice() else {
        panic!(rt; "not two sets");
    };
    let found = (first.as_slice(), second.as_slice());
    let wanted = ([2, 3].as_slice(), [5].as_slice());
    assert_same(rt, "sets", found, wanted);
}

/// A row that these sets hold in the column x is better than one that a later of them holds.
fn check_better(rt: &impl Abort, sets: NumberSets, first: &Row, second: &Row) {
    let term = Term::Layered { col: 0, sets };
    let relation = compare(&term, first, second);
    assert_same(rt, "rows", relation, Relation::Better);
}

fn check_equal_sets(rt: &impl Abort, alloc: Global, sets: &NumberSets) {
    let same = *sets == two_sets(rt, alloc, 5);
    let others = *sets == two_sets(rt, alloc, 6);
    assert_same(rt, "the same, others", (same, others), (true, false));
}

#[test]
fn sets_made_by_hand(rt: HostRuntime) {
    let sets = two_sets(&rt, rt.alloc(), 5);
    check_numbers(&rt, &sets);
    check_equal_sets(&rt, rt.alloc(), &sets);
    let first = row_over(rt.alloc(), &X, &[3]).expect(&rt, "a row");
    let second = row_over(rt.alloc(), &X, &[5]).expect(&rt, "a row");
    check_better(&rt, sets, &first, &second);
}
