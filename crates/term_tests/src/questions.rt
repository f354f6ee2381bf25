//! Questions that are read, refused and asked, by their texts.
mod built;
mod chains;
mod distinct;
mod equal;
mod layers;
mod products;
mod ranges;
mod refusals;
mod showing;
mod signatures;

use crate::same::{assert_messages, assert_same};
use pref_table::{Row, Schema, TableFault};
use pref_term::engine::in_same_group;
use pref_term::{
    Ask, Dominance, Mode, Numbers, Relation, Term, TermFault, better, compare, read_ask, same,
};
use std::alloc::Global;
use std::process::Abort;

const X: [&[u8]; 1] = [b"x"];

const XY: [&[u8]; 2] = [b"x", b"y"];

const XYZ: [&[u8]; 3] = [b"x", b"y", b"z"];

const XYG: [&[u8]; 3] = [b"x", b"y", b"g"];

/// The question that a text spells over these columns.
fn ask_over(alloc: Global, names: &[&[u8]], text: &[u8]) -> Result<Ask, TermFault> {
    match Schema::new(alloc, names) {
        Ok(schema) => read_ask(alloc, &schema, text),
        Err(_) => Err(TermFault::OutOfMemory),
    }
}

/// The row of these cells over these columns.
fn row_over(alloc: Global, names: &[&[u8]], cells: &[i64]) -> Result<Row, TableFault> {
    let schema = Schema::new(alloc, names)?;
    Row::of(&schema, cells)
}

/// What is wrong with a text over these columns.
fn fault_over(alloc: Global, names: &[&[u8]], text: &[u8]) -> Option<TermFault> {
    ask_over(alloc, names, text).err()
}

/// Texts over these columns, and the fault of each.
fn check_refused(rt: &impl Abort, alloc: Global, names: &[&[u8]], cases: &[(&str, TermFault)]) {
    for (text, wanted) in cases {
        let found = fault_over(alloc, names, text.as_bytes());
        assert_same(rt, *text, found, Some(*wanted));
    }
}

/// How two rows over the columns x, y and z compare by a question, and whether they are twins.
fn standing(
    rt: &impl Abort,
    alloc: Global,
    text: &str,
    a: &[i64; 3],
    b: &[i64; 3],
) -> (Relation, bool) {
    let first = row_over(alloc, &XYZ, a).expect(rt, text);
    let second = row_over(alloc, &XYZ, b).expect(rt, text);
    let ask = ask_over(alloc, &XYZ, text.as_bytes()).expect(rt, text);
    (ask.compare(&first, &second), ask.twin(&first, &second))
}

/// Questions, of each two rows, and how the first compares with the second.
fn check_standings(rt: &impl Abort, alloc: Global, cases: &[(&str, [i64; 3], [i64; 3], Relation)]) {
    for (text, first, second, wanted) in cases {
        let (found, _) = standing(rt, alloc, text, first, second);
        assert_same(rt, (*text, first, second), found, *wanted);
    }
}

/// A set of these numbers.
fn set_of(rt: &impl Abort, alloc: Global, numbers: &[i64]) -> Numbers {
    Numbers::of(numbers.to_vec(alloc).expect(rt, "memory"))
}

/// A question behind 64 signs, and one behind one more.
const UNDER_64_SIGNS: &str =
    "best ----------------------------------------------------------------low(x)";

const UNDER_65_SIGNS: &str =
    "best -----------------------------------------------------------------low(x)";

static REFUSED: [(&str, TermFault); 18] = [
    (UNDER_65_SIGNS, TermFault::TooDeep { at: 69 }),
    ("best low(z)", TermFault::UnknownColumn { at: 9 }),
    ("best low(z", TermFault::UnknownColumn { at: 9 }),
    ("best low(x", TermFault::Unexpected { at: 10 }),
    ("at_least 0 low(x)", TermFault::BadCount { at: 9 }),
    ("top_level 1001 low(x)", TermFault::BadCount { at: 10 }),
    ("skyline of x diff", TermFault::NoMinOrMax),
    ("best low(x) +", TermFault::Unexpected { at: 12 }),
    ("", TermFault::Unexpected { at: 0 }),
    (
        "best around(x, -9223372036854775809)",
        TermFault::NumberRange { at: 15 },
    ),
    (
        "best around(x, 9223372036854775808)",
        TermFault::NumberRange { at: 15 },
    ),
    ("best low(x) by", TermFault::Unexpected { at: 14 }),
    ("best low(x) by x,", TermFault::Unexpected { at: 17 }),
    ("best low(z) +", TermFault::UnknownColumn { at: 9 }),
    ("Best low(x)", TermFault::Unexpected { at: 0 }),
    ("best pos(x)", TermFault::Unexpected { at: 10 }),
    ("skyline of z min", TermFault::UnknownColumn { at: 11 }),
    ("skyline of z", TermFault::UnknownColumn { at: 11 }),
];

#[test]
fn refused_at_their_token(rt: HostRuntime) {
    check_refused(&rt, rt.alloc(), &X, &REFUSED);
    check_refused(&rt, rt.alloc(), &X, &layers::REFUSED);
    check_refused(&rt, rt.alloc(), &X, &ranges::REFUSED);
    check_refused(&rt, rt.alloc(), &X, &distinct::REFUSED);
    check_refused(
        &rt,
        rt.alloc(),
        &distinct::WORDS,
        &distinct::REFUSED_OVER_WORDS,
    );
}

#[test]
fn accepted(rt: HostRuntime) {
    let cases = [
        "best low(x) ",
        "\tbest\tlow ( x )",
        "best around(x, -9223372036854775808)",
        "best between(x, -9223372036854775808, 9223372036854775807)",
        "best between(x, 5, 5)",
        "best layered(x,{5},{5, - 5,5})",
        "top_level 2low(x)",
        "at_least 0007 pos(x, 2, 2) by x, x",
        "SKYLINE OF x Min",
        "skyline of DISTINCT x Min",
    ];
    for text in cases {
        let found = fault_over(rt.alloc(), &X, text.as_bytes());
        assert_same(&rt, text, found, None);
    }
}

/// What is wrong with a text of this many plus signs.
fn check_plus_signs(rt: &impl Abort, alloc: Global, count: usize, wanted: TermFault) {
    let text = vec![in alloc; b'+'; count].expect(rt, "memory");
    let found = fault_over(alloc, &X, text.as_slice());
    assert_same(rt, count, found, Some(wanted));
}

#[test]
fn a_longer_text_is_too_long_whatever_it_holds(rt: HostRuntime) {
    check_plus_signs(&rt, rt.alloc(), 4_096, TermFault::Unexpected { at: 0 });
    check_plus_signs(&rt, rt.alloc(), 4_097, TermFault::TooLong);
}

/// A question has this mode, this cut and this group.
fn check_parts(
    rt: &impl Abort,
    alloc: Global,
    names: &[&[u8]],
    case: &(&str, Mode, u32, &[usize]),
) {
    let (text, mode, cut, group) = *case;
    let ask = ask_over(alloc, names, text.as_bytes()).expect(rt, text);
    let found = (ask.mode(), ask.cut(), ask.group());
    assert_same(rt, text, found, (mode, cut, group));
}

static COLUMNS_CALLED_AS_WORDS: [(&str, Mode, u32, &[usize]); 2] = [
    (
        "at_least 7 low(low) * high(end) by by, min",
        Mode::AtLeast(7),
        7,
        &[1, 2],
    ),
    ("skyline of min min, low DIFF, end Max", Mode::Best, 1, &[0]),
];

#[test]
fn a_word_is_a_column_where_a_column_stands(rt: HostRuntime) {
    let names: [&[u8]; 4] = [b"low", b"by", b"min", b"end"];
    for case in &COLUMNS_CALLED_AS_WORDS {
        check_parts(&rt, rt.alloc(), &names, case);
    }
}

static STANDINGS: [(&str, [i64; 3], [i64; 3], Relation); 13] = [
    (UNDER_64_SIGNS, [1, 0, 0], [2, 0, 0], Relation::Better),
    ("best low(x) * low(y)", [1, 2, 0], [1, 2, 9], Relation::Same),
    (
        "best around(x, 9223372036854775807)",
        [i64::MIN + 1, 0, 0],
        [i64::MIN, 0, 0],
        Relation::Better,
    ),
    (
        "best low(x) & low(y) * low(z)",
        [0, 9, 9],
        [1, 5, 5],
        Relation::Better,
    ),
    (
        "best (low(x) & low(y)) * low(z)",
        [0, 9, 9],
        [1, 5, 5],
        Relation::Neither,
    ),
    (
        "best -(low(x) * high(y))",
        [1, 9, 0],
        [3, 7, 0],
        Relation::Worse,
    ),
    (
        "best pos(x, 2, 5) & low(y)",
        [2, 7, 0],
        [1, 0, 0],
        Relation::Better,
    ),
    (
        "best pos(x, 2, 5) & low(y)",
        [2, 7, 0],
        [5, 6, 0],
        Relation::Worse,
    ),
    (
        "best (low(x) * low(y)) & low(z)",
        [1, 2, 0],
        [2, 1, 9],
        Relation::Neither,
    ),
    (
        "best reverse(low(x) & low(y))",
        [1, 5, 0],
        [1, 6, 0],
        Relation::Worse,
    ),
    ("best low(x) by z", [1, 0, 1], [2, 0, 2], Relation::Neither),
    (
        "skyline of x min, z diff",
        [1, 0, 1],
        [2, 0, 1],
        Relation::Better,
    ),
    ("best high(x)", [1, 0, 0], [2, 0, 0], Relation::Worse),
];

#[test]
fn rows_stand_by_the_question(rt: HostRuntime) {
    check_standings(&rt, rt.alloc(), &STANDINGS);
    check_standings(&rt, rt.alloc(), &ranges::STANDINGS);
    check_standings(&rt, rt.alloc(), &layers::STANDINGS);
    check_standings(&rt, rt.alloc(), &products::STANDINGS);
}

static WALKS: [(&str, [i64; 2], [i64; 2], (bool, bool, bool, bool)); 6] = [
    (
        "best low(x) & high(y)",
        [1, 2],
        [1, 1],
        (true, false, false, true),
    ),
    (
        "best low(x) & high(y)",
        [1, 2],
        [1, 2],
        (false, false, true, false),
    ),
    (
        "best low(x) * low(y)",
        [1, 2],
        [2, 1],
        (false, false, false, false),
    ),
    (
        "best low(x) * low(y)",
        [1, 2],
        [2, 2],
        (true, false, false, true),
    ),
    (
        "best low(x) by y",
        [1, 2],
        [2, 2],
        (true, false, false, true),
    ),
    (
        "best low(x) by y",
        [1, 2],
        [2, 1],
        (true, false, false, false),
    ),
];

/// Of two rows: whether the first is better, worse and the same by the term, and whether it dominates the second by the question.
fn read_off(ask: &Ask, a: &Row, b: &Row) -> (bool, bool, bool, bool) {
    let term = ask.term();
    (
        better(term, a, b),
        better(term, b, a),
        same(term, a, b),
        ask.over(a, b),
    )
}

/// What is read off two rows by a question over the columns x and y.
fn check_read_off(
    rt: &impl Abort,
    alloc: Global,
    case: &(&str, [i64; 2], [i64; 2], (bool, bool, bool, bool)),
) {
    let (text, first, second, wanted) = *case;
    let a = row_over(alloc, &XY, &first).expect(rt, text);
    let b = row_over(alloc, &XY, &second).expect(rt, text);
    let ask = ask_over(alloc, &XY, text.as_bytes()).expect(rt, text);
    assert_same(rt, (text, first, second), read_off(&ask, &a, &b), wanted);
}

#[test]
fn better_same_and_over_read_off_one_walk(rt: HostRuntime) {
    for case in &WALKS {
        check_read_off(&rt, rt.alloc(), case);
    }
}

/// How rows compare by a preference for a set of values in the column x: the first with the second, the second with
/// the first, and the first with itself.
fn walks_of(set: Numbers, first: &Row, second: &Row) -> [Relation; 3] {
    let term = Term::Pos { col: 0, set };
    [
        compare(&term, first, second),
        compare(&term, second, first),
        compare(&term, first, first),
    ]
}

/// The first of two rows is better.
fn check_walks(rt: &impl Abort, [relation, turned, alone]: [Relation; 3]) {
    let of_first = (
        relation.is_better(),
        relation.is_worse(),
        relation.is_same(),
    );
    let found = (of_first, turned.is_worse(), alone.is_same());
    let wanted = ((true, false, false), true, true);
    assert_same(rt, "better, turned round, alone", found, wanted);
}

/// Two rows that are equal in the column y alone.
fn check_groups(rt: &impl Abort, first: &Row, second: &Row) {
    let by_y = in_same_group(&[1], first, second);
    let by_both = in_same_group(&[1, 0], first, second);
    assert_same(rt, "by y, by y and x", (by_y, by_both), (true, false));
}

#[test]
fn a_term_made_by_hand_is_walked(rt: HostRuntime) {
    let first = row_over(rt.alloc(), &XY, &[5, 7]).expect(&rt, "a row");
    let second = row_over(rt.alloc(), &XY, &[1, 7]).expect(&rt, "a row");
    check_groups(&rt, &first, &second);
    let set = set_of(&rt, rt.alloc(), &[2, 5]);
    assert_same(&rt, "set", set.as_slice(), [2, 5].as_slice());
    check_walks(&rt, walks_of(set, &first, &second));
}

/// The longest product that a question holds.
fn longest_product(rt: &impl Abort, alloc: Global) -> Vec<u8> {
    let mut text = b"best low(x)".to_vec(alloc).expect(rt, "memory");
    for _ in 0..580 {
        text.extend_from_slice(b"*low(x)").expect(rt, "memory");
    }
    text
}

/// Compares a row with itself 1,000 times.
fn check_same_as_itself(rt: &impl Abort, ask: &Ask, row: &Row) {
    for _ in 0..1_000 {
        assert_same(rt, "the row", ask.compare(row, row), Relation::Same);
    }
}

/// On rows that are the same in all its factors: one comparison a factor.
#[test]
fn the_longest_product_is_walked_once_a_pair(rt: HostRuntime) {
    let row = row_over(rt.alloc(), &X, &[5]).expect(&rt, "a row");
    let text = longest_product(&rt, rt.alloc());
    let ask = ask_over(rt.alloc(), &X, text.as_slice()).expect(&rt, "a question");
    check_same_as_itself(&rt, &ask, &row);
}

static MESSAGES: [(TermFault, &str); 9] = [
    (TermFault::Unexpected { at: 3 }, "unexpected at 3"),
    (TermFault::UnknownColumn { at: 9 }, "unknown column at 9"),
    (TermFault::NumberRange { at: 15 }, "number range at 15"),
    (TermFault::EmptyRange { at: 19 }, "empty range at 19"),
    (TermFault::TooDeep { at: 69 }, "too deep at 69"),
    (TermFault::TooLong, "too long"),
    (TermFault::BadCount { at: 9 }, "bad count at 9"),
    (TermFault::NoMinOrMax, "no min or max"),
    (TermFault::OutOfMemory, "out of memory"),
];

#[test]
fn messages(rt: HostRuntime) {
    assert_messages(&rt, rt.alloc(), &MESSAGES);
    assert_messages(&rt, rt.alloc(), &built::MESSAGES);
}
