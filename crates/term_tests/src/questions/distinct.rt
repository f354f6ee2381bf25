//! Skyline clauses with the word `distinct`, and columns that are called so.
ghost use Rattle.std.specs.Prelude.{length};
ghost use Rattle.pref_term.specs.Question.{FitsWidth};

use super::standing;
use crate::same::assert_same;
use pref_table::Schema;
use pref_term::{Ask, TermFault, read_ask, show};
use std::alloc::Global;
use std::process::Abort;

/// Columns that are called as words of a clause.
pub(super) const WORDS: [&[u8]; 6] = [b"distinct", b"x", b"min", b"max", b"diff", b"of"];

pub(super) static REFUSED: [(&str, TermFault); 13] = [
    (
        "skyline of distinct , min",
        TermFault::Unexpected { at: 20 },
    ),
    (
        "skyline of distinct 5 min",
        TermFault::Unexpected { at: 20 },
    ),
    (
        "skyline of distinct ? min",
        TermFault::Unexpected { at: 20 },
    ),
    ("skyline of distinct", TermFault::UnknownColumn { at: 11 }),
    ("skyline of distinct x", TermFault::UnknownColumn { at: 11 }),
    (
        "skyline of distinct x ?",
        TermFault::UnknownColumn { at: 11 },
    ),
    (
        "skyline of distinct x , x min",
        TermFault::UnknownColumn { at: 11 },
    ),
    (
        "skyline of distinct x foo",
        TermFault::Unexpected { at: 22 },
    ),
    (
        "skyline of distinct z foo",
        TermFault::UnknownColumn { at: 20 },
    ),
    (
        "skyline of distinct distinct x min",
        TermFault::UnknownColumn { at: 20 },
    ),
    ("skyline of distinct x diff", TermFault::NoMinOrMax),
    ("best distinct low(x)", TermFault::Unexpected { at: 5 }),
    ("skyline distinct of x min", TermFault::Unexpected { at: 8 }),
];

/// Where a column is called `distinct`, the second token behind the word tells it from the column.
pub(super) static REFUSED_OVER_WORDS: [(&str, TermFault); 7] = [
    (
        "skyline of distinct , min",
        TermFault::Unexpected { at: 20 },
    ),
    ("skyline of distinct x", TermFault::Unexpected { at: 20 }),
    ("skyline of distinct x ?", TermFault::Unexpected { at: 20 }),
    (
        "skyline of distinct x , x min",
        TermFault::Unexpected { at: 20 },
    ),
    (
        "skyline of distinct distinct distinct min",
        TermFault::Unexpected { at: 29 },
    ),
    (
        "skyline of of distinct min",
        TermFault::Unexpected { at: 14 },
    ),
    ("skyline of distinct diff, x diff", TermFault::NoMinOrMax),
];

static CLAUSES: [(&str, bool, &str); 10] = [
    ("skyline of distinct min", false, "best low(distinct)"),
    ("Skyline Of distinct Min", false, "best low(distinct)"),
    (
        "skyline of distinct min, x max",
        false,
        "best low(distinct) * high(x)",
    ),
    (
        "skyline of distinct max , distinct min",
        false,
        "best high(distinct) * low(distinct)",
    ),
    (
        "skyline of x min, distinct diff",
        false,
        "best low(x) by distinct",
    ),
    (
        "skyline of Distinct x min",
        true,
        "skyline of distinct x min",
    ),
    (
        "SKYLINE OF DISTINCT distinct MIN, x DIFF",
        true,
        "skyline of distinct distinct min, x diff",
    ),
    (
        "skyline of distinct min min",
        true,
        "skyline of distinct min min",
    ),
    (
        "skyline of distinct diff diff, max max",
        true,
        "skyline of distinct max max, diff diff",
    ),
    (
        "skyline of DISTINCT of max, x Diff, min MIN , of diff, x max",
        true,
        "skyline of distinct of max, min min, x max, x diff, of diff",
    ),
];

/// A text, whether of equal rows one is kept by the question that it spells, and what is shown of that question, which is read again.
fn check_shown(
    rt: &impl Abort,
    alloc: Global,
    schema: &Schema,
    ask: &Ask,
    case: &(&str, bool, &str),
)
    requires { FitsWidth (length schema.now) ask.now }
{
    let (text, distinct, wanted) = *case;
    assert_same(rt, text, ask.distinct(), distinct);
    let shown = show(alloc, schema, ask).expect(rt, text);
    assert_same(rt, text, shown.as_slice(), wanted.as_bytes());
    let again = read_ask(alloc, schema, shown.as_slice()).expect(rt, wanted);
    assert_same(rt, wanted, again == *ask, true);
}

#[test]
fn the_word_and_a_column_of_that_name(rt: HostRuntime) {
    let schema = Schema::new(rt.alloc(), &WORDS).expect(&rt, "columns");
    for case in &CLAUSES {
        let ask = read_ask(rt.alloc(), &schema, case.0.as_bytes()).expect(&rt, case.0);
        check_shown(&rt, rt.alloc(), &schema, &ask, case);
    }
}

static TWINS: [(&str, [i64; 3], [i64; 3], bool); 6] = [
    (
        "skyline of distinct x min, y diff",
        [1, 2, 3],
        [1, 2, 4],
        true,
    ),
    (
        "skyline of distinct x min, y diff",
        [1, 2, 3],
        [1, 3, 3],
        false,
    ),
    (
        "skyline of distinct x min, y max",
        [1, 2, 3],
        [1, 2, 4],
        true,
    ),
    (
        "skyline of distinct x min, y max",
        [1, 2, 3],
        [2, 3, 3],
        false,
    ),
    ("skyline of x min, y diff", [1, 2, 3], [1, 2, 3], false),
    ("best low(x)", [1, 2, 3], [1, 2, 3], false),
];

#[test]
fn twins_are_equal_in_each_column_of_the_clause(rt: HostRuntime) {
    for (text, first, second, wanted) in &TWINS {
        let (_, found) = standing(&rt, rt.alloc(), text, first, second);
        assert_same(&rt, (*text, first, second), found, *wanted);
    }
}
