//! Questions that are built by code: those that texts spell, and parts that are refused.
use super::{XYG, ask_over, set_of};
use crate::same::assert_same;
use pref_term::{Ask, AskFault, Mode, NumberSets, Term};
use std::alloc::Global;
use std::process::Abort;
use std::test::Fail;

/// Smaller values of x are better.
fn low_x() -> Term {
    Term::Low { col: 0 }
}

/// Larger values of y are better.
fn high_y() -> Term {
    Term::High { col: 1 }
}

fn pareto(rt: &impl Abort, alloc: Global, first: Term, second: Term) -> Term {
    let first = Box::new(alloc, first).expect(rt, "memory");
    Term::Pareto(first, Box::new(alloc, second).expect(rt, "memory"))
}

fn prior(rt: &impl Abort, alloc: Global, first: Term, then: Term) -> Term {
    let first = Box::new(alloc, first).expect(rt, "memory");
    Term::Prior(first, Box::new(alloc, then).expect(rt, "memory"))
}

fn reverse(rt: &impl Abort, alloc: Global, part: Term) -> Term {
    Term::Reverse(Box::new(alloc, part).expect(rt, "memory"))
}

/// Values of y in the first set, and then those in the second.
fn layered_y(rt: &impl Abort, alloc: Global, first: &[i64], second: &[i64]) -> Term {
    let mut sets = Vec::new(alloc);
    sets.push(set_of(rt, alloc, first)).expect(rt, "memory");
    sets.push(set_of(rt, alloc, second)).expect(rt, "memory");
    Term::Layered {
        col: 1,
        sets: NumberSets::of(sets),
    }
}

fn pos_x(rt: &impl Abort, alloc: Global, numbers: &[i64]) -> Term {
    Term::Pos {
        col: 0,
        set: set_of(rt, alloc, numbers),
    }
}

/// A question of this term, in the groups of these columns.
fn asked(
    rt: &impl Abort,
    alloc: Global,
    term: Term,
    group: &[usize],
    mode: Mode,
) -> Result<Ask, AskFault> {
    let group = group.to_vec(alloc).expect(rt, "memory");
    Ask::of(alloc, term, group, mode)
}

/// A clause of this term that keeps one of equal rows.
fn asked_distinct(
    rt: &impl Abort,
    alloc: Global,
    term: Term,
    group: &[usize],
) -> Result<Ask, AskFault> {
    let group = group.to_vec(alloc).expect(rt, "memory");
    Ask::distinct_skyline(alloc, term, group)
}

/// What is built is what the text spells over the columns x, y and g.
fn check_spelt(rt: &impl Abort, alloc: Global, built: Result<Ask, AskFault>, text: &str) {
    let built = built.expect(rt, text);
    let read = ask_over(alloc, &XYG, text.as_bytes()).expect(rt, text);
    assert_same(rt, text, built == read, true);
}

/// A question of this term alone is what the text spells.
fn check_term(rt: &impl Abort, alloc: Global, term: Term, text: &str) {
    check_spelt(rt, alloc, asked(rt, alloc, term, &[], Mode::Best), text);
}

fn check_base_terms(rt: &impl Abort, alloc: Global) {
    check_term(rt, alloc, low_x(), "best low(x)");
    check_term(rt, alloc, high_y(), "best high(y)");
    let around = Term::Around {
        col: 2,
        centre: i64::MIN,
    };
    check_term(rt, alloc, around, "best around(g, -9223372036854775808)");
    let between = Term::Between {
        col: 0,
        left: -1,
        right: -1,
    };
    check_term(rt, alloc, between, "best between(x, -1, -1)");
}

fn check_composed(rt: &impl Abort, alloc: Global) {
    let pos = pos_x(rt, alloc, &[i64::MAX, 2, 2]);
    check_term(rt, alloc, pos, "best pos(x, 9223372036854775807, 2, 2)");
    let layered = layered_y(rt, alloc, &[1, 2], &[3]);
    check_term(rt, alloc, layered, "best layered(y, {1, 2}, {3})");
    let product = pareto(rt, alloc, low_x(), high_y());
    check_term(rt, alloc, product, "best low(x) * high(y)");
    let priority = prior(rt, alloc, low_x(), high_y());
    check_term(rt, alloc, priority, "best low(x) & high(y)");
    let converse = reverse(rt, alloc, prior(rt, alloc, low_x(), high_y()));
    check_term(rt, alloc, converse, "best -(low(x) & high(y))");
}

#[test]
fn each_kind_of_term_is_what_its_text_spells(rt: HostRuntime) {
    check_base_terms(&rt, rt.alloc());
    check_composed(&rt, rt.alloc());
}

static COUNTED: [(Mode, &[usize], &str); 5] = [
    (Mode::Best, &[2], "best low(x) by g"),
    (Mode::TopLevel(1), &[], "top_level 1 low(x)"),
    (
        Mode::TopLevel(1000),
        &[1, 2],
        "top_level 1000 low(x) by y, g",
    ),
    (Mode::AtLeast(1), &[2, 2], "at_least 1 low(x) by g, g"),
    (Mode::AtLeast(1000), &[], "at_least 1000 low(x)"),
];

#[test]
fn counts_and_groups_are_what_their_texts_spell(rt: HostRuntime) {
    for (mode, group, text) in &COUNTED {
        let built = asked(&rt, rt.alloc(), low_x(), group, *mode);
        check_spelt(&rt, rt.alloc(), built, text);
    }
}

#[test]
fn a_distinct_clause_is_what_its_text_spells(rt: HostRuntime) {
    let product = pareto(&rt, rt.alloc(), low_x(), high_y());
    let built = asked_distinct(&rt, rt.alloc(), product, &[2]);
    let text = "skyline of distinct x min, y max, g diff";
    check_spelt(&rt, rt.alloc(), built, text);
    let one = asked_distinct(&rt, rt.alloc(), high_y(), &[]);
    check_spelt(&rt, rt.alloc(), one, "skyline of distinct y max");
}

fn check_refused(rt: &impl Abort, alloc: Global, term: Term, wanted: AskFault) {
    let found = asked(rt, alloc, term, &[], Mode::Best).err();
    assert_same(rt, "the term", found, Some(wanted));
}

#[test]
fn base_terms_are_refused(rt: HostRuntime) {
    let alloc = rt.alloc();
    let wide = Term::Low { col: 16 };
    check_refused(&rt, alloc, wide, AskFault::ColumnRange { col: 16 });
    let between = Term::Between {
        col: 1,
        left: 3,
        right: 2,
    };
    check_refused(&rt, alloc, between, AskFault::EmptyRange { col: 1 });
    let pos = pos_x(&rt, alloc, &[]);
    check_refused(&rt, alloc, pos, AskFault::EmptySet { col: 0 });
    let layered = layered_y(&rt, alloc, &[1], &[]);
    check_refused(&rt, alloc, layered, AskFault::EmptySet { col: 1 });
    let no_sets = Term::Layered {
        col: 1,
        sets: NumberSets::of(Vec::new(alloc)),
    };
    check_refused(&rt, alloc, no_sets, AskFault::NoSets { col: 1 });
}

#[test]
fn the_first_base_term_from_the_left_decides(rt: HostRuntime) {
    let alloc = rt.alloc();
    let no_numbers = pos_x(&rt, alloc, &[]);
    let second = prior(&rt, alloc, no_numbers, Term::High { col: 20 });
    let term = reverse(&rt, alloc, pareto(&rt, alloc, low_x(), second));
    let found = asked(&rt, alloc, term, &[16], Mode::TopLevel(0)).err();
    assert_same(&rt, "the set", found, Some(AskFault::EmptySet { col: 0 }));
}

static REFUSED: [(&[usize], Mode, AskFault); 6] = [
    (&[0, 16], Mode::Best, AskFault::ColumnRange { col: 16 }),
    (
        &[99, 16],
        Mode::TopLevel(0),
        AskFault::ColumnRange { col: 99 },
    ),
    (&[], Mode::TopLevel(0), AskFault::BadCount { count: 0 }),
    (
        &[],
        Mode::TopLevel(1001),
        AskFault::BadCount { count: 1001 },
    ),
    (&[15], Mode::AtLeast(0), AskFault::BadCount { count: 0 }),
    (
        &[],
        Mode::AtLeast(u32::MAX),
        AskFault::BadCount { count: u32::MAX },
    ),
];

#[test]
fn groups_and_counts_are_refused(rt: HostRuntime) {
    for (group, mode, wanted) in &REFUSED {
        let found = asked(&rt, rt.alloc(), low_x(), group, *mode).err();
        assert_same(&rt, (*group, *mode), found, Some(*wanted));
    }
}

fn check_no_clause(rt: &impl Abort, alloc: Global, term: Term, group: &[usize], wanted: AskFault) {
    let found = asked_distinct(rt, alloc, term, group).err();
    assert_same(rt, group, found, Some(wanted));
}

/// A column is told first.
#[test]
fn a_distinct_clause_of_another_term_is_refused(rt: HostRuntime) {
    let alloc = rt.alloc();
    let another = AskFault::NotSkyline;
    let product = pareto(&rt, alloc, low_x(), high_y());
    let right = pareto(&rt, alloc, low_x(), product);
    check_no_clause(&rt, alloc, right, &[], another);
    check_no_clause(&rt, alloc, pos_x(&rt, alloc, &[1]), &[], another);
    check_no_clause(&rt, alloc, reverse(&rt, alloc, low_x()), &[], another);
    let priority = prior(&rt, alloc, low_x(), high_y());
    check_no_clause(&rt, alloc, priority, &[], another);
    let wide = AskFault::ColumnRange { col: 16 };
    let priority = prior(&rt, alloc, low_x(), high_y());
    check_no_clause(&rt, alloc, priority, &[16], wide);
    check_no_clause(&rt, alloc, low_x(), &[16], wide);
}

pub(super) static MESSAGES: [(AskFault, &str); 7] = [
    (AskFault::ColumnRange { col: 16 }, "column 16 is above 15"),
    (
        AskFault::EmptyRange { col: 2 },
        "the range of column 2 ends before it begins",
    ),
    (AskFault::EmptySet { col: 0 }, "a set of column 0 is empty"),
    (
        AskFault::NoSets { col: 0 },
        "the layers of column 0 have no set",
    ),
    (AskFault::BadCount { count: 0 }, "count 0 is not 1 to 1000"),
    (AskFault::NotSkyline, "no skyline clause means this term"),
    (AskFault::OutOfMemory, "out of memory"),
];

/// The product of low values of column 0 and high ones of column 1, in the groups of column 2.
fn product_in_groups(alloc: Global) -> Result<Ask, Fail> {
    let low = Box::new(alloc, Term::Low { col: 0 })?;
    let high = Box::new(alloc, Term::High { col: 1 })?;
    let mut group = Vec::new(alloc);
    group.push(2)?;
    Ok(Ask::of(alloc, Term::Pareto(low, high), group, Mode::Best)?)
}

#[test]
fn a_product_in_groups_is_what_its_text_spells(rt: HostRuntime) -> Result<(), Fail> {
    let built = Ok(product_in_groups(rt.alloc())?);
    check_spelt(&rt, rt.alloc(), built, "best low(x) * high(y) by g");
    Ok(())
}
