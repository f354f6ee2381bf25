//! Requests for memory that are refused. `tests/refuse_each_allocation.sh` runs these tests once for each of their requests,
//! and refuses it; where none is refused they show that the calls succeed.
ghost use Rattle.std.specs.Prelude.{◌≡◌, ◌++◌, [], List, map, OnOk};
ghost use Rattle.pref_sky.specs.Levels.{HaveDifferentIds, entry_of, entry_order, levels};
ghost use Rattle.pref_sky.specs.declared.entry.Entry.{Entry};

use super::answers::ask_of;
use super::cuttings::add_in_two;
use super::fixtures::{LowBoth, LowOnce, PAIRS, check_places, falling, numbered, rows_of};
use crate::same::assert_same;
use pref_sky::{BestOf, Entry, Partial, Ranked, answer, levels};
use pref_table::Row;
use pref_term::{Ask, Dominance};
use std::alloc::Global;
use std::process::Abort;
use std::test::Fail;

/// Asserts that what is held at this time is as it must be.
fn check_held(
    rt: &impl Abort,
    alloc: Global,
    time: &str,
    partial: &Partial,
    held: &[Ranked],
) -> Result<(), Fail> {
    let found = partial.ranked(alloc)?;
    assert_same(rt, time, found.as_slice(), held);
    Ok(())
}

/// Adds entries that were refused before, when what is held must have stayed: now they are not.
fn add_again<D: Dominance>(
    rt: &impl Abort,
    alloc: Global,
    dominance: &D,
    partial: &mut Partial,
    held: &[Ranked],
    entries: &[Entry],
) -> Result<(), Fail>
    requires { HaveDifferentIds (map entry_of partial.old ++ entries.now) }
    ensures { OnOk result ((before : List Entry) → HaveDifferentIds (before ++ entries.now)
        → partial.old ≡ levels (entry_order (D.order dominance.now)) before 2
        → partial.new ≡ levels (entry_order (D.order dominance.now)) (before ++ entries.now) 2) }
{
    check_held(rt, alloc, "refused", partial, held)?;
    let again = partial.add(alloc, dominance, 1, 2, entries);
    assert_same(rt, "again", again.is_ok(), true);
    again?;
    Ok(())
}

/// Adds entries, again where it was refused: until then what is held must be as before.
fn add_in_the_end<D: Dominance>(
    rt: &impl Abort,
    alloc: Global,
    dominance: &D,
    partial: &mut Partial,
    held: &[Ranked],
    entries: &[Entry],
) -> Result<(), Fail>
    requires { HaveDifferentIds (map entry_of partial.old ++ entries.now) }
    ensures { OnOk result ((before : List Entry) → HaveDifferentIds (before ++ entries.now)
        → partial.old ≡ levels (entry_order (D.order dominance.now)) before 2
        → partial.new ≡ levels (entry_order (D.order dominance.now)) (before ++ entries.now) 2) }
{
    check_held(rt, alloc, "before", partial, held)?;
    match partial.add(alloc, dominance, 1, 2, entries) {
        Ok(()) => Ok(()),
        Err(_) => add_again(rt, alloc, dominance, partial, held, entries),
    }
}

/// Adds two pieces to a partial result that holds nothing, each again where it was refused: then it holds both.
fn check_two_adds<D: Dominance>(
    rt: &impl Abort,
    alloc: Global,
    dominance: &D,
    partial: &mut Partial,
    front: &[Entry],
    back: &[Entry],
    both: &[Ranked],
) -> Result<(), Fail>
    requires nothing { partial.old ≡ [] }
    requires ids { HaveDifferentIds (front.now ++ back.now) }
{
    let first = levels(alloc, dominance, 1, 2, front)?;
    add_in_the_end(rt, alloc, dominance, partial, &[], front)?;
    add_in_the_end(rt, alloc, dominance, partial, &first, back)?;
    check_held(rt, alloc, "both", partial, both)
}

/// Adds entries in two pieces, each again where it was refused: then it holds the first two levels of all.
fn check_refused<D: Dominance>(
    rt: &impl Abort,
    alloc: Global,
    dominance: &D,
    entries: &[Entry],
    at: usize,
) -> Result<(), Fail>
    requires { HaveDifferentIds entries.now }
{
    let both = levels(alloc, dominance, 1, 2, entries)?;
    let (front, back) = entries.split_at(at.min(entries.len()));
    let mut partial = Partial::empty();
    check_two_adds(rt, alloc, dominance, &mut partial, front, back, &both)
}

#[test]
fn a_refused_add_changes_nothing_and_is_made_again(rt: HostRuntime) -> Result<(), Fail> {
    let alloc = rt.alloc();
    let rows = [(5, 5), (9, 1), (7, 7), (8, 8), (1, 9), (4, 5), (9, 9)];
    let entries = numbered(alloc, &rows)?;
    check_refused(&rt, alloc, &LowBoth, &entries, 4)
}

/// The twin that stays comes in the second piece.
#[test]
fn a_refused_add_of_twins_changes_nothing_and_is_made_again(rt: HostRuntime) -> Result<(), Fail> {
    let alloc = rt.alloc();
    let rows = [(5, 1), (7, 1), (5, 2), (7, 2), (5, 3), (7, 3)];
    let entries = falling(alloc, &rows)?;
    check_refused(&rt, alloc, &LowOnce, &entries, 3)
}

/// Rows that come in two pieces, by the order of a text.
struct Refused {
    text: &'static str,
    rows: &'static [(i64, i64)],
    at: usize,
}

static REFUSED: [Refused; 4] = [
    // Rows in parts by their groups: what is planned for the first of them is not made where the last one's plan is refused.
    Refused {
        text: "top_level 2 low(x) by y",
        rows: &[(5, 1), (5, 2), (7, 3), (4, 1), (9, 2), (3, 3), (2, 1)],
        at: 3,
    },
    // One chain: some rows join a level, others are a new one before, between or behind those that are held.
    Refused {
        text: "top_level 2 low(x)",
        rows: &[
            (5, 1),
            (7, 1),
            (5, 2),
            (6, 1),
            (5, 3),
            (4, 9),
            (7, 2),
            (4, 8),
        ],
        at: 4,
    },
    // A product behind a chain, whose second piece moves the first one down.
    Refused {
        text: "top_level 2 between(y, 3, 9) & (low(x) * low(y))",
        rows: &[
            (5, 5),
            (6, 4),
            (6, 6),
            (7, 3),
            (4, 5),
            (5, 4),
            (1, 30),
            (3, 9),
        ],
        at: 4,
    },
    // A product within groups, of which one is new in the second piece.
    Refused {
        text: "top_level 2 low(x) * around(x, 7) by y",
        rows: &[
            (5, 1),
            (9, 1),
            (7, 2),
            (8, 1),
            (6, 2),
            (2, 3),
            (7, 1),
            (7, 2),
        ],
        at: 4,
    },
];

fn check_refused_case(rt: &impl Abort, alloc: Global, case: &Refused) -> Result<(), Fail> {
    let entries = numbered(alloc, case.rows)?;
    let ask = ask_of(alloc, case.text.as_bytes())?;
    check_refused(rt, alloc, &ask, &entries, case.at)
}

fn check_refused_cases(rt: &impl Abort, alloc: Global, cases: &[Refused]) -> Result<(), Fail> {
    for case in cases {
        check_refused_case(rt, alloc, case)?;
    }
    Ok(())
}

#[test]
fn a_refused_add_by_a_question_changes_nothing_and_is_made_again(
    rt: HostRuntime,
) -> Result<(), Fail> {
    check_refused_cases(&rt, rt.alloc(), &REFUSED)
}

/// What is held, listed again where that was refused.
fn ranked_in_the_end(rt: &impl Abort, alloc: Global, partial: &Partial) -> Vec<Ranked> {
    match partial.ranked(alloc) {
        Ok(ranked) => ranked,
        Err(_) => partial.ranked(alloc).expect(rt, "memory"),
    }
}

/// Entries that were added in two pieces to a partial result that holds nothing are listed up to a cut, also where that was refused before.
fn check_refused_list<D: Dominance>(
    rt: &impl Abort,
    alloc: Global,
    dominance: &D,
    cut: u32,
    partial: &mut Partial,
    entries: &[Entry],
) -> Result<(), Fail>
    requires nothing { partial.old ≡ [] }
    requires ids { HaveDifferentIds entries.now }
{
    let held = add_in_two(alloc, dominance, cut, partial, entries, 4)?;
    let ranked = ranked_in_the_end(rt, alloc, partial);
    assert_same(rt, "listed", ranked.as_slice(), held.as_slice());
    Ok(())
}

fn check_refused_lists(
    rt: &impl Abort,
    alloc: Global,
    texts: &[&str],
    entries: &[Entry],
) -> Result<(), Fail>
    requires { HaveDifferentIds entries.now }
{
    for text in texts {
        let ask = ask_of(alloc, text.as_bytes())?;
        let mut partial = Partial::empty();
        check_refused_list(rt, alloc, &ask, 3, &mut partial, entries)?;
    }
    Ok(())
}

#[test]
fn a_refused_list_is_made_again(rt: HostRuntime) -> Result<(), Fail> {
    let texts = [
        "best low(x)",
        "best low(x) * low(y)",
        "best low(x) by y",
        "skyline of distinct x min, y min",
    ];
    let entries = numbered(rt.alloc(), &PAIRS)?;
    check_refused_lists(&rt, rt.alloc(), &texts, &entries)
}

/// An answer, made again where it was refused: what is held must have stayed.
fn answer_in_the_end(
    rt: &impl Abort,
    alloc: Global,
    ask: &Ask,
    partial: &Partial,
) -> Result<Vec<Ranked>, Fail> {
    let held = partial.ranked(alloc)?;
    match answer(alloc, ask, partial) {
        Ok(ranked) => Ok(ranked),
        Err(_) => {
            check_held(rt, alloc, "refused", partial, held.as_slice())?;
            Ok(answer(alloc, ask, partial).expect(rt, "memory"))
        }
    }
}

/// The answer of all entries, of which the first four are added before the others to a partial result that holds nothing.
fn check_refused_answer(
    rt: &impl Abort,
    alloc: Global,
    ask: &Ask,
    partial: &mut Partial,
    entries: &[Entry],
    places: &[(u32, u64)],
) -> Result<(), Fail>
    requires nothing { partial.old ≡ [] }
    requires ids { HaveDifferentIds entries.now }
{
    add_in_two(alloc, ask, ask.cut(), partial, entries, 4)?;
    let ranked = answer_in_the_end(rt, alloc, ask, partial)?;
    check_places(rt, alloc, "answer", &ranked, places)
}

#[test]
fn a_refused_answer_changes_nothing_and_is_made_again(rt: HostRuntime) -> Result<(), Fail> {
    let alloc = rt.alloc();
    let entries = numbered(alloc, &PAIRS)?;
    let ask = ask_of(alloc, b"at_least 5 low(x) * low(y)")?;
    let places = [(1, 1), (1, 7), (2, 6), (2, 8), (3, 9)];
    let mut partial = Partial::empty();
    check_refused_answer(&rt, alloc, &ask, &mut partial, &entries, &places)
}

/// Adds rows, again where they were refused: until then the length and the answer must be as before.
fn add_piece_in_the_end(
    rt: &impl Abort,
    alloc: Global,
    best: &mut BestOf,
    rows: &[Row],
) -> Result<(), Fail> {
    let count = best.len();
    let answer = best.answer(alloc)?;
    if best.add(alloc, rows).is_err() {
        let kept = best.answer(alloc).expect(rt, "memory");
        assert_same(rt, "length", best.len(), count);
        assert_same(rt, "refused", kept.as_slice(), answer.as_slice());
        best.add(alloc, rows).expect(rt, "memory");
    }
    Ok(())
}

#[test]
fn a_refused_piece_changes_nothing_and_is_added_again(rt: HostRuntime) -> Result<(), Fail> {
    let alloc = rt.alloc();
    let rows = rows_of(alloc, &PAIRS)?;
    let (front, back) = rows.split_at(rows.len().min(4));
    let mut best = BestOf::new(ask_of(alloc, b"at_least 5 low(x) * low(y)")?);
    add_piece_in_the_end(&rt, alloc, &mut best, front)?;
    add_piece_in_the_end(&rt, alloc, &mut best, back)?;
    let ranked = best.answer(alloc)?;
    let places = [(1, 1), (1, 7), (2, 6), (2, 8), (3, 9)];
    check_places(&rt, alloc, "answer", &ranked, &places)
}
