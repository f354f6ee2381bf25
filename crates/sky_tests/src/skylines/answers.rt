//! Answers of asks that are read from their texts, however the rows are cut into two pieces.
ghost use Rattle.std.specs.Prelude.{◌≡◌, []};
ghost use Rattle.pref_sky.specs.Levels.{HaveDifferentIds};

use super::cuttings::add_in_two;
use super::fixtures::{PAIRS, check_places, numbered};
use pref_sky::{Entry, Partial, answer};
use pref_table::Schema;
use pref_term::{Ask, read_ask};
use std::alloc::Global;
use std::process::Abort;
use std::test::Fail;

/// The ask of a text over the columns x and y.
pub(super) fn ask_of(alloc: Global, text: &[u8]) -> Result<Ask, Fail> {
    let names: [&[u8]; 2] = [b"x", b"y"];
    let schema = Schema::new(alloc, &names)?;
    Ok(read_ask(alloc, &schema, text)?)
}

/// An ask over rows of the columns x and y, and the levels and ids of its answer.
pub(super) struct Answer {
    pub(super) name: &'static str,
    pub(super) text: &'static [u8],
    pub(super) rows: &'static [(i64, i64)],
    pub(super) places: &'static [(u32, u64)],
}

/// Cut there, and added to a partial result that holds nothing, the two pieces make the answer.
fn check_answer_cut_at(
    rt: &impl Abort,
    alloc: Global,
    case: &Answer,
    ask: &Ask,
    partial: &mut Partial,
    entries: &[Entry],
    at: usize,
) -> Result<(), Fail>
    requires nothing { partial.old ≡ [] }
    requires ids { HaveDifferentIds entries.now }
{
    add_in_two(alloc, ask, ask.cut(), partial, entries, at)?;
    let ranked = answer(alloc, ask, partial)?;
    check_places(rt, alloc, (case.name, "cut at", at), &ranked, case.places)
}

fn check_answer(rt: &impl Abort, alloc: Global, case: &Answer) -> Result<(), Fail> {
    let ask = ask_of(alloc, case.text)?;
    let entries = numbered(alloc, case.rows)?;
    for at in 0..=entries.len() {
        let mut partial = Partial::empty();
        check_answer_cut_at(rt, alloc, case, &ask, &mut partial, &entries, at)?;
    }
    Ok(())
}

pub(super) fn check_answers(rt: &impl Abort, alloc: Global, cases: &[Answer]) -> Result<(), Fail> {
    for case in cases {
        check_answer(rt, alloc, case)?;
    }
    Ok(())
}

pub(super) static ANSWERS: [Answer; 11] = [
    Answer {
        name: "best of five hotels",
        text: b"best low(x) * low(y)",
        rows: &[(50, 8), (60, 5), (80, 2), (70, 6), (90, 2)],
        places: &[(1, 1), (1, 2), (1, 3)],
    },
    Answer {
        name: "at least five of nine rows",
        text: b"at_least 5 low(x) * low(y)",
        rows: &PAIRS,
        places: &[(1, 1), (1, 7), (2, 6), (2, 8), (3, 9)],
    },
    Answer {
        name: "at least five of nine rows, level by level",
        text: b"at_least 5 low(x) * low(y) * low(x)",
        rows: &PAIRS,
        places: &[(1, 1), (1, 7), (2, 6), (2, 8), (3, 9)],
    },
    Answer {
        name: "at least four of nine rows",
        text: b"at_least 4 low(x) * low(y)",
        rows: &PAIRS,
        places: &[(1, 1), (1, 7), (2, 6), (2, 8)],
    },
    Answer {
        name: "top two levels of nine rows",
        text: b"top_level 2 low(x) * low(y)",
        rows: &PAIRS,
        places: &[(1, 1), (1, 7), (2, 6), (2, 8)],
    },
    // A product of three is held level by level.
    Answer {
        name: "top two levels of nine rows, level by level",
        text: b"top_level 2 low(x) * low(y) * low(x)",
        rows: &PAIRS,
        places: &[(1, 1), (1, 7), (2, 6), (2, 8)],
    },
    Answer {
        name: "at least two of each group",
        text: b"at_least 2 low(x) by y",
        rows: &[(1, 1), (2, 1), (2, 1), (9, 2)],
        places: &[(1, 1), (1, 4), (2, 2), (2, 3)],
    },
    Answer {
        name: "cheapest of each city",
        text: b"best low(x) by y",
        rows: &[(10, 1), (20, 1), (30, 2), (30, 2)],
        places: &[(1, 1), (1, 3), (1, 4)],
    },
    Answer {
        name: "cheapest of each city, by a clause",
        text: b"skyline of x MIN, y diff",
        rows: &[(10, 1), (20, 1), (30, 2), (30, 2)],
        places: &[(1, 1), (1, 3), (1, 4)],
    },
    Answer {
        name: "one of equal rows in each group",
        text: b"skyline of distinct x min, y diff",
        rows: &[(10, 1), (20, 1), (10, 1), (30, 2), (30, 2), (10, 1)],
        places: &[(1, 1), (1, 4)],
    },
    Answer {
        name: "one of equal rows",
        text: b"skyline of distinct x min, y min",
        rows: &[(3, 3), (3, 3), (2, 4), (4, 2), (2, 4), (3, 3), (5, 5)],
        places: &[(1, 1), (1, 3), (1, 4)],
    },
];

#[test]
fn answers_of_asks(rt: HostRuntime) -> Result<(), Fail> {
    check_answers(&rt, rt.alloc(), &ANSWERS)
}
