//! Rows that are added in pieces, numbered as they come, and answered by one question.
ghost use Rattle.std.specs.Prelude.{◌≡◌, ◌++◌, IfOk};
ghost use Rattle.pref_sky.specs.Answers.{answer_of};
ghost use Rattle.pref_sky.specs.NumberedRows.{numbered};

use super::answers::{ANSWERS, Answer, ask_of};
use super::fixtures::{PAIRS, check_places, rows_of};
use crate::same::assert_same;
use pref_sky::{AddFault, BestOf, Ranked, levels, numbered};
use pref_table::Row;
use pref_term::Ask;
use std::alloc::Global;
use std::process::Abort;
use std::test::Fail;

/// The answer of a question over all rows of these pieces, which have the ids 1, 2, ..
fn answer_of_pieces(alloc: Global, ask: Ask, pieces: &[&[Row]]) -> Result<Vec<Ranked>, AddFault> {
    let mut best = BestOf::new(ask);
    for piece in pieces {
        best.add(alloc, piece)?;
    }
    Ok(best.answer(alloc)?)
}

/// The answer over two lists of rows, of which the second one comes behind the first.
fn answer_of_two(
    alloc: Global,
    ask: Ask,
    front: &[Row],
    back: &[Row],
) -> Result<Vec<Ranked>, AddFault>
    ensures { IfOk result (λ ranked. ranked.items ≡ answer_of ask (numbered (front.now ++ back.now))) }
{
    let mut best = BestOf::new(ask);
    best.add(alloc, front)?;
    best.add(alloc, back)?;
    Ok(best.answer(alloc)?)
}

/// Cut there, with pieces of no rows between, before and behind them, the rows make the answer.
fn check_pieces_cut_at(
    rt: &impl Abort,
    alloc: Global,
    case: &Answer,
    rows: &[Row],
    at: usize,
) -> Result<(), Fail> {
    let (front, back) = rows.split_at(at.min(rows.len()));
    let two = answer_of_two(alloc, ask_of(alloc, case.text)?, front, back)?;
    check_places(rt, alloc, (case.name, "two", at), &two, case.places)?;
    let ask = ask_of(alloc, case.text)?;
    let five = answer_of_pieces(alloc, ask, &[&[], front, &[], back, &[]])?;
    check_places(rt, alloc, (case.name, "five", at), &five, case.places)
}

fn check_pieces(rt: &impl Abort, alloc: Global, case: &Answer) -> Result<(), Fail> {
    let rows = rows_of(alloc, case.rows)?;
    for at in 0..=rows.len() {
        check_pieces_cut_at(rt, alloc, case, &rows, at)?;
    }
    Ok(())
}

#[test]
fn answers_of_rows_in_pieces(rt: HostRuntime) -> Result<(), Fail> {
    for case in &ANSWERS {
        check_pieces(&rt, rt.alloc(), case)?;
    }
    Ok(())
}

#[test]
fn a_list_in_pieces_has_the_levels_of_the_whole(rt: HostRuntime) -> Result<(), Fail> {
    let alloc = rt.alloc();
    let rows = rows_of(alloc, &PAIRS)?;
    let ask = ask_of(alloc, b"top_level 2 low(x) * low(y)")?;
    let whole = levels(alloc, &ask, 1, ask.cut(), &numbered(alloc, &rows)?)?;
    let (front, back) = rows.split_at(rows.len().min(4));
    let answer = answer_of_two(alloc, ask, front, back)?;
    assert_same(&rt, "levels", answer.as_slice(), whole.as_slice());
    Ok(())
}

/// A question and a number of rows, as the best of a list that grows shows them.
#[test]
fn a_growing_list_shows_its_question_and_its_length(rt: HostRuntime) -> Result<(), Fail> {
    let alloc = rt.alloc();
    let ask = ask_of(alloc, b"at_least 2 low(x) by y")?;
    let mut best = BestOf::new(ask.copy(alloc)?);
    assert_same(&rt, "no rows", best.len(), 0);
    best.add(alloc, &rows_of(alloc, &PAIRS)?)?;
    best.add(alloc, &[])?;
    best.add(alloc, &rows_of(alloc, &[(1, 1)])?)?;
    assert_same(&rt, "ten rows", best.len(), 10);
    assert_same(&rt, "question", *best.question() == ask, true);
    Ok(())
}
