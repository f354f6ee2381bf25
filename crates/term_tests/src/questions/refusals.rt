//! Requests for memory that are refused. `tests/refuse_each_allocation.sh` runs these tests once for each of their requests,
//! and refuses it; where none is refused they show that the calls succeed.
ghost use Rattle.std.specs.Prelude.{length};
ghost use Rattle.pref_term.specs.Question.{FitsWidth};

use super::{XYG, row_over};
use crate::same::assert_same;
use pref_table::{Row, Schema, TableFault};
use pref_term::{Ask, AskFault, Dominance, Mode, Relation, Term, TermFault, read_ask, show};
use std::alloc::Global;
use std::process::Abort;
use std::test::Fail;

fn columns(alloc: Global) -> Result<Schema, Fail> {
    Ok(Schema::new(alloc, &XYG)?)
}

/// A question over these columns that is read, again where memory was refused.
fn read_in_the_end(rt: &impl Abort, alloc: Global, question: &[u8]) -> Result<Ask, Fail> {
    let schema = columns(alloc)?;
    match read_ask(alloc, &schema, question) {
        Ok(ask) => Ok(ask),
        Err(fault) => {
            assert_same(rt, "refused", fault, TermFault::OutOfMemory);
            Ok(read_ask(alloc, &schema, question).expect(rt, "memory"))
        }
    }
}

/// Rows that are the same but for y.
fn two_rows(alloc: Global) -> Result<(Row, Row), TableFault> {
    let first = row_over(alloc, &XYG, &[1, 0, 2])?;
    Ok((first, row_over(alloc, &XYG, &[1, -2, 2])?))
}

const QUESTION: &[u8] =
    b"at_least 20 -(low(x) * around(y, -3)) & pos(g, 1, 2) * layered(g, {1, 2}, {3}) by g, x";

/// The mode and the group of each question, and whether it keeps one of equal rows.
static QUESTIONS: [(&[u8], Mode, &[usize], bool); 3] = [
    (QUESTION, Mode::AtLeast(20), &[2, 0], false),
    (
        b"best low(x) * -around(y, -3) * high(g) * between(g, 1, 2)",
        Mode::Best,
        &[],
        false,
    ),
    (
        b"skyline of distinct x min, g diff, y max",
        Mode::Best,
        &[2],
        true,
    ),
];

/// By each of these questions the first of two rows is better.
fn check_reading(
    rt: &impl Abort,
    alloc: Global,
    (first, second): (&Row, &Row),
    case: &(&[u8], Mode, &[usize], bool),
) -> Result<(), Fail> {
    let (question, mode, group, distinct) = *case;
    let ask = read_in_the_end(rt, alloc, question)?;
    let parts = (ask.mode(), ask.group(), ask.distinct());
    assert_same(rt, "its parts", parts, (mode, group, distinct));
    let relation = ask.compare(first, second);
    assert_same(rt, "rows", relation, Relation::Better);
    Ok(())
}

#[test]
fn a_refused_reading_of_a_question_is_reported_and_made_again(rt: HostRuntime) -> Result<(), Fail> {
    let (first, second) = two_rows(rt.alloc())?;
    for case in &QUESTIONS {
        check_reading(&rt, rt.alloc(), (&first, &second), case)?;
    }
    Ok(())
}

/// What is shown of the question, again where memory was refused.
fn check_showing(rt: &impl Abort, alloc: Global, schema: &Schema, ask: &Ask)
    requires { FitsWidth (length schema.now) ask.now }
{
    let text = match show(alloc, schema, ask) {
        Ok(text) => text,
        Err(_) => show(alloc, schema, ask).expect(rt, "memory"),
    };
    assert_same(rt, "text", text.as_slice(), QUESTION);
}

#[test]
fn a_refused_showing_is_reported_and_made_again(rt: HostRuntime) -> Result<(), Fail> {
    let schema = columns(rt.alloc())?;
    let ask = read_ask(rt.alloc(), &schema, QUESTION)?;
    check_showing(&rt, rt.alloc(), &schema, &ask);
    Ok(())
}

/// A copy of this question, made again where memory was refused.
fn copied_in_the_end(rt: &impl Abort, alloc: Global, ask: &Ask) -> Ask {
    match ask.copy(alloc) {
        Ok(copied) => copied,
        Err(_) => ask.copy(alloc).expect(rt, "memory"),
    }
}

/// Whether a copy of a question is equal to it, and led by as many chains.
fn is_copied(rt: &impl Abort, alloc: Global, question: &[u8]) -> Result<bool, Fail> {
    let schema = columns(alloc)?;
    let ask = read_ask(alloc, &schema, question)?;
    let copied = copied_in_the_end(rt, alloc, &ask);
    Ok(copied == ask && copied.leading().chains.len() == ask.leading().chains.len())
}

#[test]
fn a_refused_copy_of_a_question_is_reported_and_made_again(rt: HostRuntime) -> Result<(), Fail> {
    for question in [
        QUESTION,
        b"best low(x) & (-around(y, -3) * between(g, 1, 2))",
        b"best pos(g, 1, 2) & (low(x) * layered(y, {1, 2}, {3}))",
        b"skyline of distinct x min, g diff, y max",
    ] {
        assert_same(&rt, question, is_copied(&rt, rt.alloc(), question)?, true);
    }
    Ok(())
}

/// A question of the values of x nearest to a number, by code.
fn built(alloc: Global, centre: i64) -> Result<Ask, AskFault> {
    let term = Term::Around { col: 0, centre };
    Ask::of(alloc, term, Vec::new(alloc), Mode::TopLevel(3))
}

/// The same, built again where memory was refused.
fn built_in_the_end(rt: &impl Abort, alloc: Global, centre: i64) -> Ask {
    match built(alloc, centre) {
        Ok(ask) => ask,
        Err(fault) => {
            assert_same(rt, "refused", fault, AskFault::OutOfMemory);
            built(alloc, centre).expect(rt, "memory")
        }
    }
}

#[test]
fn a_refused_building_of_a_question_is_reported_and_made_again(
    rt: HostRuntime,
) -> Result<(), Fail> {
    let ask = built_in_the_end(&rt, rt.alloc(), 7);
    assert_same(&rt, "mode", ask.mode(), Mode::TopLevel(3));
    Ok(())
}
