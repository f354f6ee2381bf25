//! Reading whole questions: what is around a term, and skyline clauses.
ghost use Rattle.std.specs.Prelude.{◌≡◌, ◌<◌, ◌+◌, ℕ, List, ◌++◌, length, IfOk, IfErr, true, false, Some, None, MatchOption};
ghost use Rattle.std.specs.Option.{option_map};
ghost use Rattle.pref_term.specs.Ahead.{ahead};
ghost use Rattle.pref_term.specs.Distinct as distinct;
ghost use Rattle.pref_term.specs.Grammar as grammar;
ghost use Rattle.pref_term.specs.ReaderResults as led;
ghost use Rattle.pref_term.specs.Reading as reading;
ghost use Rattle.pref_term.specs.Spells as spells;
ghost use Rattle.pref_term.specs.Question.{FitsWidth, IsAsk, IsCount, cut_of};
ghost use Rattle.pref_term.specs.Preference.{preference_of};

use super::base_term::{Parsed, column, expect, take_word};
use super::term::{pareto, prior};
use crate::ask::{Ask, Mode};
use crate::cursor::Cursor;
use crate::fault::TermFault;
use crate::front::Token;
use crate::number::count_value;
use crate::term::Term;
use crate::token::{CasedWord, Direction, Keyword, Sign, cased_word, word_of_grammar};
use pref_table::Schema;
use std::alloc::{AllocError, Global};

/// Takes a count.
#[tactic(auto, using(crate::proofs::TokenLemmas::digits_taken))]
fn count<'a>(cursor: Cursor<'a>) -> Parsed<'a, u32>
    ensures ok { IfOk result (λ x. led.TakesCount (ahead cursor.entry) x.0 (ahead x.1)) }
    ensures err { IfErr result (λ f. led.FailsCount (ahead cursor.entry) f) }
{
    let taken = cursor.take();
    let Token::Digits(digits) = taken.token else {
        return Err(taken.unexpected());
    };
    let count = count_value(digits).ok_or(TermFault::BadCount { at: taken.at })?;
    Ok((count, taken.next))
}

/// Takes the columns of a group and the end behind them.
fn group_columns(
    alloc: Global,
    schema: &Schema,
    cursor: Cursor<'_>,
) -> Result<Vec<usize>, TermFault>
    ensures ok { IfOk result (λ columns. led.ReadsColumns schema.now (ahead cursor.entry) columns.items) }
    ensures err { IfErr result (λ f. led.FailsColumns schema.now (ahead cursor.entry) f) }
{
    let mut columns = Vec::new(alloc);
    let mut place = cursor;
    loop {
        let (col, next) = column(schema, place)?;
        columns.push(col)?;
        if next.take().ends() {
            return Ok(columns);
        }
        place = expect(next, Sign::Comma)?;
    }
}

/// Takes the group of a question, which may have no column, and the end.
fn grouping(alloc: Global, schema: &Schema, cursor: Cursor<'_>) -> Result<Vec<usize>, TermFault>
    ensures ok { IfOk result (λ columns. led.ReadsGrouping schema.now (ahead cursor.entry) columns.items) }
    ensures err { IfErr result (λ f. led.FailsGrouping schema.now (ahead cursor.entry) f) }
{
    if cursor.take().ends() {
        return Ok(Vec::new(alloc));
    }
    let (letters, by) = take_word(cursor)?;
    let Some(Keyword::By) = word_of_grammar(letters) else {
        return Err(by.unexpected());
    };
    group_columns(alloc, schema, by.next)
}

/// Takes what follows the words that say how many are wanted.
#[tactic(auto, using(crate::proofs::AskLemmas::rated_read, crate::proofs::AskLemmas::rated_fails))]
fn read_rated_term(
    alloc: Global,
    schema: &Schema,
    mode: Mode,
    cursor: Cursor<'_>,
) -> Result<Ask, TermFault>
    requires { IsCount (cut_of mode) }
    ensures asked { (head : grammar.HeadText) → spells.mode_of head ≡ mode → led.Asks schema.now false (reading.operand (reading.in_whole head)) (ahead cursor.entry) result }
    ensures known { IfOk result (λ a. FitsWidth (length schema.now) a) }
{
    let (term, next) = prior(alloc, schema, 0, cursor)?;
    let group = grouping(alloc, schema, next)?;
    Ok(Ask::new(alloc, term, group, mode, false)?)
}

/// Takes the word `of`.
fn of(cursor: Cursor<'_>) -> Result<Cursor<'_>, TermFault>
    ensures ok { IfOk result (λ next. led.PassesOf (ahead cursor.entry) (ahead next)) }
    ensures err { IfErr result (λ f. led.FailsOf (ahead cursor.entry) f) }
{
    let (letters, word) = take_word(cursor)?;
    let Some(CasedWord::Of) = cased_word(letters) else {
        return Err(word.unexpected());
    };
    Ok(word.next)
}

/// Takes what a skyline clause says of a column.
fn direction<'a>(cursor: Cursor<'a>) -> Parsed<'a, Direction>
    ensures ok { IfOk result (λ x. led.TakesDirection (ahead cursor.entry) x.0 (ahead x.1)) }
    ensures shorter { IfOk result (λ x. length (ahead x.1) < length (ahead cursor.entry)) }
    ensures err { IfErr result (λ f. led.FailsDirection (ahead cursor.entry) f) }
{
    let (letters, word) = take_word(cursor)?;
    let direction = match cased_word(letters) {
        Some(CasedWord::Min) => Direction::Min,
        Some(CasedWord::Max) => Direction::Max,
        Some(CasedWord::Diff) => Direction::Diff,
        _ => return Err(word.unexpected()),
    };
    Ok((direction, word.next))
}

/// A dimension of a skyline clause.
#[derive(Clone, Copy)]
struct Dimension {
    col: usize,
    direction: Direction,
}

/// Takes a dimension.
#[tactic(auto, using(crate::proofs::AskLemmas::dim_read, crate::proofs::AskLemmas::dim_column_fails, crate::proofs::AskLemmas::dim_direction_fails))]
fn take_dimension<'a>(schema: &Schema, cursor: Cursor<'a>) -> Parsed<'a, Dimension>
    ensures ok { IfOk result (λ x. led.ReadsDim schema.now (ahead cursor.entry) x.0.col x.0.direction (ahead x.1)) }
    ensures shorter { IfOk result (λ x. length (ahead x.1) < length (ahead cursor.entry)) }
    ensures err { IfErr result (λ f. led.FailsDim schema.now (ahead cursor.entry) f) }
{
    let (col, behind) = column(schema, cursor)?;
    let (direction, next) = direction(behind)?;
    Ok((Dimension { col, direction }, next))
}

/// The dimensions of a skyline clause: the product of their orders, where there is one, and the DIFF columns.
#[derive(Drop)]
struct Clause {
    product: Option<Term>,
    group: Vec<usize>,
}

/// The product with one more order.
fn product_with(alloc: Global, product: Option<Term>, order: Term) -> Result<Term, AllocError>
    ensures { IfOk result (λ term. preference_of term ≡ led.joined (option_map preference_of product) (preference_of order)) }
{
    match product {
        None => Ok(order),
        Some(product) => pareto(alloc, product, order),
    }
}

/// The clause with one more dimension.
fn with_dimension(alloc: Global, clause: Clause, dimension: Dimension) -> Result<Clause, AllocError>
    ensures product { IfOk result (λ longer. option_map preference_of longer.product ≡ led.with_order (option_map preference_of clause.product) dimension.direction dimension.col) }
    ensures group { IfOk result (λ longer. longer.group.items ≡ clause.group.items ++ spells.group_by dimension.direction dimension.col) }
{
    let Clause { product, mut group } = clause;
    let col = dimension.col;
    let order = match dimension.direction {
        Direction::Min => Term::Low { col },
        Direction::Max => Term::High { col },
        Direction::Diff => {
            group.push(col)?;
            return Ok(Clause { product, group });
        }
    };
    let product = Some(product_with(alloc, product, order)?);
    Ok(Clause { product, group })
}

/// Takes the dimensions of a skyline clause and the end behind them.
#[tactic(auto, using(crate::proofs::AskLemmas::dims_none, crate::proofs::AskLemmas::dims_more))]
fn dimensions(alloc: Global, schema: &Schema, cursor: Cursor<'_>) -> Result<Clause, TermFault>
    ensures ok { IfOk result (λ clause. led.ReadsClause schema.now (ahead cursor.entry) (option_map preference_of clause.product) clause.group.items) }
    ensures err { IfErr result (λ f. led.FailsClause schema.now (ahead cursor.entry) f) }
{
    let mut clause = Clause {
        product: None,
        group: Vec::new(alloc),
    };
    let mut place = cursor;
    loop {
        let (dimension, next) = take_dimension(schema, place)?;
        clause = with_dimension(alloc, clause, dimension)?;
        if next.take().ends() {
            return Ok(clause);
        }
        place = expect(next, Sign::Comma)?;
    }
}

/// Takes the dimensions of a clause.
#[tactic(auto, using(crate::proofs::AskLemmas::clause_read, crate::proofs::AskLemmas::clause_unordered, crate::proofs::AskLemmas::clause_fails))]
fn clause_ask(
    alloc: Global,
    schema: &Schema,
    cursor: Cursor<'_>,
    distinct: bool,
) -> Result<Ask, TermFault>
    ensures asked { led.AsksClause schema.now distinct (ahead cursor.entry) result }
    ensures known { IfOk result (λ a. FitsWidth (length schema.now) a) }
{
    let Clause { product, group } = dimensions(alloc, schema, cursor)?;
    let Some(term) = product else {
        return Err(TermFault::NoMinOrMax);
    };
    Ok(Ask::new(alloc, term, group, Mode::Best, distinct)?)
}

/// Takes a whole question, in which no word `distinct` is a word of the clause.
fn ask(alloc: Global, schema: &Schema, cursor: Cursor<'_>) -> Result<Ask, TermFault>
    ensures asked { led.Asks schema.now false reading.start (ahead cursor.entry) result }
    ensures known { IfOk result (λ a. FitsWidth (length schema.now) a) }
{
    let (letters, word) = take_word(cursor)?;
    match word_of_grammar(letters) {
        Some(Keyword::Best) => read_rated_term(alloc, schema, Mode::Best, word.next),
        Some(Keyword::TopLevel) => {
            let (k, behind) = count(word.next)?;
            read_rated_term(alloc, schema, Mode::TopLevel(k), behind)
        }
        Some(Keyword::AtLeast) => {
            let (k, behind) = count(word.next)?;
            read_rated_term(alloc, schema, Mode::AtLeast(k), behind)
        }
        Some(_) => Err(word.unexpected()),
        None => {
            let Some(CasedWord::Skyline) = cased_word(letters) else {
                return Err(word.unexpected());
            };
            let behind = of(word.next)?;
            clause_ask(alloc, schema, behind, false)
        }
    }
}

/// Whether a word `distinct` ahead is one of a skyline clause: the second token behind it is a word.
fn is_distinct_ahead(cursor: Cursor<'_>) -> bool
    ensures { result ≡ distinct.is_distinct_ahead (ahead cursor.entry) }
{
    let taken = cursor.take();
    let Token::Word(letters) = taken.token else {
        return false;
    };
    let second = taken.next.take();
    if second.ends() {
        return false;
    }
    let third = second.next.take();
    letters.eq_ignore_ascii_case(b"distinct") && matches!(third.token, Token::Word(_))
}

/// Takes `skyline of distinct`, where the last is a word of the clause.
fn distinct_clause<'a>(cursor: Cursor<'a>) -> Option<Cursor<'a>>
    ensures { MatchOption result (distinct.says_distinct (ahead cursor.entry) ≡ false) (λ next. led.IsBehindDistinct (ahead cursor.entry) (ahead next)) }
{
    let first = cursor.take();
    let Token::Word(skyline) = first.token else {
        return None;
    };
    let second = first.next.take();
    let Token::Word(of) = second.token else {
        return None;
    };
    if skyline.eq_ignore_ascii_case(b"skyline")
        && of.eq_ignore_ascii_case(b"of")
        && is_distinct_ahead(second.next)
    {
        Some(second.next.take().next)
    } else {
        None
    }
}

/// Takes a whole question. Whether a word `distinct` behind `skyline of` is one of the clause or a column is chosen first.
#[tactic(auto, using(crate::proofs::DistinctLemmas::whole_clause, crate::proofs::DistinctLemmas::whole_plain))]
pub(super) fn question(alloc: Global, schema: &Schema, cursor: Cursor<'_>) -> Result<Ask, TermFault>
    ensures asked { led.AsksWhole schema.now (ahead cursor.entry) result }
    ensures known { IfOk result (λ a. FitsWidth (length schema.now) a) }
{
    match distinct_clause(cursor) {
        Some(behind) => clause_ask(alloc, schema, behind, true),
        None => ask(alloc, schema, cursor),
    }
}
