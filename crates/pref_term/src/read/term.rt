//! Reading terms: one function for each rule of the grammar.
ghost use Rattle.std.specs.Prelude.{◌≡◌, ◌≤◌, ◌<◌, ◌+◌, length, IfOk, IfErr};
ghost use Rattle.pref_term.specs.Ahead.{ahead};
ghost use Rattle.pref_term.specs.ReaderResults as led;
ghost use Rattle.pref_term.specs.Preference.{preference_of};
ghost use Rattle.pref_term.specs.Preference as terms;

use super::base_term::{Parsed, base_term, expect};
use crate::cursor::Cursor;
use crate::fault::TermFault;
use crate::front::Token;
use crate::term::Term;
use crate::token::{Keyword, Sign, word_of_grammar};
use pref_table::Schema;
use std::alloc::{AllocError, Global};

/// The deepest nesting that a text may open.
const DEEPEST: usize = 64;

/// How many nestings are open within one that opens there.
fn deeper(depth: usize, at: u64) -> Result<usize, TermFault>
    requires { depth ≤ 64 }
    ensures ok { IfOk result (λ inside. (depth < 64) × (inside ≡ depth + 1)) }
    ensures err { IfErr result (λ f. (64 ≤ depth) × (f ≡ TermFault.TooDeep at)) }
{
    if depth < DEEPEST {
        Ok(depth + 1)
    } else {
        Err(TermFault::TooDeep { at })
    }
}

/// Takes a factor, where this many nestings are open.
#[tactic(auto, using(crate::proofs::CycleLemmas::reads_unary))]
#[cycle(term)]
fn unary<'a>(alloc: Global, schema: &Schema, depth: usize, cursor: Cursor<'a>) -> Parsed<'a, Term>
    requires { depth ≤ 64 }
    ensures parsed { led.Parses (led.ReadsUnary schema.now depth (ahead cursor.entry)) (led.FailsUnary schema.now depth (ahead cursor.entry)) result }
    ensures shorter { IfOk result (λ x. length (ahead x.1) < length (ahead cursor.entry)) }
{
    let taken = cursor.take();
    if taken.is(Sign::Minus) {
        let inside = deeper(depth, taken.at)?;
        let (part, next) = unary(alloc, schema, inside, taken.next)?;
        return Ok((reverse_of(alloc, part)?, next));
    }
    if taken.is(Sign::Left) {
        return group(alloc, schema, depth, cursor);
    }
    let Token::Word(letters) = taken.token else {
        return Err(taken.unexpected());
    };
    match word_of_grammar(letters) {
        Some(Keyword::Reverse) => {
            let (part, next) = group(alloc, schema, depth, taken.next)?;
            Ok((reverse_of(alloc, part)?, next))
        }
        _ => base_term(alloc, schema, letters, taken),
    }
}

/// Takes a prior in its parentheses, where this many nestings are open.
#[tactic(auto, using(crate::proofs::CycleLemmas::reads_group))]
#[cycle(term)]
fn group<'a>(alloc: Global, schema: &Schema, depth: usize, cursor: Cursor<'a>) -> Parsed<'a, Term>
    requires { depth ≤ 64 }
    ensures parsed { led.Parses (led.ReadsGroup schema.now depth (ahead cursor.entry)) (led.FailsGroup schema.now depth (ahead cursor.entry)) result }
    ensures shorter { IfOk result (λ x. length (ahead x.1) < length (ahead cursor.entry)) }
{
    let taken = cursor.take();
    if !taken.is(Sign::Left) {
        return Err(taken.unexpected());
    }
    let inside = deeper(depth, taken.at)?;
    let (term, next) = prior(alloc, schema, inside, taken.next)?;
    let rest = expect(next, Sign::Right)?;
    Ok((term, rest))
}

/// Takes a product, where this many nestings are open.
#[tactic(auto, using(crate::proofs::CycleLemmas::one_factor_read))]
#[cycle(term)]
fn product<'a>(alloc: Global, schema: &Schema, depth: usize, cursor: Cursor<'a>) -> Parsed<'a, Term>
    requires { depth ≤ 64 }
    ensures parsed { led.Parses (led.ReadsProduct schema.now depth (ahead cursor.entry)) (led.FailsProduct schema.now depth (ahead cursor.entry)) result }
    ensures shorter { IfOk result (λ x. length (ahead x.1) < length (ahead cursor.entry)) }
{
    let (mut term, mut place) = unary(alloc, schema, depth, cursor)?;
    loop {
        let taken = place.take();
        if !taken.is(Sign::Star) {
            return Ok((term, place));
        }
        let (factor, next) = unary(alloc, schema, depth, taken.next)?;
        term = pareto(alloc, term, factor)?;
        place = next;
    }
}

/// Takes a prior, where this many nestings are open.
#[tactic(auto, using(crate::proofs::CycleLemmas::one_product_read))]
#[cycle(term)]
pub(super) fn prior<'a>(
    alloc: Global,
    schema: &Schema,
    depth: usize,
    cursor: Cursor<'a>,
) -> Parsed<'a, Term>
    requires { depth ≤ 64 }
    ensures parsed { led.Parses (led.ReadsPrior schema.now depth (ahead cursor.entry)) (led.FailsPrior schema.now depth (ahead cursor.entry)) result }
    ensures shorter { IfOk result (λ x. length (ahead x.1) < length (ahead cursor.entry)) }
{
    let (mut term, mut place) = product(alloc, schema, depth, cursor)?;
    loop {
        let taken = place.take();
        if !taken.is(Sign::Ampersand) {
            return Ok((term, place));
        }
        let (last, next) = product(alloc, schema, depth, taken.next)?;
        term = priority_of(alloc, term, last)?;
        place = next;
    }
}

fn reverse_of(alloc: Global, part: Term) -> Result<Term, AllocError>
    ensures { IfOk result (λ term. preference_of term ≡ terms.reverse (preference_of part)) }
{
    Ok(Term::Reverse(Box::new(alloc, part)?))
}

pub(super) fn pareto(alloc: Global, left: Term, right: Term) -> Result<Term, AllocError>
    ensures { IfOk result (λ term. preference_of term ≡ terms.pareto (preference_of left) (preference_of right)) }
{
    let left = Box::new(alloc, left)?;
    Ok(Term::Pareto(left, Box::new(alloc, right)?))
}

fn priority_of(alloc: Global, first: Term, then: Term) -> Result<Term, AllocError>
    ensures { IfOk result (λ term. preference_of term ≡ terms.prior (preference_of first) (preference_of then)) }
{
    let first = Box::new(alloc, first)?;
    Ok(Term::Prior(first, Box::new(alloc, then)?))
}
