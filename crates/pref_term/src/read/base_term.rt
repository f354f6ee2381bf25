//! Reading base terms.
ghost use Rattle.std.specs.Prelude.{◌≡◌, ℕ, Some, ◌<◌, ◌+◌, [], ◌∷◌, ◌++◌, length, IfOk, IfErr};
ghost use Rattle.pref_term.specs.Ahead as places;
ghost use Rattle.pref_term.specs.Ahead.{ahead};
ghost use Rattle.pref_term.specs.Grammar.{keyword_of, reverse_word};
ghost use Rattle.pref_term.specs.declared.front.Token.TheVariants.{Word};
ghost use Rattle.pref_term.specs.Token as tokens;
ghost use Rattle.pref_term.specs.ReaderResults as led;
ghost use Rattle.pref_term.specs.Reading as reading;
ghost use Rattle.pref_term.specs.Preference.{preference_of};

use crate::cursor::{Cursor, Lexeme};
use crate::fault::TermFault;
use crate::front::Token;
use crate::term::{NumberSets, Numbers, Term};
use crate::token::{Keyword, Sign, word_of_grammar};
use pref_table::Schema;
use pref_table::engine::signed_number;
use std::alloc::Global;

/// A thing that was read, with the place behind it, or the fault.
pub(super) type Parsed<'a, T> = Result<(T, Cursor<'a>), TermFault>;

/// Takes a sign.
pub(super) fn expect<'a>(cursor: Cursor<'a>, sign: Sign) -> Result<Cursor<'a>, TermFault>
    ensures ok { IfOk result (λ next. led.Passes (tokens.sign sign) (ahead cursor.entry) (ahead next)) }
    ensures err { IfErr result (λ f. led.IsOther (tokens.sign sign) (ahead cursor.entry) f) }
{
    let taken = cursor.take();
    if taken.is(sign) {
        Ok(taken.next)
    } else {
        Err(taken.unexpected())
    }
}

/// Takes a word: its letters, and what was taken.
pub(super) fn take_word<'a>(cursor: Cursor<'a>) -> Result<(&'a [u8], Lexeme<'a>), TermFault>
    ensures ok { IfOk result (λ x. ahead cursor.entry ≡ led.word_ahead x.0.now x.1.at (ahead x.1.next)) }
    ensures err { IfErr result (λ f. led.LacksWord (ahead cursor.entry) f) }
{
    let taken = cursor.take();
    match taken.token {
        Token::Word(letters) => Ok((letters, taken)),
        _ => Err(taken.unexpected()),
    }
}

/// Takes a column.
#[tactic(auto, using(crate::proofs::LedLemmas::column_unknown))]
pub(super) fn column<'a>(schema: &Schema, cursor: Cursor<'a>) -> Parsed<'a, usize>
    ensures ok { IfOk result (λ x. led.TakesColumn schema.now (ahead cursor.entry) x.0 (ahead x.1)) }
    ensures shorter { IfOk result (λ x. length (ahead x.1) < length (ahead cursor.entry)) }
    ensures err { IfErr result (λ f. led.FailsColumn schema.now (ahead cursor.entry) f) }
{
    let (letters, word) = take_word(cursor)?;
    match schema.index_of(letters) {
        Some(col) => Ok((col, word.next)),
        None => Err(TermFault::UnknownColumn { at: word.at }),
    }
}

/// Takes a parenthesis, a column and the sign behind it.
#[tactic(auto, using(crate::proofs::LedLemmas::opened_read, crate::proofs::LedLemmas::opened_fails, crate::proofs::LedLemmas::column_end_fails))]
fn opened_column<'a>(schema: &Schema, cursor: Cursor<'a>, behind: Sign) -> Parsed<'a, usize>
    ensures ok { IfOk result (λ x. led.ReadsOpened schema.now behind (ahead cursor.entry) x.0 (ahead x.1)) }
    ensures shorter { IfOk result (λ x. length (ahead x.1) < length (ahead cursor.entry)) }
    ensures err { IfErr result (λ f. led.FailsOpened schema.now behind (ahead cursor.entry) f) }
{
    let inside = expect(cursor, Sign::Left)?;
    let (col, next) = column(schema, inside)?;
    let rest = expect(next, behind)?;
    Ok((col, rest))
}

/// Takes a number.
fn number<'a>(cursor: Cursor<'a>) -> Parsed<'a, i64>
    ensures ok { IfOk result (λ x. led.ReadsNumber (ahead cursor.entry) x.0 (ahead x.1)) }
    ensures shorter { IfOk result (λ x. length (ahead x.1) < length (ahead cursor.entry)) }
    ensures err { IfErr result (λ f. led.FailsNumber (ahead cursor.entry) f) }
{
    let first = cursor.take();
    let negative = first.is(Sign::Minus);
    let last = if negative { first.next.take() } else { first };
    let Token::Digits(digits) = last.token else {
        return Err(last.unexpected());
    };
    match signed_number(negative, digits) {
        Some(value) => Ok((value, last.next)),
        None => Err(TermFault::NumberRange { at: first.at }),
    }
}

/// Takes the numbers of a list and the sign that closes it.
#[tactic(auto, using(crate::proofs::LedLemmas::some_none, crate::proofs::LedLemmas::some_more))]
fn numbers<'a>(alloc: Global, cursor: Cursor<'a>, close: Sign) -> Parsed<'a, Vec<i64>>
    ensures ok { IfOk result (λ x. led.ReadsNumbers close (ahead cursor.entry) x.0.items (ahead x.1)) }
    ensures shorter { IfOk result (λ x. length (ahead x.1) < length (ahead cursor.entry)) }
    ensures err { IfErr result (λ f. led.FailsNumbers close (ahead cursor.entry) f) }
{
    let mut set = Vec::new(alloc);
    let mut place = cursor;
    loop {
        let (value, next) = number(place)?;
        set.push(value)?;
        let taken = next.take();
        if taken.is(close) {
            return Ok((set, taken.next));
        }
        place = expect(next, Sign::Comma)?;
    }
}

/// Takes what follows `around`.
fn around<'a>(schema: &Schema, cursor: Cursor<'a>) -> Parsed<'a, Term>
    ensures parsed { led.Parses (led.ReadsBase schema.now reading.around_kind (ahead cursor.entry)) (led.FailsBase schema.now reading.around_kind (ahead cursor.entry)) result }
    ensures shorter { IfOk result (λ x. length (ahead x.1) < length (ahead cursor.entry)) }
{
    let (col, inside) = opened_column(schema, cursor, Sign::Comma)?;
    let (centre, behind) = number(inside)?;
    let rest = expect(behind, Sign::Right)?;
    Ok((Term::Around { col, centre }, rest))
}

/// Takes what follows `between`. The right end of a range is no less than its left end.
fn between<'a>(schema: &Schema, cursor: Cursor<'a>) -> Parsed<'a, Term>
    ensures parsed { led.Parses (led.ReadsBase schema.now reading.between_kind (ahead cursor.entry)) (led.FailsBase schema.now reading.between_kind (ahead cursor.entry)) result }
    ensures shorter { IfOk result (λ x. length (ahead x.1) < length (ahead cursor.entry)) }
{
    let (col, inside) = opened_column(schema, cursor, Sign::Comma)?;
    let (left, behind) = number(inside)?;
    let beside = expect(behind, Sign::Comma)?;
    let (right, end) = number(beside)?;
    if right < left {
        let at = beside.take().at;
        return Err(TermFault::EmptyRange { at });
    }
    let rest = expect(end, Sign::Right)?;
    Ok((Term::Between { col, left, right }, rest))
}

/// Takes what follows `pos`.
#[tactic(auto, using(crate::proofs::LedLemmas::pos_read, crate::proofs::LedLemmas::opened_base_fails, crate::proofs::LedLemmas::pos_fails))]
fn pos<'a>(alloc: Global, schema: &Schema, cursor: Cursor<'a>) -> Parsed<'a, Term>
    ensures parsed { led.Parses (led.ReadsBase schema.now reading.pos_kind (ahead cursor.entry)) (led.FailsBase schema.now reading.pos_kind (ahead cursor.entry)) result }
    ensures shorter { IfOk result (λ x. length (ahead x.1) < length (ahead cursor.entry)) }
{
    let (col, inside) = opened_column(schema, cursor, Sign::Comma)?;
    let (numbers, rest) = numbers(alloc, inside, Sign::Right)?;
    let set = Numbers::of(numbers);
    Ok((Term::Pos { col, set }, rest))
}

/// Takes the sets of `layered` and the parenthesis behind them.
#[tactic(auto, using(crate::proofs::LedLemmas::some_sets_none, crate::proofs::LedLemmas::some_sets_more))]
fn sets<'a>(alloc: Global, cursor: Cursor<'a>) -> Parsed<'a, Vec<Numbers>>
    ensures ok { IfOk result (λ x. led.ReadsSets (ahead cursor.entry) x.0.items (ahead x.1)) }
    ensures shorter { IfOk result (λ x. length (ahead x.1) < length (ahead cursor.entry)) }
    ensures err { IfErr result (λ f. led.FailsSets (ahead cursor.entry) f) }
{
    let mut sets = Vec::new(alloc);
    let mut place = cursor;
    loop {
        let inside = expect(place, Sign::LeftBrace)?;
        let (numbers, next) = numbers(alloc, inside, Sign::RightBrace)?;
        sets.push(Numbers::of(numbers))?;
        let taken = next.take();
        if taken.is(Sign::Right) {
            return Ok((sets, taken.next));
        }
        place = expect(next, Sign::Comma)?;
    }
}

/// Takes what follows `layered`.
#[tactic(auto, using(crate::proofs::LedLemmas::layered_read, crate::proofs::LedLemmas::opened_base_fails, crate::proofs::LedLemmas::layered_fails))]
fn layered<'a>(alloc: Global, schema: &Schema, cursor: Cursor<'a>) -> Parsed<'a, Term>
    ensures parsed { led.Parses (led.ReadsBase schema.now reading.layered_kind (ahead cursor.entry)) (led.FailsBase schema.now reading.layered_kind (ahead cursor.entry)) result }
    ensures shorter { IfOk result (λ x. length (ahead x.1) < length (ahead cursor.entry)) }
{
    let (col, inside) = opened_column(schema, cursor, Sign::Comma)?;
    let (sets, rest) = sets(alloc, inside)?;
    let sets = NumberSets::of(sets);
    Ok((Term::Layered { col, sets }, rest))
}

/// Takes a base term, whose word was taken. It is not `reverse`.
pub(super) fn base_term<'a>(
    alloc: Global,
    schema: &Schema,
    letters: &'a [u8],
    taken: Lexeme<'a>,
) -> Parsed<'a, Term>
    requires word { taken.token ≡ Word letters }
    requires other { keyword_of letters.now ≡ Some reverse_word → ⊥ }
    ensures parsed { (depth : ℕ) → led.Parses (led.ReadsUnary schema.now depth (places.taken taken.entry)) (led.FailsUnary schema.now depth (places.taken taken.entry)) result }
    ensures shorter { IfOk result (λ x. length (ahead x.1) < length (places.taken taken.entry)) }
{
    match word_of_grammar(letters) {
        Some(Keyword::Low) => {
            let (col, rest) = opened_column(schema, taken.next, Sign::Right)?;
            Ok((Term::Low { col }, rest))
        }
        Some(Keyword::High) => {
            let (col, rest) = opened_column(schema, taken.next, Sign::Right)?;
            Ok((Term::High { col }, rest))
        }
        Some(Keyword::Around) => around(schema, taken.next),
        Some(Keyword::Between) => between(schema, taken.next),
        Some(Keyword::Pos) => pos(alloc, schema, taken.next),
        Some(Keyword::Layered) => layered(alloc, schema, taken.next),
        _ => Err(taken.unexpected()),
    }
}
