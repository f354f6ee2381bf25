//! Reading a question text.
ghost use Rattle.std.specs.Prelude.{◌≡◌, length, IfOk, IfErr, MatchResult, Ok, Err};
ghost use Rattle.pref_term.specs.Spells.{Spells, Faults, UnlessMemory};
ghost use Rattle.pref_term.specs.Asked.{asked};
ghost use Rattle.pref_term.specs.Question.{FitsWidth};

mod ask;
mod base_term;
mod term;

use crate::ask::Ask;
use crate::cursor::Cursor;
use crate::fault::TermFault;
use pref_table::Schema;
use std::alloc::Global;

/// The most bytes of a question.
const LONGEST: usize = 4096;

/// Reads a question text: the ask that it spells over the columns of the schema.
///
/// Refused `TooLong` for more than 4,096 bytes; else for the first token from the left that has a fault. One that no text of
/// the grammar has there is `Unexpected`, before its own faults `UnknownColumn`, `NumberRange`, `TooDeep`, `BadCount` and
/// `EmptyRange`. A skyline clause of DIFF columns alone is `NoMinOrMax`, reported at the end. A place is a byte's, from 0.
/// `OutOfMemory` comes as soon as memory runs out. Reads each byte a fixed number of times. Takes memory for the term, for
/// the keys that lead it and, where it is a chain or a product of two, for these chains.
///
/// ```rust
/// let ask = read_ask(alloc, &schema, b"best low(price) * low(dist)")?;
/// ```
pub fn read_ask(alloc: Global, schema: &Schema, text: &[u8]) -> Result<Ask, TermFault>
    // The answer is the one that the text has, unless memory ran out.
    ensures exact { MatchResult result (λ a. asked schema.now text.now ≡ Ok a) (λ f. UnlessMemory f (asked schema.now text.now ≡ Err f)) }
    // What is read is what the text spells, over columns of the schema.
    ensures ok { IfOk result (λ a. Spells schema.now text.now a × FitsWidth (length schema.now) a) }
    // A fault is the first one, unless memory ran out.
    ensures err { IfErr result (λ f. UnlessMemory f (Faults schema.now text.now f)) }
{
    if text.len() > LONGEST {
        return Err(TermFault::TooLong);
    }
    ask::question(alloc, schema, Cursor::new(text))
}
