//! Scales for signatures of entries, by which most pairs are decided without a comparison.

ghost use Rattle.std.specs.Prelude.{All, IfOk};
ghost use Rattle.pref_term.specs.AskOrder.{order_of};
ghost use Rattle.pref_term.specs.Chains.{AreInRow};
ghost use Rattle.pref_term.specs.Signatures.{IsBy, Suit};

use crate::entry::Entry;
use pref_table::Row;
use pref_term::Ask;
use pref_term::engine::{Leading, Scales};
use std::alloc::{AllocError, Global};

/// The fewest entries for which scales are made: fewer are compared in less time.
const FEWEST: usize = 16;

/// How many rows a sample has at most: twice as many as a signature has bits, so that marks which divide the sample divide the rows
/// about as evenly.
const SAMPLE: usize = 128;

/// Rows of these entries, evenly spread.
fn sample_of(alloc: Global, entries: &[Entry]) -> Result<Vec<Row>, AllocError> {
    let mut sample = Vec::new(alloc);
    for entry in entries.iter().step_by(entries.len() / SAMPLE + 1) {
        sample.push(entry.row)?;
    }
    Ok(sample)
}

/// Scales that suit a question, for entries like these, of which evenly spread ones are looked at; none where they are few.
pub(crate) fn scales_of(alloc: Global, ask: &Ask, entries: &[Entry]) -> Result<Scales, AllocError>
    ensures { IfOk result (λ scales. Suit (order_of ask.now) scales) }
{
    if entries.len() < FEWEST {
        return Ok(Scales::none());
    }
    let sample = sample_of(alloc, entries)?;
    ask.scales(alloc, &sample)
}

/// Scales for entries like these that are the same in the chains that lead a question; none where they are few, or these chains decide
/// alone.
pub(crate) fn scales_behind(
    alloc: Global,
    leading: &Leading,
    entries: &[Entry],
) -> Result<Scales, AllocError>
    requires { AreInRow leading.now.behind.now }
    ensures { IfOk result (λ scales. All (IsBy leading.now.behind.now) scales) }
{
    if leading.decides_alone() || entries.len() < FEWEST {
        return Ok(Scales::none());
    }
    let sample = sample_of(alloc, entries)?;
    leading.scales(alloc, &sample)
}
