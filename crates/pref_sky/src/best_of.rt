//! The best rows of a list that grows, for a caller whose rows have no ids of their own.

ghost use Rattle.std.specs.Prelude.{◌≡◌, ◌+◌, ◌≤◌, ◌^◌, ◌++◌, ◌↔◌, [], List, length, Err, IfOk, OnErr, OnOk};
ghost use Rattle.pref_table.specs.declared.row.Row.{Row};
ghost use Rattle.pref_term.specs.Question.{Question};
ghost use Rattle.pref_sky.specs.Answers.{answer_of};
ghost use Rattle.pref_sky.specs.NumberedRows.{best_of, numbered};
ghost use Rattle.pref_sky.specs.declared.best_of.AddFault.TheVariants.{OutOfMemory};

use crate::answers::answer;
use crate::entry::Ranked;
use crate::numbering::numbered_from;
use crate::partial::Partial;
use pref_table::Row;
use pref_term::Ask;
use std::alloc::{AllocError, Global};
use std::marker::Model;
use thiserror::Error;

/// [`Partial::add`] wants a window, which the order of a question never uses.
const WINDOW: usize = 1;

/// Why no row of a piece was added.
#[derive(Clone, Copy, Debug, PartialEq, Eq, Error)]
pub enum AddFault {
    /// Memory was refused.
    #[error("out of memory")]
    OutOfMemory,
    /// The rows would be more than the ids that there are, which are 1 to 2^64 - 1.
    #[error("out of ids")]
    OutOfIds,
}

impl From<AllocError> for AddFault {
    ghost from_gives = { λ _ fault. fault ≡ OutOfMemory };

    fn from(_error: AllocError) -> AddFault {
        AddFault::OutOfMemory
    }
}

/// The best rows of a list that grows, by one question. Rows are added in pieces, and have the ids 1, 2, .. as they come.
///
/// No call requires anything of its caller. A contract sees the question, the levels that are held, and how many rows were added. It
/// holds what a [`Partial`] of the question holds, so most rows that are dominated take no memory.
///
/// ```rust
/// let mut best = BestOf::new(ask);
/// for piece in pieces {
///     best.add(alloc, piece)?;
/// }
/// let hotels = best.answer(alloc)?;
/// for hotel in hotels.as_slice() {
///     println!(rt; "row {}, at {}", hotel.id, hotel.row.cell(0))?;
/// }
/// // row 1, at 50
/// // row 2, at 60
/// // row 3, at 80
/// // row 6, at 100
/// ```
pub struct BestOf {
    ask: Ask,
    partial: Partial,
    count: u64,
}

// By hand, so that letting one go is a call: a derived `drop` is written out, and proved, at each way out of each function that owns one.
impl Drop for BestOf {
    fn drop(self) {
        let BestOf {
            ask: _,
            partial: _,
            count: _,
        } = self;
    }
}

impl Model for BestOf {
    ghost use Rattle.std.specs.Coded.{codes};
    ghost use Rattle.pref_term.specs.PreferenceCode.{coded_question};
    ghost use Rattle.pref_sky.specs.NumberedRows.{BestSoFar, IsOfSomeRows};

    ghost Value = { BestSoFar };

    ghost coded = { Prim.hlevel (codes, coded_question) };

    ghost view = { λ b. record { question = b.ask; held = b.partial; count = b.count } };

    ghost invariant = { λ b. IsOfSomeRows (record { question = b.ask; held = b.partial; count = b.count }) };
}

impl BestOf {
    /// The best rows of a list that has none yet. Takes no memory.
    pub fn new(ask: Ask) -> BestOf
        ensures { result ≡ best_of ask [] }
    {
        BestOf {
            ask,
            partial: Partial::empty(),
            count: 0,
        }
    }

    /// The question.
    pub fn question(&self) -> &Ask
        ensures { result.now ≡ self.now.question }
    {
        &self.ask
    }

    /// How many rows were added, which is the id of the last one.
    pub fn len(&self) -> u64
        ensures { result ≡ self.now.count }
    {
        self.count
    }

    /// Adds rows behind those that were added before. The first of them has the id [`len`](BestOf::len) + 1.
    ///
    /// Refused `OutOfIds` where more than 2^64 - 1 rows would have been added, else `OutOfMemory`. No row was added then.
    ///
    /// Cost and memory: those of [`Partial::add`], and a copy of the rows with their ids, 136 bytes for each.
    #[tactic(auto, using(std::proofs::lemmas::Grind::common_steps, crate::proofs::NumberedLaws::all_differ, crate::proofs::NumberedLaws::new_differ, crate::proofs::NumberedLaws::numbered_before))]
    pub fn add(&mut self, alloc: Global, rows: &[Row]) -> Result<(), AddFault>
        ensures ok { (q : Question) (before : List Row) → self.old ≡ best_of q before → OnOk result (self.new ≡ best_of q (before ++ rows.now)) }
        ensures err { OnErr result (self.new ≡ self.old) }
        ensures ids { result ≡ Err AddFault.OutOfIds ↔ (2 ^ 64 ≤ self.old.count + length rows.now) }
    {
        let Some(count) = self.count.checked_add(rows.len() as u64) else {
            return Err(AddFault::OutOfIds);
        };
        let entries = numbered_from(alloc, self.count, rows)?;
        let cut = self.ask.cut();
        self.partial.add(alloc, &self.ask, WINDOW, cut, &entries)?;
        self.count = count;
        Ok(())
    }

    /// The answer of the question over all rows that were added, in order of level, then id.
    ///
    /// Cost and memory: those of [`answer`]. `Err` is out of memory.
    pub fn answer(&self, alloc: Global) -> Result<Vec<Ranked>, AllocError>
        ensures { (q : Question) (rows : List Row) → self.now ≡ best_of q rows → IfOk result (λ ranked. ranked.items ≡ answer_of q (numbered rows)) }
    {
        answer(alloc, &self.ask, &self.partial)
    }
}
