//! Laws of the definitions, each the contract of a function that does nothing: what threads and other callers
//! of [`Store`](crate::engine::Store) and [`Query`](crate::engine::Query) build on.

ghost use Rattle.pref_core.specs.History.{OpsAreHistory};
ghost use Rattle.pref_core.specs.Laws.{EndsNeedNoMore, NeededFits, NeededFitsSlots, BlocksAreTheSlots};
ghost use Rattle.pref_core.specs.Queries.{NextBlockIsNew, AnswersTheBegin};
ghost use Rattle.pref_core.specs.Stability.{IsStable};

/// A block shows the same entries, as of an open query's begin, after every list of operations that does not end this
/// query, though slots are used again.
pub fn blocks_stay()
    ensures { IsStable }
{}

/// Operations that are legal one after the other are, slots left out, a legal history, and what they leave
/// represents the state after it.
pub fn ops_are_history()
    ensures { OpsAreHistory }
{}

/// A call that begins no row, as a delete, never makes the needed versions more: so it is never refused for lack of
/// room, and the code asks for room only where a row begins.
#[tactic(auto, using(crate::proofs::NeededCounts::ends_need_no_more))]
pub fn ends_need_no_more()
    ensures { EndsNeedNoMore }
{}

/// The needed versions are never more than the capacity along a legal history.
#[tactic(auto, using(crate::proofs::NeededCounts::needed_fits))]
pub fn needed_fits()
    ensures { NeededFits }
{}

/// The needed versions are never more than the slots that represent the state.
#[tactic(auto, using(crate::proofs::NeededCounts::needed_fits_slots))]
pub fn needed_fits_slots()
    ensures { NeededFitsSlots }
{}

/// The blocks hold each slot once.
pub fn blocks_are_the_slots()
    ensures { BlocksAreTheSlots }
{}

/// As long as a query lives its next block shows no id twice, and none that the query holds: so a scan may be made,
/// whatever was done to the store since its begin.
#[tactic(auto, using(crate::proofs::QueryLaws::next_block_is_new))]
pub fn next_block_is_new()
    ensures { NextBlockIsNew }
{}

/// A query's answer is that of its question over the table at its begin, whatever was done to the store since.
pub fn answers_the_begin()
    ensures { AnswersTheBegin }
{}
