//! A question's order of entries, the order in which they are kept, and the cut of their levels.

ghost use Rattle.std.specs.Prelude.{◌≡◌, true, IfOk, IfSome};
ghost use Rattle.std.specs.Ordering.{is_gt, is_lt};

use crate::entry::{Entry, is_over};
use pref_term::{Ask, Dominance, Relation};
use std::alloc::{AllocError, Global};
use std::cmp::Ordering;

/// A copy of a question, whose order compares entries, and how many of their levels are asked for.
#[derive(Drop)]
pub(crate) struct OwnOrder {
    pub(crate) ask: Ask,
    pub(crate) cut: u32,
}

impl OwnOrder {
    // Here, since what the file names at its top may not name the struct.
    ghost use Rattle.pref_sky.specs.OwnOrders.{AreSorted, comes_before, own_order};
    ghost use Rattle.pref_term.specs.AskOrder.{order_of};

    /// A copy of the question whose order this is; `None` where it is none. Takes memory for the copy, and `Err` is out of memory.
    pub(crate) fn of<D: Dominance>(
        alloc: Global,
        dominance: &D,
        cut: u32,
    ) -> Result<Option<OwnOrder>, AllocError>
        ensures { IfOk result (λ found. IfSome found (λ order. (D.order dominance.now ≡ order_of order.ask) × (order.cut ≡ cut))) }
    {
        match dominance.question() {
            Some(ask) => Ok(Some(OwnOrder {
                ask: ask.copy(alloc)?,
                cut,
            })),
            None => Ok(None),
        }
    }

    /// Whether it is the question whose order this is, with this cut. Takes no memory.
    #[tactic(auto, using(pref_term::specs::EqualLaws::questions_Decides))]
    pub(crate) fn is_of<D: Dominance>(&self, dominance: &D, cut: u32) -> bool
        ensures { result ≡ true → (D.order dominance.now ≡ order_of self.now.ask) × (self.now.cut ≡ cut) }
    {
        match dominance.question() {
            Some(ask) => self.cut == cut && self.ask == *ask,
            None => false,
        }
    }

    /// Which of two entries stands first: by the question's keys from left to right, and then by id. Takes no memory.
    #[tactic(auto, using(pref_term::proofs::ExtensionLaws::chain_back, crate::proofs::ChainLaws::same_in))]
    pub(crate) fn compare(&self, a: &Entry, b: &Entry) -> Ordering
        ensures less { is_lt result ≡ comes_before self.now a.now b.now }
        ensures greater { is_gt result ≡ comes_before self.now b.now a.now }
    {
        match self.ask.compare_in_order(&a.row, &b.row) {
            Relation::Better => Ordering::Less,
            Relation::Worse => Ordering::Greater,
            Relation::Same | Relation::Neither => a.id.cmp(&b.id),
        }
    }

    /// Whether an entry dominates another. Takes no memory.
    #[inline(always)]
    pub(crate) fn is_over(&self, a: &Entry, b: &Entry) -> bool
        ensures { result ≡ own_order self.now a.now b.now }
    {
        is_over(&self.ask, a, b)
    }
}
