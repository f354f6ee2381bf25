//! Asks: a term, the columns that group the rows, and how many of the best are wanted.
ghost use Rattle.std.specs.Prelude.{◌≡◌, ◌<◌, true, All, IfOk};
ghost use Rattle.pref_term.specs.Better.{in_same_group};

use crate::chain::{Chain, Leading, LeadingChains};
use crate::dominance::Dominance;
use crate::key::Key;
use crate::keys::{
    compare_by_keys, compare_in_chain, in_same_group, is_better_by_keys, is_product, keys_in_order,
    leading_keys,
};
use crate::relation::Relation;
use crate::signature::{Scales, scales_for};
use crate::term::Term;
use crate::walk::compare;
use pref_table::Row;
use std::alloc::{AllocError, Global};
use std::marker::Model;

/// How many of the best rows a question wants. A count is 1 to 1000.
#[derive(Clone, Copy, Debug, PartialEq, Eq)]
pub enum Mode {
    /// The first level: the rows that no row dominates (`best`, and the skyline clause).
    Best,
    /// The levels from 1 up to this one, in each group (`top_level`).
    TopLevel(u32),
    /// In each group the first levels that together hold this many rows or more, or all of its rows (`at_least`).
    AtLeast(u32),
}

/// A question, as [`read_ask`](crate::read_ask) reads it: the term that says which rows are better, the columns that group
/// the rows, how many of the best are wanted, and whether of equal rows one is kept. Contracts see these four, and asks
/// are equal (`==`) exactly where contracts see the same.
pub struct Ask {
    term: Term,
    // The keys that lead the term.
    keys: Vec<Key>,
    // Whether they are its whole order, without sets: a comparison goes over them then, and not over the term.
    flat: bool,
    // The chains that lead the term.
    chains: Vec<Chain>,
    // Of rows that are the same in these chains the better one has no greater one of these keys.
    behind: Vec<Key>,
    // The keys of the groups and of all base terms, in order and without repeats.
    in_order: Vec<Key>,
    group: Vec<usize>,
    mode: Mode,
    // Whether of equal rows one is kept.
    distinct: bool,
}

impl Model for Ask {
    ghost use Rattle.std.specs.Prelude.{◌≡◌, false};
    ghost use Rattle.pref_term.specs.Extension.{IsShortened, ask_keys};
    ghost use Rattle.pref_term.specs.Keys.{is_product, leading};
    ghost use Rattle.pref_term.specs.LeadingChains.{Leads};
    ghost use Rattle.pref_term.specs.Preference.{preference_of};
    ghost use Rattle.pref_term.specs.PreferenceCode.{coded_question};
    ghost use Rattle.pref_term.specs.Question.{Question, IsAsk};

    ghost Value = { Question };

    ghost coded = { coded_question };

    ghost view = { λ a. record { preference = preference_of a.term; group = a.group.items; mode = a.mode; distinct = a.distinct } };

    ghost invariant = { λ a. IsAsk (record { preference = preference_of a.term; group = a.group.items; mode = a.mode; distinct = a.distinct })
        × (a.keys.items ≡ leading (preference_of a.term) false) × (a.flat ≡ is_product (preference_of a.term))
        × Leads (record { preference = preference_of a.term; group = a.group.items; mode = a.mode; distinct = a.distinct }) a.chains.items a.behind.items
        × IsShortened (ask_keys (record { preference = preference_of a.term; group = a.group.items; mode = a.mode; distinct = a.distinct })) a.in_order.items };
}

// By hand, so that letting one go is a call: a derived `drop` is written out, and proved, at each way out of each function that owns one.
impl Drop for Ask {
    fn drop(self) {
        let Ask {
            term: _,
            keys: _,
            flat: _,
            chains: _,
            behind: _,
            in_order: _,
            group: _,
            mode: _,
            distinct: _,
        } = self;
    }
}

impl Ask {
    ghost use Rattle.std.specs.Prelude.{true};
    ghost use Rattle.pref_term.specs.AskOrder.{order_of};
    ghost use Rattle.pref_term.specs.Better.{better, same};
    ghost use Rattle.pref_term.specs.Chains.{by_chain};
    ghost use Rattle.pref_term.specs.Extension.{ask_keys};
    ghost use Rattle.pref_term.specs.LeadingChains.{Leads};
    ghost use Rattle.pref_term.specs.Order.{is_better, is_same, is_worse};
    ghost use Rattle.pref_term.specs.Preference.{preference_of};
    ghost use Rattle.pref_term.specs.Signatures.{Suit};
    ghost use Rattle.pref_term.specs.declared.relation.Relation.TheVariants.{Neither};
    ghost use Rattle.pref_term.specs.Question.{IsAsk, IsCount, FitsWidth, alike, cut_of};

    /// An ask of these parts. Takes memory for its keys and for the chains that lead it, once.
    pub(crate) fn new(
        alloc: Global,
        term: Term,
        group: Vec<usize>,
        mode: Mode,
        distinct: bool,
    ) -> Result<Ask, AllocError>
        requires { IsAsk (record { preference = preference_of term; group = group.items; mode = mode; distinct = distinct }) }
        ensures { IfOk result (λ ask. ask ≡ record { preference = preference_of term; group = group.items; mode = mode; distinct = distinct }) }
    {
        let keys = leading_keys(alloc, &term, false)?;
        let flat = is_product(&term);
        let LeadingChains { chains, behind, .. } = LeadingChains::of(alloc, &term, false)?;
        let in_order = keys_in_order(alloc, &group, &term)?;
        Ok(Ask {
            term,
            keys,
            flat,
            chains,
            behind,
            in_order,
            group,
            mode,
            distinct,
        })
    }

    /// A copy. Takes memory for all that it holds, and `Err` is out of memory.
    pub fn copy(&self, alloc: Global) -> Result<Ask, AllocError>
        ensures { IfOk result (λ copied. copied ≡ self.now) }
    {
        let term = self.term.copy(alloc)?;
        let group = self.group.clone()?;
        Ask::new(alloc, term, group, self.mode, self.distinct)
    }

    /// The term that says which of two rows is better. Its columns are below 16.
    pub fn term(&self) -> &Term
        ensures term { preference_of result.now ≡ self.now.preference }
        ensures columns { FitsWidth 16 self.now }
        // What holds of each ask, as the law of shown questions needs it.
        ensures known { IsAsk self.now }
    {
        &self.term
    }

    /// The columns that group the rows, which count from 0 and are below 16: rows that differ in one of them are never
    /// compared. None where all rows are one group.
    pub fn group(&self) -> &[usize]
        ensures columns { result.now ≡ self.now.group }
        ensures within { All (λ col. col < 16) result.now }
    {
        self.group.as_slice()
    }

    /// How many of the best rows are wanted.
    pub fn mode(&self) -> Mode
        ensures mode { result ≡ self.now.mode }
        ensures count { IsCount (cut_of result) }
    {
        self.mode
    }

    /// Whether of rows that are equal in all columns of a skyline clause one is kept, as its word `distinct` says.
    pub fn distinct(&self) -> bool
        ensures { result ≡ self.now.distinct }
    {
        self.distinct
    }

    /// How many levels of a partial result are enough to answer, 1 to 1000: one for [`Mode::Best`], else the count, since
    /// each level of a group that has rows left has one at least.
    pub fn cut(&self) -> u32
        ensures cut { result ≡ cut_of self.now.mode }
        ensures count { IsCount result }
    {
        match self.mode {
            Mode::Best => 1,
            Mode::TopLevel(k) | Mode::AtLeast(k) => k,
        }
    }

    /// The chains that lead the term: where their product sees a difference between two rows of a group, it decides between them. None where
    /// no product of chains leads it.
    ///
    /// `low(a) * low(b)` is a product of two chains. `low(a) & (low(b) * low(c))` is led by the chains `low(a) & low(b)` and
    /// `low(a) & low(c)`, and `(low(a) * low(b)) & low(c)` by `low(a)` and `low(b)`.
    pub fn leading(&self) -> Leading<'_>
        ensures { Leads self.now result.chains.now result.behind.now }
    {
        Leading {
            chains: self.chains.as_slice(),
            behind: self.behind.as_slice(),
        }
    }

    /// How the first row compares with the second one in the order of all keys: by the first column of the group in which the two differ,
    /// else by the first base term from left to right. A row that dominates another is better in it. The relation is never `Neither`, and
    /// `Same` just where the rows are of one group and the same to the question. Takes no memory.
    pub fn compare_in_order(&self, a: &Row, b: &Row) -> Relation
        ensures value { result ≡ by_chain (ask_keys self.now) a.now b.now }
        ensures decided { result ≡ Neither → ⊥ }
    {
        compare_in_chain(&self.in_order, a, b)
    }

    /// Scales by which rows like these are signed: a row that dominates another, or is its twin, has no bit that the other lacks. Good ones
    /// tell most rows apart. Takes memory for the list, and `Err` is out of memory.
    pub fn scales(&self, alloc: Global, sample: &[Row]) -> Result<Scales, AllocError>
        ensures { IfOk result (λ scales. Suit (order_of self.now) scales) }
    {
        scales_for(alloc, &self.keys, sample)
    }

    /// Compares two rows by the term alone. Inlined where rows are compared, since each of its two ways is a call of its own, with the
    /// registers that it needs and no more.
    #[inline(always)]
    #[tactic(auto, using(crate::proofs::KeyLaws::leading_law, crate::proofs::KeyLaws::leading_in_row, crate::proofs::KeyLaws::leading_numbers, crate::proofs::WalkLaws::walked_better, crate::proofs::WalkLaws::walked_worse, crate::proofs::WalkLaws::walked_same))]
    fn compare_in_group(&self, a: &Row, b: &Row) -> Relation
        ensures better { is_better result ≡ better self.now.preference a.now b.now }
        ensures worse { is_worse result ≡ better self.now.preference b.now a.now }
        ensures same { is_same result ≡ same self.now.preference a.now b.now }
    {
        if self.flat {
            compare_by_keys(&self.keys, a, b)
        } else {
            compare(&self.term, a, b)
        }
    }

    /// Whether two rows are of one group and the same by the term. A call of its own, since no more than a skyline clause with `distinct` asks it.
    #[inline(never)]
    fn are_alike(&self, a: &Row, b: &Row) -> bool
        ensures { result ≡ alike self.now a.now b.now }
    {
        in_same_group(&self.group, a, b) && self.compare_in_group(a, b).is_same()
    }

    /// Whether the first row is better by the term alone. Inlined as [`Ask::compare_in_group`] is.
    #[inline(always)]
    #[tactic(auto, using(crate::proofs::KeyLaws::leading_law, crate::proofs::KeyLaws::leading_in_row, crate::proofs::KeyLaws::leading_numbers, crate::proofs::WalkLaws::walked_better))]
    fn is_better_in_group(&self, a: &Row, b: &Row) -> bool
        ensures { result ≡ better self.now.preference a.now b.now }
    {
        if self.flat {
            is_better_by_keys(&self.keys, a, b)
        } else {
            compare(&self.term, a, b).is_better()
        }
    }
}

impl PartialEq for Ask {
    ghost use Rattle.std.specs.Cmp.{partial_equiv_from_equiv};
    ghost use Rattle.pref_term.specs.Equal.{question_eq};
    ghost use Rattle.pref_term.specs.EqualLaws.{questions_equal};

    ghost eq = { question_eq };

    ghost laws = { partial_equiv_from_equiv questions_equal };

    fn eq(&self, other: &Ask) -> bool {
        self.term == other.term
            && self.group == other.group
            && self.mode == other.mode
            && self.distinct == other.distinct
    }
}

impl Eq for Ask {
    ghost use Rattle.pref_term.specs.EqualLaws.{questions_equal};

    ghost laws = { questions_equal };
}

impl Dominance for Ask {
    ghost use Rattle.pref_term.specs.AskOrder.{order_of, order_of_is_row_order};
    ghost use Rattle.pref_term.specs.Order.{StandAlike, is_better, is_same, is_worse};
    ghost use Rattle.pref_term.specs.Question.{over, alike, twins};

    ghost order = { order_of };

    ghost laws = { order_of_is_row_order };

    #[inline(always)]
    fn over(&self, a: &Row, b: &Row) -> bool {
        in_same_group(&self.group, a, b) && self.is_better_in_group(a, b)
    }

    /// Whether of the two rows one is kept. What keeps one of equal rows is a skyline clause, where rows of
    /// a group that score alike are equal in each column.
    #[inline(always)]
    fn twin(&self, a: &Row, b: &Row) -> bool
        ensures { result ≡ twins self.now a.now b.now }
    {
        self.distinct && self.are_alike(a, b)
    }

    /// Compares the group's columns first. Rows of two groups are `Neither`.
    ///
    /// A product of base terms without sets is one loop over its keys, up to the first after which neither row can be better; another term
    /// is walked. Takes no memory.
    #[inline(always)]
    fn compare(&self, a: &Row, b: &Row) -> Relation
        ensures better { is_better result ≡ over self.now a.now b.now }
        ensures worse { is_worse result ≡ over self.now b.now a.now }
        ensures same { is_same result ≡ alike self.now a.now b.now }
        ensures stand_alike { is_same result ≡ true → StandAlike (over self.now) a.now b.now }
        ensures twins { twins self.now a.now b.now ≡ true → is_same result ≡ true }
        ensures twins_alike { is_same result ≡ true → StandAlike (twins self.now) a.now b.now }
    {
        if in_same_group(&self.group, a, b) {
            self.compare_in_group(a, b)
        } else {
            Relation::Neither
        }
    }

    fn question(&self) -> Option<&Ask> {
        Some(self)
    }
}
