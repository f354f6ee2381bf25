//! Chains, and the product of chains that leads a term.
ghost use Rattle.std.specs.Prelude.{◌≡◌, ◌++◌, [], ◌∷◌, ◌==◌, false, true, All, Bool, Contains, IfOk, OnOk, length};
ghost use Rattle.pref_term.specs.Chains.{AreInRow, by_chain, is_chain};
ghost use Rattle.pref_term.specs.Extension.{all_keys};
ghost use Rattle.pref_term.specs.LeadingChains.{AreBoth, IsLedBy, each_behind};
ghost use Rattle.pref_term.specs.Preference.{Preference, pareto, preference_of, prior};
ghost use Rattle.pref_term.specs.Signatures.{IsBy};
ghost use Rattle.pref_term.specs.declared.relation.Relation.TheVariants.{Neither};

use crate::key::Key;
use crate::keys::{compare_in_chain, leading_keys, push_all, push_copies};
use crate::relation::Relation;
use crate::signature::{Scales, scales_for};
use crate::term::Term;
use pref_table::Row;
use std::alloc::{AllocError, Global};
use std::marker::Model;

/// The most chains that one chain is put before: the product of more leads no sweep of pref_sky, which has the same number.
const MAX_CHAINS: usize = 3;

/// A chain: a list of keys, numbers without sign that each row has and of which less is better. The first key in which two
/// rows differ decides between them. Contracts see the list.
#[derive(Drop)]
pub struct Chain {
    keys: Vec<Key>,
}

impl Model for Chain {
    ghost use Rattle.std.specs.Prelude.{List};
    ghost use Rattle.pref_term.specs.declared.key.Key.{Key};

    ghost Value = { List Key };

    ghost view = { λ chain. chain.keys.items };
}

impl Chain {
    /// How the first row compares with the second one, which is never `Neither`. Takes no memory.
    pub fn compare(&self, a: &Row, b: &Row) -> Relation
        requires { AreInRow self.now }
        ensures value { result ≡ by_chain self.now a.now b.now }
        ensures decided { result ≡ Neither → ⊥ }
    {
        compare_in_chain(&self.keys, a, b)
    }

    /// All keys of a term as one chain, or of its converse.
    fn of(alloc: Global, term: &Term, turned: bool) -> Result<Chain, AllocError>
        ensures { IfOk result (λ chain. chain ≡ all_keys (preference_of term.now) turned) }
    {
        let mut keys = Vec::new(alloc);
        push_all(alloc, &mut keys, term, turned)?;
        Ok(Chain { keys })
    }

    /// These keys, and behind them its own.
    fn with_prefix(&self, alloc: Global, before: &[Key]) -> Result<Chain, AllocError>
        ensures { IfOk result (λ chain. chain ≡ before.now ++ self.now) }
    {
        let mut keys = Vec::new(alloc);
        push_copies(alloc, &mut keys, before)?;
        push_copies(alloc, &mut keys, &self.keys)?;
        Ok(Chain { keys })
    }
}

/// What leads a question: the product of some chains, and keys that count where rows are the same in it.
///
/// Of such rows the better one, or the same, has no greater one of these keys.
#[derive(Clone, Copy)]
pub struct Leading<'a> {
    /// The chains. Where their product sees a difference between two rows of a group, it decides.
    pub chains: &'a [Chain],
    pub(crate) behind: &'a [Key],
}

impl Leading<'_> {
    /// Whether no key counts where rows are the same in these chains. Their product is then all that the term says of two rows (`Leads`,
    /// `alone`).
    pub fn decides_alone(&self) -> bool
        ensures { result ≡ (length self.now.behind.now == 0) }
    {
        self.behind.is_empty()
    }

    /// Scales by the keys that are behind the chains, for rows like these. Takes memory for the list, and `Err` is out of memory.
    pub fn scales(&self, alloc: Global, sample: &[Row]) -> Result<Scales, AllocError>
        requires { AreInRow self.now.behind.now }
        ensures { IfOk result (λ scales. All (IsBy self.now.behind.now) scales) }
    {
        scales_for(alloc, self.behind, sample)
    }
}

/// Whether they are the same keys in the same order.
fn are_same(keys: &[Key], others: &[Key]) -> bool
    ensures { result ≡ true → keys.now ≡ others.now }
{
    keys == others
}

/// Whether this is one of the chains.
fn contains(chains: &[Chain], chain: &Chain) -> bool
    ensures { result ≡ true → Contains chains.now chain.now }
{
    for other in chains {
        if are_same(&other.keys, &chain.keys) {
            return true;
        }
    }
    false
}

/// Puts those of some chains behind others that are not there already.
fn push_others(chains: &mut Vec<Chain>, others: Vec<Chain>) -> Result<(), AllocError>
    ensures { OnOk result (AreBoth chains.old.items others.items chains.new.items) }
{
    for other in others {
        if !contains(chains, &other) {
            chains.push(other)?;
        }
    }
    Ok(())
}

/// This chain before each of the others; alone where there is none.
fn each_behind(alloc: Global, first: Chain, chains: &[Chain]) -> Result<Vec<Chain>, AllocError>
    ensures { IfOk result (λ found. found.items ≡ each_behind first chains.now) }
{
    let mut found = Vec::new(alloc);
    for chain in chains {
        found.push(chain.with_prefix(alloc, &first.keys)?)?;
    }
    if found.is_empty() {
        found.push(first)?;
    }
    Ok(found)
}

/// Whether the term has no product in it, so that all its keys are one chain.
fn is_chain(term: &Term) -> bool
    ensures { result ≡ is_chain (preference_of term.now) }
{
    match term {
        Term::Pareto(..) => false,
        Term::Prior(p, q) => is_chain(p) && is_chain(q),
        Term::Reverse(p) => is_chain(p),
        _ => true,
    }
}

/// The chains that lead a term: where their product sees a difference between two rows, it decides.
#[derive(Drop)]
pub(crate) struct LeadingChains {
    pub(crate) chains: Vec<Chain>,
    // Of rows that are the same in these chains the better one has no greater one of these keys.
    pub(crate) behind: Vec<Key>,
    // Whether their product is all that the term says.
    is_whole: bool,
}

impl LeadingChains {
    /// No chain: behind none are the keys that lead the term, or its converse.
    #[tactic(auto, using(crate::proofs::LeadingLaws::none_leads))]
    fn none(alloc: Global, term: &Term, turned: bool) -> Result<LeadingChains, AllocError>
        ensures { IfOk result (λ lead. IsLedBy (preference_of term.now) turned lead.chains.items lead.behind.items lead.is_whole) }
    {
        Ok(LeadingChains {
            chains: Vec::new(alloc),
            behind: leading_keys(alloc, term, turned)?,
            is_whole: false,
        })
    }

    /// All keys of a term that is a chain: this chain is all that it says.
    #[tactic(auto, using(crate::proofs::LeadingLaws::one_leads))]
    fn one(alloc: Global, term: &Term, turned: bool) -> Result<LeadingChains, AllocError>
        ensures { IfOk result (λ lead. is_chain (preference_of term.now) ≡ true
            → IsLedBy (preference_of term.now) turned lead.chains.items lead.behind.items lead.is_whole) }
    {
        let mut chains = Vec::new(alloc);
        chains.push(Chain::of(alloc, term, turned)?)?;
        Ok(LeadingChains {
            chains,
            behind: Vec::new(alloc),
            is_whole: true,
        })
    }

    /// The chains of a product of two terms in one, where those of each are the whole.
    #[tactic(auto, using(crate::proofs::LeadingLaws::both_lead))]
    fn product(
        alloc: Global,
        term: &Term,
        turned: bool,
        first: LeadingChains,
        second: LeadingChains,
    ) -> Result<LeadingChains, AllocError>
        ensures { IfOk result (λ lead. (p q : Preference) → preference_of term.now ≡ pareto p q → IsLedBy p turned first.chains.items first.behind.items first.is_whole
            → IsLedBy q turned second.chains.items second.behind.items second.is_whole → IsLedBy (preference_of term.now) turned lead.chains.items lead.behind.items lead.is_whole) }
    {
        if !first.is_whole || !second.is_whole {
            return LeadingChains::none(alloc, term, turned);
        }
        let mut chains = first.chains;
        push_others(&mut chains, second.chains)?;
        Ok(LeadingChains {
            chains,
            behind: Vec::new(alloc),
            is_whole: true,
        })
    }

    /// These chains, or none where they are many.
    fn few(self, alloc: Global, term: &Term, turned: bool) -> Result<LeadingChains, AllocError>
        ensures { IfOk result (λ lead. IsLedBy (preference_of term.now) turned self.chains.items self.behind.items self.is_whole
            → IsLedBy (preference_of term.now) turned lead.chains.items lead.behind.items lead.is_whole) }
    {
        if self.chains.len() > MAX_CHAINS {
            return LeadingChains::none(alloc, term, turned);
        }
        Ok(self)
    }

    /// The first part of a priority, where it is a chain, before each of these, which lead the second part, or before none of many.
    #[tactic(auto, using(crate::proofs::LeadingLaws::behind_leads))]
    fn with_prefix(
        self,
        alloc: Global,
        first: &Term,
        term: &Term,
        turned: bool,
    ) -> Result<LeadingChains, AllocError>
        ensures { IfOk result (λ lead. is_chain (preference_of first.now) ≡ true → IsLedBy (preference_of term.now) turned self.chains.items self.behind.items self.is_whole
            → IsLedBy (prior (preference_of first.now) (preference_of term.now)) turned lead.chains.items lead.behind.items lead.is_whole) }
    {
        let second = self.few(alloc, term, turned)?;
        let chain = Chain::of(alloc, first, turned)?;
        let chains = each_behind(alloc, chain, &second.chains)?;
        Ok(LeadingChains {
            chains,
            behind: second.behind,
            is_whole: second.is_whole,
        })
    }

    /// The chains that lead the first part of a priority lead all of it. Where they are the whole of it, the second part is behind them.
    fn before(self, alloc: Global, second: &Term, turned: bool) -> Result<LeadingChains, AllocError>
        ensures { IfOk result (λ lead. (p : Preference) → IsLedBy p turned self.chains.items self.behind.items self.is_whole
            → IsLedBy (prior p (preference_of second.now)) turned lead.chains.items lead.behind.items lead.is_whole) }
    {
        let LeadingChains {
            chains,
            behind,
            is_whole,
        } = self;
        let behind = if is_whole {
            leading_keys(alloc, second, turned)?
        } else {
            behind
        };
        Ok(LeadingChains {
            chains,
            behind,
            is_whole: false,
        })
    }

    /// The chains that lead a term, or its converse. Takes memory for their lists of keys, and for the sets.
    pub(crate) fn of(alloc: Global, term: &Term, turned: bool) -> Result<LeadingChains, AllocError>
        ensures { IfOk result (λ lead. IsLedBy (preference_of term.now) turned lead.chains.items lead.behind.items lead.is_whole) }
    {
        if is_chain(term) {
            return LeadingChains::one(alloc, term, turned);
        }
        match term {
            Term::Pareto(p, q) => {
                let first = LeadingChains::of(alloc, p, turned)?;
                let second = LeadingChains::of(alloc, q, turned)?;
                LeadingChains::product(alloc, term, turned, first, second)
            }
            Term::Prior(p, q) => {
                if is_chain(p) {
                    return LeadingChains::of(alloc, q, turned)?.with_prefix(alloc, p, q, turned);
                }
                LeadingChains::of(alloc, p, turned)?.before(alloc, q, turned)
            }
            Term::Reverse(p) => LeadingChains::of(alloc, p, !turned),
            _ => LeadingChains::none(alloc, term, turned),
        }
    }
}
