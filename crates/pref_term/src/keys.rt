//! The keys that lead a term, and the order of a term whose leading keys are all that it has: a product of base terms without sets and of
//! their converses.
ghost use Rattle.std.specs.Prelude.{◌≡◌, ◌<◌, ◌++◌, [], ◌∷◌, false, true, All, Contains, List, ℤ, IfOk, OnOk};
ghost use Rattle.pref_term.specs.Better.{in_same_group};
ghost use Rattle.pref_term.specs.Chains.{AreInRow, by_chain};
ghost use Rattle.pref_term.specs.Extension.{IsShortened, all_keys, group_keys};
ghost use Rattle.pref_term.specs.Keys.{by_key, by_keys, is_number, is_product, leading};
ghost use Rattle.pref_term.specs.Order.{is_better, is_same};
ghost use Rattle.pref_term.specs.Preference.{preference_of};
ghost use Rattle.pref_term.specs.declared.relation.Relation.TheVariants.{Neither};

use crate::key::{Key, Score};
use crate::relation::Relation;
use crate::term::{NumberSets, Term};
use pref_table::Row;
use std::alloc::{AllocError, Global};

/// The keys that lead a term: those of each part of a product, and of a priority those of its first part. No better row has a greater
/// one. Takes memory for the list and for the sets, once.
pub(crate) fn leading_keys(alloc: Global, term: &Term, turned: bool) -> Result<Vec<Key>, AllocError>
    ensures { IfOk result (λ keys. keys.items ≡ leading (preference_of term.now) turned) }
{
    let mut keys = Vec::new(alloc);
    push_leading(alloc, &mut keys, term, turned)?;
    Ok(keys)
}

/// Puts a key behind these.
fn push_key(keys: &mut Vec<Key>, col: usize, score: Score, turned: bool) -> Result<(), AllocError>
    ensures { OnOk result (keys.new.items ≡ keys.old.items ++ record { col = col; score = score; turned = turned } ∷ []) }
{
    keys.push(Key { col, score, turned })?;
    Ok(())
}

/// Puts the keys that lead a term behind these, or those that lead its converse.
pub(crate) fn push_leading(
    alloc: Global,
    keys: &mut Vec<Key>,
    term: &Term,
    turned: bool,
) -> Result<(), AllocError>
    ensures { OnOk result (keys.new.items ≡ keys.old.items ++ leading (preference_of term.now) turned) }
{
    match term {
        Term::Low { col } => push_key(keys, *col, Score::Value, turned),
        Term::High { col } => push_key(keys, *col, Score::Value, !turned),
        Term::Around { col, centre } => push_key(
            keys,
            *col,
            Score::distance(*centre, *centre),
            turned,
        ),
        Term::Between { col, left, right } => {
            push_key(keys, *col, Score::distance(*left, *right), turned)
        }
        Term::Pos { col, set } => {
            push_key(
                keys,
                *col,
                Score::Sets(NumberSets::one(alloc, set)?),
                turned,
            )
        }
        Term::Layered { col, sets } => {
            push_key(keys, *col, Score::Sets(sets.copy(alloc)?), turned)
        }
        Term::Pareto(p, q) => {
            push_leading(alloc, keys, p, turned)?;
            push_leading(alloc, keys, q, turned)
        }
        Term::Prior(p, _) => push_leading(alloc, keys, p, turned),
        Term::Reverse(p) => push_leading(alloc, keys, p, !turned),
    }
}

/// Puts all keys of a term behind these, or those of its converse.
pub(crate) fn push_all(
    alloc: Global,
    keys: &mut Vec<Key>,
    term: &Term,
    turned: bool,
) -> Result<(), AllocError>
    ensures { OnOk result (keys.new.items ≡ keys.old.items ++ all_keys (preference_of term.now) turned) }
{
    match term {
        Term::Pareto(p, q) | Term::Prior(p, q) => {
            push_all(alloc, keys, p, turned)?;
            push_all(alloc, keys, q, turned)
        }
        Term::Reverse(p) => push_all(alloc, keys, p, !turned),
        _ => push_leading(alloc, keys, term, turned),
    }
}

/// Puts copies of these keys behind others.
pub(crate) fn push_copies(
    alloc: Global,
    keys: &mut Vec<Key>,
    others: &[Key],
) -> Result<(), AllocError>
    ensures { OnOk result (keys.new.items ≡ keys.old.items ++ others.now) }
{
    for other in others {
        keys.push(other.copy(alloc)?)?;
    }
    Ok(())
}

/// A key for each of these columns, where smaller values come first.
fn group_keys(alloc: Global, columns: &[usize]) -> Result<Vec<Key>, AllocError>
    ensures { IfOk result (λ keys. keys.items ≡ group_keys columns.now) }
{
    let mut keys = Vec::new(alloc);
    for col in columns {
        keys.push(Key::of_column(*col))?;
    }
    Ok(keys)
}

/// Whether one of the keys scores the same column alike, in either direction: so this one sees no difference between rows that are the same
/// in all of them.
fn is_ranked(keys: &[Key], key: &Key) -> bool
    ensures { result ≡ true → (a b : List ℤ) → is_same (by_chain keys.now a b) ≡ true → is_same (by_key key.now a b) ≡ true }
{
    for before in keys {
        if before.ranks_as(key) {
            return true;
        }
    }
    false
}

/// The keys without those that see no difference where the ones before them see none.
fn without_repeats(alloc: Global, keys: Vec<Key>) -> Result<Vec<Key>, AllocError>
    ensures { IfOk result (λ kept. IsShortened keys.items kept.items) }
{
    let mut kept = Vec::new(alloc);
    for key in keys {
        if !is_ranked(&kept, &key) {
            kept.push(key)?;
        }
    }
    Ok(kept)
}

/// The keys of a question with this term in the groups of these columns, without repeats: what dominates a row is better in the first of
/// them in which the two differ. Takes memory for the lists and for the sets.
pub(crate) fn keys_in_order(
    alloc: Global,
    group: &[usize],
    term: &Term,
) -> Result<Vec<Key>, AllocError>
    ensures { IfOk result (λ keys. IsShortened (group_keys group.now ++ all_keys (preference_of term.now) false) keys.items) }
{
    let mut keys = group_keys(alloc, group)?;
    push_all(alloc, &mut keys, term, false)?;
    without_repeats(alloc, keys)
}

/// Whether the term has no priority in it, so that its leading keys are its whole order, and no sets. A product with sets is walked: its
/// search would take each other product the registers that its loop needs.
pub(crate) fn is_product(term: &Term) -> bool
    ensures { result ≡ is_product (preference_of term.now) }
{
    match term {
        Term::Pareto(p, q) => is_product(p) && is_product(q),
        Term::Reverse(p) => is_product(p),
        Term::Pos { .. } | Term::Layered { .. } | Term::Prior(..) => false,
        _ => true,
    }
}

/// Whether two rows have equal cells in each of these columns, which count from 0 and have to be below 16. Takes no memory.
#[inline(always)]
pub fn in_same_group(columns: &[usize], a: &Row, b: &Row) -> bool
    requires { All (λ col. col < 16) columns.now }
    ensures { result ≡ in_same_group columns.now a.now b.now }
{
    for col in columns {
        if a.cell(*col) != b.cell(*col) {
            return false;
        }
    }
    true
}

/// How the first row compares with the second one by the product of these keys, none of which has sets.
///
/// One loop, which stops at the first key after which neither row can be better. Takes no memory.
#[inline(never)]
pub(crate) fn compare_by_keys(keys: &[Key], a: &Row, b: &Row) -> Relation
    requires columns { All (λ key. key.col < 16) keys.now }
    requires numbers { All (λ key. is_number key.score ≡ true) keys.now }
    ensures { result ≡ by_keys keys.now a.now b.now }
{
    let mut better = false;
    let mut worse = false;
    for key in keys {
        let (first, second) = key.sides_by_number(a, b);
        better |= first;
        worse |= second;
        if better && worse {
            return Relation::Neither;
        }
    }
    Relation::by_sides(better, worse)
}

/// Whether the first row is better than the second one by the product of these keys, none of which has sets.
///
/// One loop, which stops at the first key by which the second row is better. Takes no memory.
#[inline(never)]
pub(crate) fn is_better_by_keys(keys: &[Key], a: &Row, b: &Row) -> bool
    requires columns { All (λ key. key.col < 16) keys.now }
    requires numbers { All (λ key. is_number key.score ≡ true) keys.now }
    ensures { result ≡ is_better (by_keys keys.now a.now b.now) }
{
    let mut better = false;
    for key in keys {
        let (is_better, is_worse) = key.sides_by_number(a, b);
        if is_worse {
            return false;
        }
        better |= is_better;
    }
    better
}

/// By the first of these keys in which the rows differ. Takes no memory.
pub(crate) fn compare_in_chain(keys: &[Key], a: &Row, b: &Row) -> Relation
    requires { AreInRow keys.now }
    ensures value { result ≡ by_chain keys.now a.now b.now }
    ensures decided { result ≡ Neither → ⊥ }
{
    for key in keys {
        match key.compare(a, b) {
            Relation::Same => {}
            decided => return decided,
        }
    }
    Relation::Same
}
