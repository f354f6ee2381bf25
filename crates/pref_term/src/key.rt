//! Keys: a number without sign for each row, by which a base term or its converse ranks rows. Less is better.
ghost use Rattle.std.specs.Prelude.{◌≡◌, ◌<◌, ◌+ℤ◌, ◌-ℤ◌, ◌^◌, IfOk, List, ℤ, false, pos, true};
ghost use Rattle.std.specs.List.{list_any};
ghost use Rattle.std.specs.Ordering.{int_eq};
ghost use Rattle.pref_term.specs.Better.{missed, outside, sets_before};
ghost use Rattle.pref_term.specs.Keys.{by_key, from_zero, is_number, key_for, keyed};
ghost use Rattle.pref_term.specs.Order.{is_same};
ghost use Rattle.pref_term.specs.Preference.{low};
ghost use Rattle.pref_term.specs.Walk.{by_scores, by_sides};

use crate::relation::Relation;
use crate::term::{NumberSets, Numbers};
use pref_table::Row;
use std::alloc::{AllocError, Global};

/// How a value is scored. Less is better.
#[derive(Drop, PartialEq)]
pub(crate) enum Score {
    /// As it is.
    Value,
    /// By how far it lies outside the range.
    Distance { left: i64, right: i64 },
    /// By how many sets come before the first that holds it.
    Sets(NumberSets),
}

/// A base term, or its converse: the column, how its values are scored, and whether higher scores are better. A column counts from 0, and
/// is below 16.
#[derive(Drop, PartialEq)]
pub(crate) struct Key {
    pub(crate) col: usize,
    pub(crate) score: Score,
    pub(crate) turned: bool,
}

/// The value in the same order, from 0 on.
#[inline(always)]
fn from_zero(value: i64) -> u64
    ensures { pos result ≡ (value +ℤ pos (2 ^ 63)) }
{
    value.abs_diff(i64::MIN)
}

/// How far the value lies outside the range: at most 2^64 - 1, and nothing within it.
#[inline(always)]
pub(crate) fn outside(value: i64, left: i64, right: i64) -> u64
    ensures { pos result ≡ outside left right value }
{
    if value < left {
        left.abs_diff(value)
    } else if right < value {
        value.abs_diff(right)
    } else {
        0
    }
}

/// How many sets come before the first that holds the value; all, where none does.
#[inline(never)]
pub(crate) fn sets_before(sets: &[Numbers], value: i64) -> usize
    ensures { result ≡ sets_before sets.now value }
{
    sets.iter()
        .position(|set| is_member(set, value))
        .unwrap_or(sets.len())
}

/// A value in the set is better than one outside it.
#[inline(never)]
pub(crate) fn by_member(a: i64, b: i64, set: &Numbers) -> Relation
    ensures { result ≡ by_scores (missed set.now a) (missed set.now b) }
{
    match (is_member(set, a), is_member(set, b)) {
        (true, false) => Relation::Better,
        (false, true) => Relation::Worse,
        _ => Relation::Same,
    }
}

/// A value in an earlier set is better than one in a later set, or in none: the first set that holds one of them decides.
#[inline(never)]
pub(crate) fn by_sets(sets: &[Numbers], a: i64, b: i64) -> Relation
    ensures { result ≡ by_scores (pos (sets_before sets.now a)) (pos (sets_before sets.now b)) }
{
    let first = sets
        .iter()
        .find(|set| is_member(set, a) || is_member(set, b));
    match first {
        Some(set) => by_member(a, b, set),
        None => Relation::Same,
    }
}

pub(crate) fn is_member(set: &Numbers, value: i64) -> bool
    ensures { result ≡ list_any (int_eq value) set.now }
{
    set.as_slice().contains(&value)
}

impl Score {
    /// By how far a value lies outside the range.
    pub(crate) fn distance(left: i64, right: i64) -> Score
        ensures { result ≡ Score.Distance left right }
    {
        Score::Distance { left, right }
    }

    /// The score of a value, from 0 on.
    #[inline(always)]
    fn of(&self, value: i64) -> u64
        ensures { pos result ≡ from_zero self.now value }
    {
        match self {
            Score::Value => from_zero(value),
            Score::Distance { left, right } => outside(value, *left, *right),
            Score::Sets(sets) => sets_before(sets.as_slice(), value) as u64,
        }
    }

    /// A copy. Takes memory for its sets.
    fn copy(&self, alloc: Global) -> Result<Score, AllocError>
        ensures { IfOk result (λ copied. copied ≡ self.now) }
    {
        match self {
            Score::Value => Ok(Score::Value),
            Score::Distance { left, right } => Ok(Score::Distance {
                left: *left,
                right: *right,
            }),
            Score::Sets(sets) => Ok(Score::Sets(sets.copy(alloc)?)),
        }
    }
}

impl Key {
    /// The values of a column, where smaller ones are better.
    pub(crate) fn of_column(col: usize) -> Key
        ensures { result ≡ key_for (low col) false }
    {
        Key {
            col,
            score: Score::Value,
            turned: false,
        }
    }

    /// The key of a row.
    #[inline(always)]
    pub(crate) fn of(&self, row: &Row) -> u64
        requires { self.now.col < 16 }
        ensures { pos result ≡ keyed self.now row.now }
    {
        let score = self.score.of(row.cell(self.col));
        if self.turned { u64::MAX - score } else { score }
    }

    /// The key of a row less 2^63, where values are compared as they are.
    #[inline(always)]
    fn signed_key(&self, row: &Row) -> i64
        requires column { self.now.col < 16 }
        requires value { self.now.score ≡ Score.Value }
        ensures { result ≡ (keyed self.now row.now -ℤ pos (2 ^ 63)) }
    {
        let value = row.cell(self.col);
        if self.turned { -1 - value } else { value }
    }

    /// Whether the first row is better and whether the second is, where values are compared as they are.
    #[inline(always)]
    fn sides_by_value(&self, a: &Row, b: &Row) -> (bool, bool)
        requires column { self.now.col < 16 }
        requires value { self.now.score ≡ Score.Value }
        ensures { by_sides result.0 result.1 ≡ by_key self.now a.now b.now }
    {
        let first = self.signed_key(a);
        let second = self.signed_key(b);
        (first < second, second < first)
    }

    /// Whether the first row is better and whether the second is, where there are no sets.
    #[inline(always)]
    pub(crate) fn sides_by_number(&self, a: &Row, b: &Row) -> (bool, bool)
        requires column { self.now.col < 16 }
        requires number { is_number self.now.score ≡ true }
        ensures { by_sides result.0 result.1 ≡ by_key self.now a.now b.now }
    {
        match self.score {
            Score::Value => self.sides_by_value(a, b),
            Score::Distance { .. } => self.sides_by_key(a, b),
            Score::Sets(_) => unreachable!(),
        }
    }

    /// Whether the first row is better and whether the second is, by their keys. Equal cells have the same key, which is not computed then.
    #[inline(always)]
    fn sides_by_key(&self, a: &Row, b: &Row) -> (bool, bool)
        requires { self.now.col < 16 }
        ensures { by_sides result.0 result.1 ≡ by_key self.now a.now b.now }
    {
        if a.cell(self.col) == b.cell(self.col) {
            return (false, false);
        }
        let first = self.of(a);
        let second = self.of(b);
        (first < second, second < first)
    }

    /// How the first row compares with the second one.
    #[inline(always)]
    pub(crate) fn compare(&self, a: &Row, b: &Row) -> Relation
        requires { self.now.col < 16 }
        ensures { result ≡ by_key self.now a.now b.now }
    {
        let (better, worse) = match &self.score {
            Score::Value => self.sides_by_value(a, b),
            Score::Distance { .. } => self.sides_by_key(a, b),
            Score::Sets(sets) => return self.by_sets(sets, a, b),
        };
        Relation::by_sides(better, worse)
    }

    /// How the first row compares with the second one, where values are scored by these sets. Equal cells are looked for in none.
    #[inline(always)]
    fn by_sets(&self, sets: &NumberSets, a: &Row, b: &Row) -> Relation
        requires column { self.now.col < 16 }
        requires sets { self.now.score ≡ Score.Sets sets.now }
        ensures { result ≡ by_key self.now a.now b.now }
    {
        let (first, second) = (a.cell(self.col), b.cell(self.col));
        if first == second {
            return Relation::Same;
        }
        if self.turned {
            by_sets(sets.as_slice(), second, first)
        } else {
            by_sets(sets.as_slice(), first, second)
        }
    }

    /// Whether both score the same column alike, in either direction.
    pub(crate) fn ranks_as(&self, other: &Key) -> bool
        ensures { result ≡ true → (a b : List ℤ) → is_same (by_key self.now a b) ≡ is_same (by_key other.now a b) }
    {
        self.col == other.col && self.score == other.score
    }

    /// A copy of the key. Takes memory for its sets.
    pub(crate) fn copy(&self, alloc: Global) -> Result<Key, AllocError>
        ensures { IfOk result (λ copied. copied ≡ self.now) }
    {
        Ok(Key {
            col: self.col,
            score: self.score.copy(alloc)?,
            turned: self.turned,
        })
    }
}
