//! When a row is better than another: one walk over a term for each pair of rows.
ghost use Rattle.std.specs.Prelude.{◌≡◌, pos};
ghost use Rattle.pref_term.specs.Better as better;
ghost use Rattle.pref_term.specs.Columns.{ReadsBelow};
ghost use Rattle.pref_term.specs.Order.{is_better, is_same, is_worse};
ghost use Rattle.pref_term.specs.Preference.{preference_of};
ghost use Rattle.pref_term.specs.Walk.{by_scores, in_priority, in_product, walked};

use crate::key::{by_member, by_sets, outside};
use crate::relation::Relation;
use crate::term::Term;
use pref_table::Row;

/// How the first row compares with the second one by a term.
///
/// One walk: each base term's scores are compared at most once. A product stops at a part that decides
/// for neither row, and a priority at its first part that sees a difference. Takes no memory.
///
/// ```rust
/// match compare(ask.term(), &hotel, &other) {
///     Relation::Better => println!(rt; "this one")?,     // this one
///     Relation::Worse => println!(rt; "the other")?,
///     Relation::Same | Relation::Neither => println!(rt; "look at both")?,
/// }
/// ```
#[must_use]
#[inline(never)]
#[tactic(auto, using(crate::proofs::WalkLaws::walked_better, crate::proofs::WalkLaws::walked_worse, crate::proofs::WalkLaws::walked_same))]
pub fn compare(term: &Term, a: &Row, b: &Row) -> Relation
    requires { ReadsBelow 16 (preference_of term.now) }
    ensures better { is_better result ≡ better.better (preference_of term.now) a.now b.now }
    ensures worse { is_worse result ≡ better.better (preference_of term.now) b.now a.now }
    ensures same { is_same result ≡ better.same (preference_of term.now) a.now b.now }
{
    walk(term, a, b)
}

/// Whether the first row is better by a term, whose columns have to be below 16. Takes no memory; costs one walk over the
/// term.
#[must_use]
pub fn better(term: &Term, a: &Row, b: &Row) -> bool
    requires { ReadsBelow 16 (preference_of term.now) }
    ensures { result ≡ better.better (preference_of term.now) a.now b.now }
{
    compare(term, a, b).is_better()
}

/// Whether the rows score alike in every base term of a term, whose columns have to be below 16. Takes no memory; costs one
/// walk over the term.
#[must_use]
pub fn same(term: &Term, a: &Row, b: &Row) -> bool
    requires { ReadsBelow 16 (preference_of term.now) }
    ensures { result ≡ better.same (preference_of term.now) a.now b.now }
{
    compare(term, a, b).is_same()
}

/// A base term is compared by its keys; composed ones walk their parts.
#[cycle(walk)]
#[inline(always)]
fn walk(term: &Term, a: &Row, b: &Row) -> Relation
    requires { ReadsBelow 16 (preference_of term.now) }
    ensures { result ≡ walked (preference_of term.now) a.now b.now }
{
    match term {
        Term::Low { col } => by_values(a.cell(*col), b.cell(*col)),
        Term::High { col } => by_values(b.cell(*col), a.cell(*col)),
        Term::Around { col, centre } => by_keys(
            outside(a.cell(*col), *centre, *centre),
            outside(b.cell(*col), *centre, *centre),
        ),
        Term::Between { col, left, right } => by_keys(
            outside(a.cell(*col), *left, *right),
            outside(b.cell(*col), *left, *right),
        ),
        Term::Pos { col, set } => by_member(a.cell(*col), b.cell(*col), set),
        Term::Layered { col, sets } => by_sets(sets.as_slice(), a.cell(*col), b.cell(*col)),
        Term::Pareto(p, q) => product(Relation::Same, p, q, a, b),
        Term::Prior(p, q) => priority(p, q, a, b),
        Term::Reverse(p) => converse(p, a, b),
    }
}

/// By the product of two terms, beside what the rest of a longer product says. The second term comes first, so that a product, which groups
/// to the left, is gone through part by part, and left where neither row can be better any more.
#[cycle(walk)]
#[inline(never)]
fn product(rest: Relation, p: &Term, q: &Term, a: &Row, b: &Row) -> Relation
    requires first { ReadsBelow 16 (preference_of p.now) }
    requires second { ReadsBelow 16 (preference_of q.now) }
    ensures { result ≡ in_product (in_product (walked (preference_of p.now) a.now b.now) (walked (preference_of q.now) a.now b.now)) rest }
{
    let rest = walk(q, a, b).in_product(rest);
    if rest.is_neither() {
        return rest;
    }
    match p {
        Term::Pareto(first, second) => product(rest, first, second, a, b),
        _ => walk(p, a, b).in_product(rest),
    }
}

/// By the first of two terms, and where it sees no difference by the second.
#[cycle(walk)]
#[inline(never)]
fn priority(p: &Term, q: &Term, a: &Row, b: &Row) -> Relation
    requires first { ReadsBelow 16 (preference_of p.now) }
    requires second { ReadsBelow 16 (preference_of q.now) }
    ensures { result ≡ in_priority (walked (preference_of p.now) a.now b.now) (walked (preference_of q.now) a.now b.now) }
{
    match walk(p, a, b) {
        Relation::Same => walk(q, a, b),
        decided => decided,
    }
}

/// By the converse of a term.
#[cycle(walk)]
#[inline(never)]
fn converse(p: &Term, a: &Row, b: &Row) -> Relation
    requires { ReadsBelow 16 (preference_of p.now) }
    ensures { result ≡ walked (preference_of p.now) b.now a.now }
{
    walk(p, b, a)
}

/// The smaller value is better.
#[inline(always)]
fn by_values(a: i64, b: i64) -> Relation
    ensures { result ≡ by_scores a b }
{
    Relation::by_sides(a < b, b < a)
}

/// The smaller key is better.
#[inline(always)]
fn by_keys(a: u64, b: u64) -> Relation
    ensures { result ≡ by_scores (pos a) (pos b) }
{
    Relation::by_sides(a < b, b < a)
}
