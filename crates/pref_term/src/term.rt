//! Preference terms, as the rPref manual has them.
ghost use Rattle.std.specs.Prelude.{◌≡◌, IfOk, List, ℤ, [], ◌∷◌};
ghost use Rattle.std.specs.Cmp.Lexicographic.{pointwise};
ghost use Rattle.std.specs.Cmp.Rules.{comparing};
ghost use Rattle.std.specs.Ordering.{int_eq};
ghost use Rattle.std.proofs.Common.{rules};

use std::alloc::{AllocError, Global};
use std::marker::Model;

/// The numbers of a set, in the order in which they were given. Contracts see the list of them.
#[derive(Drop)]
pub struct Numbers {
    numbers: Vec<i64>,
}

impl Model for Numbers {
    ghost Value = { List ℤ };

    ghost view = { λ n. n.numbers.items };
}

impl Numbers {
    /// These numbers, as they are. Takes no memory.
    pub fn of(numbers: Vec<i64>) -> Numbers
        ensures { result ≡ numbers.items }
    {
        Numbers { numbers }
    }

    /// The numbers, in the order in which they were given.
    pub fn as_slice(&self) -> &[i64]
        ensures { result.now ≡ self.now }
    {
        self.numbers.as_slice()
    }

    /// A copy, which takes memory for its list.
    fn copy(&self) -> Result<Numbers, AllocError>
        ensures { IfOk result (λ copied. copied ≡ self.now) }
    {
        Ok(Numbers::of(self.numbers.clone()?))
    }
}

impl PartialEq for Numbers {
    ghost eq = { pointwise int_eq };

    ghost laws = { Prim.search (comparing, rules) };

    fn eq(&self, other: &Numbers) -> bool {
        self.as_slice() == other.as_slice()
    }
}

impl Eq for Numbers {
    ghost laws = { Prim.search (comparing, rules) };
}

/// Sets of numbers, in the order in which they were given. Contracts see the list of their lists.
#[derive(Drop)]
pub struct NumberSets {
    sets: Vec<Numbers>,
}

impl Model for NumberSets {
    ghost Value = { List (List ℤ) };

    ghost view = { λ s. s.sets.items };
}

impl NumberSets {
    /// These sets, as they are. Takes no memory.
    pub fn of(sets: Vec<Numbers>) -> NumberSets
        ensures { result ≡ sets.items }
    {
        NumberSets { sets }
    }

    /// The sets, in the order in which they were given.
    pub fn as_slice(&self) -> &[Numbers]
        ensures { result.now ≡ self.now }
    {
        self.sets.as_slice()
    }

    /// One set, again. Takes memory for the lists.
    pub(crate) fn one(alloc: Global, set: &Numbers) -> Result<NumberSets, AllocError>
        ensures { IfOk result (λ sets. sets ≡ set.now ∷ []) }
    {
        let mut sets = Vec::new(alloc);
        sets.push(set.copy()?)?;
        Ok(NumberSets { sets })
    }

    /// A copy, which takes memory for its lists.
    pub(crate) fn copy(&self, alloc: Global) -> Result<NumberSets, AllocError>
        ensures { IfOk result (λ copied. copied ≡ self.now) }
    {
        let mut sets = Vec::new(alloc);
        for set in self.as_slice() {
            sets.push(set.copy()?)?;
        }
        Ok(NumberSets { sets })
    }
}

impl PartialEq for NumberSets {
    ghost eq = { pointwise (pointwise int_eq) };

    ghost laws = { Prim.search (comparing, rules) };

    fn eq(&self, other: &NumberSets) -> bool {
        self.sets.as_slice() == other.sets.as_slice()
    }
}

impl Eq for NumberSets {
    ghost laws = { Prim.search (comparing, rules) };
}

/// A preference, as in the manual of rPref: which of two rows is better, and which rows are the same. A column counts from
/// 0; comparing rows wants it below 16. Terms are equal (`==`) exactly where contracts see the same preference.
///
/// `low(price) * low(dist)` over the columns 0 and 1 is `Pareto` of `Low { col: 0 }` and `Low { col: 1 }`. What compares
/// rows goes down the term, so it needs stack in proportion to the nestings.
#[derive(Drop)]
pub enum Term {
    /// Smaller values are better.
    Low { col: usize },
    /// Larger values are better.
    High { col: usize },
    /// Values nearer to the centre are better.
    Around { col: usize, centre: i64 },
    /// Values nearer to the range are better, and all in it alike. Its left end is no more than its right end.
    Between { col: usize, left: i64, right: i64 },
    /// Values in the set are better than all others.
    Pos { col: usize, set: Numbers },
    /// Values in an earlier set are better than those in a later one, and values in a set than those in none. It has a set, and each
    /// set has a number.
    Layered { col: usize, sets: NumberSets },
    /// The Pareto product: better in one part, and better or the same in the other.
    Pareto(Box<Term>, Box<Term>),
    /// Prioritisation: better in the first part, or the same in it and better in the second.
    Prior(Box<Term>, Box<Term>),
    /// The converse of a term: the two rows change places.
    Reverse(Box<Term>),
}

impl Term {
    ghost use Rattle.pref_term.specs.Preference.{preference_of};

    /// A copy. Takes memory for its parts and for their sets.
    #[cycle(copy)]
    pub(crate) fn copy(&self, alloc: Global) -> Result<Term, AllocError>
        ensures { IfOk result (λ copied. preference_of copied ≡ preference_of self.now) }
    {
        match self {
            Term::Low { col } => Ok(Term::Low { col: *col }),
            Term::High { col } => Ok(Term::High { col: *col }),
            Term::Around { col, centre } => Ok(Term::Around {
                col: *col,
                centre: *centre,
            }),
            Term::Between { col, left, right } => Ok(Term::Between {
                col: *col,
                left: *left,
                right: *right,
            }),
            Term::Pos { col, set } => Ok(Term::Pos {
                col: *col,
                set: set.copy()?,
            }),
            Term::Layered { col, sets } => Ok(Term::Layered {
                col: *col,
                sets: sets.copy(alloc)?,
            }),
            Term::Pareto(p, q) => Ok(Term::Pareto(p.boxed(alloc)?, q.boxed(alloc)?)),
            Term::Prior(p, q) => Ok(Term::Prior(p.boxed(alloc)?, q.boxed(alloc)?)),
            Term::Reverse(p) => Ok(Term::Reverse(p.boxed(alloc)?)),
        }
    }

    /// A copy in a box.
    #[cycle(copy)]
    fn boxed(&self, alloc: Global) -> Result<Box<Term>, AllocError>
        ensures { IfOk result (λ copied. preference_of copied.value ≡ preference_of self.now) }
    {
        Ok(Box::new(alloc, self.copy(alloc)?)?)
    }
}

impl PartialEq for Term {
    ghost use Rattle.std.specs.Cmp.{partial_equiv_from_equiv};
    ghost use Rattle.std.specs.Ordering.{on};
    ghost use Rattle.pref_term.specs.Equal.{preference_eq};
    ghost use Rattle.pref_term.specs.EqualLaws.{terms_equal};
    ghost use Rattle.pref_term.specs.Preference.{preference_of};

    ghost eq = { on preference_of preference_eq };

    ghost laws = { partial_equiv_from_equiv terms_equal };

    /// One walk over both terms, up to where they differ.
    fn eq(&self, other: &Term) -> bool {
        match (self, other) {
            (Term::Low { col: a }, Term::Low { col: b }) => *a == *b,
            (Term::High { col: a }, Term::High { col: b }) => *a == *b,
            (Term::Around { col: a, centre: c }, Term::Around { col: b, centre: d }) => {
                *a == *b && *c == *d
            }
            (
                Term::Between { col, left, right },
                Term::Between {
                    col: same,
                    left: first,
                    right: last,
                },
            ) => *col == *same && *left == *first && *right == *last,
            (Term::Pos { col: a, set: s }, Term::Pos { col: b, set: t }) => *a == *b && *s == *t,
            (Term::Layered { col: a, sets: s }, Term::Layered { col: b, sets: t }) => {
                *a == *b && *s == *t
            }
            (Term::Pareto(p, q), Term::Pareto(r, s)) => **p == **r && **q == **s,
            (Term::Prior(p, q), Term::Prior(r, s)) => **p == **r && **q == **s,
            (Term::Reverse(p), Term::Reverse(r)) => **p == **r,
            _ => false,
        }
    }
}

impl Eq for Term {
    ghost use Rattle.pref_term.specs.EqualLaws.{terms_equal};

    ghost laws = { terms_equal };
}
