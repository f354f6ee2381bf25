//! How a row compares with another.
ghost use Rattle.std.specs.Prelude.{◌≡◌};
ghost use Rattle.pref_term.specs.Order.{is_better, is_same, is_worse};
ghost use Rattle.pref_term.specs.Walk.{by_sides, in_product, is_neither};

/// How a first row compares with a second one: "is it better" and "is it worse" in one answer.
#[derive(Clone, Copy, Debug, PartialEq, Eq)]
pub enum Relation {
    /// The first is better.
    Better,
    /// The second is better.
    Worse,
    /// The two score alike in every base term.
    Same,
    /// Neither is better, and they do not score alike: they are incomparable.
    Neither,
}

impl Relation {
    /// Whether the first row is better.
    pub fn is_better(self) -> bool
        ensures { result ≡ is_better self }
    {
        matches!(self, Relation::Better)
    }

    /// Whether the second row is better.
    pub fn is_worse(self) -> bool
        ensures { result ≡ is_worse self }
    {
        matches!(self, Relation::Worse)
    }

    /// Whether the rows score alike.
    pub fn is_same(self) -> bool
        ensures { result ≡ is_same self }
    {
        matches!(self, Relation::Same)
    }

    /// Whether neither row is better, and they don't score alike.
    pub(crate) fn is_neither(self) -> bool
        ensures { result ≡ is_neither self }
    {
        matches!(self, Relation::Neither)
    }

    /// The relation, from whether the first row is better in some part and whether the second is.
    #[inline(always)]
    pub(crate) fn by_sides(first: bool, second: bool) -> Relation
        ensures { result ≡ by_sides first second }
    {
        match (first, second) {
            (true, false) => Relation::Better,
            (false, true) => Relation::Worse,
            (false, false) => Relation::Same,
            (true, true) => Relation::Neither,
        }
    }

    /// The relation by a Pareto product, from those by its two parts.
    pub(crate) fn in_product(self, other: Relation) -> Relation
        ensures { result ≡ in_product self other }
    {
        match (self, other) {
            (Relation::Same, decided) | (decided, Relation::Same) => decided,
            (Relation::Better, Relation::Better) => Relation::Better,
            (Relation::Worse, Relation::Worse) => Relation::Worse,
            _ => Relation::Neither,
        }
    }
}
