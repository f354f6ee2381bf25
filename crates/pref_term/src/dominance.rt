//! Strict orders of rows.
ghost use Rattle.std.specs.Prelude.{◌≡◌, true, IfSome};
ghost use Rattle.pref_term.specs.AskOrder.{order_of};
ghost use Rattle.pref_term.specs.Order.{IsRowOrder, RowOrder, StandAlike, is_better, is_same, is_worse};

use crate::ask::Ask;
use crate::relation::Relation;
use pref_table::Row;

/// A strict order of rows, as the skyline operator needs it (Börzsönyi, Kossmann, Stocker 2001).
///
/// No row dominates itself; what dominates a row dominates all that this row dominates. The code's word for that is
/// `over`. Of twins one is kept: the same rows dominate both, and both dominate the same rows. No call takes memory.
///
/// [`Ask`](crate::Ask) is such an order. One of your own needs `over`, `twin`, the ghost `order` and its `laws`; the other calls are for
/// speed, have bodies that are right for every order, and can be seen in no answer.
pub trait Dominance {
    /// Which row dominates which, and which rows are twins.
    ghost order: { Self → RowOrder };

    /// Whether the first row dominates the second one.
    fn over(&self, a: &Row, b: &Row) -> bool
        ensures { result ≡ (order self.now).over a.now b.now };

    /// Whether the rows are twins: of such entries the one with the smallest id alone is best. An order
    /// that keeps all rows that it scores alike answers false.
    fn twin(&self, a: &Row, b: &Row) -> bool
        ensures { result ≡ (order self.now).twin a.now b.now };

    /// How the first row compares with the second one: both questions in one answer. Rows that are answered
    /// to be the same are alike: what dominates one dominates the other, they dominate the same rows, and they
    /// have the same twins. Twins are the same.
    ///
    /// An order that finds both at once should answer them at once, and answer `Same` for rows that it scores
    /// alike, since such rows are compared less often. This body asks each question by itself, and answers
    /// `Same` for twins alone.
    fn compare(&self, a: &Row, b: &Row) -> Relation
        ensures better { is_better result ≡ (order self.now).over a.now b.now }
        ensures worse { is_worse result ≡ (order self.now).over b.now a.now }
        ensures stand_alike { is_same result ≡ true → StandAlike (order self.now).over a.now b.now }
        ensures twins { (order self.now).twin a.now b.now ≡ true → is_same result ≡ true }
        ensures twins_alike { is_same result ≡ true → StandAlike (order self.now).twin a.now b.now }
    {
        if self.over(a, b) {
            Relation::Better
        } else if self.over(b, a) {
            Relation::Worse
        } else if self.twin(a, b) {
            Relation::Same
        } else {
            Relation::Neither
        }
    }

    /// The question whose order this is, where it is one: its entries are then kept in the order of its keys, and one pass over them finds
    /// their levels. This body names none, which is right for every order; the levels of such an order are found by block-nested-loops.
    fn question(&self) -> Option<&Ask>
        ensures { IfSome result (λ ask. order self.now ≡ order_of ask.now) }
    {
        None
    }

    ghost laws: { (d : Self) → IsRowOrder (order d) };
}
