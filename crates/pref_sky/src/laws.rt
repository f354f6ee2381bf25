//! Laws of levels and answers that callers rest on. Each is the contract of a function that does nothing.

ghost use Rattle.std.specs.Prelude.{◌≡◌, ◌<◌, ◌++◌, [], ℕ, Bool, List, map};
ghost use Rattle.std.specs.List.{flat_map};
ghost use Rattle.pref_sky.specs.Answers.{answer_of, at_least, count_upto};
ghost use Rattle.pref_sky.specs.Best.{best};
ghost use Rattle.pref_sky.specs.Levels.{HaveDifferentIds, entry_of, entry_order, held_after, held_of_parts, levels};
ghost use Rattle.pref_sky.specs.Members.{Among, SameMembers};
ghost use Rattle.pref_sky.specs.Twins.{IsFirstOfTwins};
ghost use Rattle.pref_sky.specs.declared.entry.Entry.{Entry};
ghost use Rattle.pref_sky.specs.declared.entry.Ranked.{Ranked};
ghost use Rattle.pref_table.specs.declared.row.Row.{Row};
ghost use Rattle.pref_term.specs.Order.{IsStrictOrder, RowOrder};
ghost use Rattle.pref_term.specs.AskOrder.{order_of};
ghost use Rattle.pref_term.specs.Question.{Question, cut_of};

/// The merge law: whatever the pieces into which a list is cut, after the last one a partial result
/// holds the levels of the whole list up to the cut.
#[tactic(auto, using(crate::proofs::LevelLaws::held_after_pieces))]
pub fn cutting_does_not_matter()
    ensures { (over : Entry → Entry → Bool) → IsStrictOrder over → (cut : ℕ) (pieces : List (List Entry))
        → HaveDifferentIds (flat_map (λ piece. piece) pieces)
        → held_after over cut [] pieces ≡ levels over (flat_map (λ piece. piece) pieces) cut }
{}

/// The law of parts: the levels up to a cut of a list are those of what the levels of its parts hold, however it is cut into parts. A
/// question's answer from what its parts hold up to its own cut is that from the whole list. What parts hold has different ids too, so
/// it may be a part in turn, to any depth.
#[tactic(auto, using(crate::proofs::LevelLaws::levels_of_held, crate::proofs::LevelLaws::held_of_parts_differ, crate::proofs::LevelLaws::answer_of_held))]
pub fn levels_of_parts()
    ensures levels { (over : Entry → Entry → Bool) → IsStrictOrder over → (cut : ℕ) (parts : List (List Entry))
        → HaveDifferentIds (flat_map (λ part. part) parts)
        → levels over (held_of_parts over cut parts) cut ≡ levels over (flat_map (λ part. part) parts) cut }
    ensures ids { (over : Entry → Entry → Bool) (cut : ℕ) (parts : List (List Entry))
        → HaveDifferentIds (flat_map (λ part. part) parts)
        → HaveDifferentIds (held_of_parts over cut parts) }
    ensures answer { (ask : Question) (parts : List (List Entry))
        → HaveDifferentIds (flat_map (λ part. part) parts)
        → answer_of ask (held_of_parts (entry_order (order_of ask)) (cut_of ask.mode) parts) ≡ answer_of ask (flat_map (λ part. part) parts) }
{}

/// An answer depends on which entries there are, and not on their order.
#[tactic(auto, using(crate::proofs::LevelLaws::answer_of_same))]
pub fn order_does_not_matter()
    ensures { (ask : Question) (xs ys : List Entry)
        → HaveDifferentIds xs → HaveDifferentIds ys → SameMembers xs ys
        → answer_of ask xs ≡ answer_of ask ys }
{}

/// The entries of the levels of a list have no ids that new entries have, where the list has none of these.
#[tactic(auto, using(crate::proofs::LevelLaws::held_differ))]
pub fn held_ids_differ()
    ensures { (over : Entry → Entry → Bool) (before new : List Entry) (cut : ℕ)
        → HaveDifferentIds (before ++ new)
        → HaveDifferentIds (map entry_of (levels over before cut) ++ new) }
{}

/// The best of a list are, of its entries, those that no entry dominates and of which none with a smaller
/// id is a twin.
#[tactic(auto, using(crate::proofs::ListLaws::from_filter, crate::proofs::ListLaws::in_filter, crate::proofs::ListLaws::any_from, crate::proofs::ListLaws::any_gives))]
pub fn best_keeps_the_first_of_twins()
    ensures first { (order : RowOrder) (all : List Entry) (e : Entry)
        → Among e (best (entry_order order) all) → IsFirstOfTwins order all e }
    ensures kept { (order : RowOrder) (all : List Entry) (e : Entry)
        → Among e all → IsFirstOfTwins order all e → Among e (best (entry_order order) all) }
{}

/// "At least k" gives in each group the levels 1 to m, where m is the smallest number whose levels 1 to m
/// hold at least k entries of the group, or all its entries where there are fewer. So an entry is kept
/// exactly where no number below its level is one of these.
#[tactic(auto, using(crate::proofs::ListLaws::from_filter, crate::proofs::ListLaws::in_filter, crate::proofs::ListLaws::count_within))]
pub fn at_least_keeps_the_least_number_of_levels()
    ensures kept { (same : Row → Row → Bool) (k : ℕ) (all : List Ranked) (r : Ranked)
        → Among r (at_least same k all)
        → (m : ℕ) → m < r.level → count_upto same all r.row m < k }
    ensures keeps { (same : Row → Row → Bool) (k : ℕ) (all : List Ranked) (r : Ranked)
        → Among r all → 0 < r.level
        → ((m : ℕ) → m < r.level → count_upto same all r.row m < k)
        → Among r (at_least same k all) }
{}
