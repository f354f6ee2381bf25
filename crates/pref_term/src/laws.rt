//! Laws of question texts, and of equality.
ghost use Rattle.std.specs.Prelude.{◌≡◌, ◌≤◌, ◌&&◌, ℕ, ℤ, List, [], ◌∷◌, length, true, false, MatchResult, Ok, Err, codes};
ghost use Rattle.std.specs.Bool.{Decides};
ghost use Rattle.std.specs.List.{AllByRecursion};
ghost use Rattle.pref_table.specs.Names.{schema_of};
ghost use Rattle.pref_term.specs.Equal.{preference_eq, question_eq};
ghost use Rattle.pref_term.specs.Question.{Question, IsAsk, FitsWidth, alike};
ghost use Rattle.pref_term.specs.Shown.{shown, nests, IsShownAs, worked_names};
ghost use Rattle.pref_term.specs.Grammar.{AskText, IsText, ask_leaves};
ghost use Rattle.pref_term.specs.Spells.{Names, Spells, Faults, IsGood, question, tokens_in, tokens_on};
ghost use Rattle.pref_term.specs.Token.{tokens_of};
ghost use Rattle.pref_term.specs.Asked.{asked};
ghost use Rattle.pref_term.specs.AskOrder.{order_of};
ghost use Rattle.pref_term.specs.Chains.{AreInRow, by_chain};
ghost use Rattle.pref_term.specs.Extension.{all_keys, ask_keys};
ghost use Rattle.pref_term.specs.Keys.{key_for};
ghost use Rattle.pref_term.specs.Order.{StandAlike, is_better, is_same, is_worse};
ghost use Rattle.pref_term.specs.Preference.{Preference, scored, low, high, pareto, prior, reverse};
ghost use Rattle.pref_term.specs.declared.fault.TermFault.{TermFault};
ghost use Rattle.pref_term.specs.declared.ask.Mode.TheVariants.{Best as best};
ghost use Rattle.pref_term.specs.declared.fault.TermFault.TheVariants.{Unexpected as unexpected, UnknownColumn as unknown_column, NoMinOrMax as no_min_or_max};

/// Each text spells the ask, or has the fault, that is computed of it.
#[tactic(auto, using(crate::proofs::AskedLemmas::asked_answer))]
pub fn asked_is_the_answer()
    ensures { (names : Names) (text : List ℕ) → MatchResult (asked names text) (Spells names text) (Faults names text) }
{}

/// No text spells two asks, has two faults, or spells an ask and has a fault.
pub fn one_reading()
    ensures ask { (names : Names) (text : List ℕ) (p q : Question) → Spells names text p → Spells names text q → p ≡ q }
    ensures either { (names : Names) (text : List ℕ) (p : Question) (f : TermFault) → Spells names text p → Faults names text f → ⊥ }
    ensures fault { (names : Names) (text : List ℕ) (f g : TermFault) → Faults names text f → Faults names text g → f ≡ g }
{}

/// The shown text of an ask over the columns of a schema spells that ask, where it is within the limits of a question's
/// length and nesting: so reading it gives the ask again.
#[tactic(auto, using(crate::proofs::ClauseLaw::shown_spells, crate::proofs::AskedLemmas::spelled_asked))]
pub fn shown_is_read_again()
    ensures spelled { (names : Names) (q : Question) → schema_of names ≡ Ok names → IsAsk q → FitsWidth (length names) q →
        nests q.preference ≤ 64 → length (shown names q) ≤ 4096 → Spells names (shown names q) q }
    ensures asked { (names : Names) (q : Question) → schema_of names ≡ Ok names → IsAsk q → FitsWidth (length names) q →
        nests q.preference ≤ 64 → length (shown names q) ≤ 4096 → asked names (shown names q) ≡ Ok q }
{}

/// `==` is true of terms, and of asks, exactly where contracts see the same of the two.
#[tactic(auto, using(crate::specs::EqualLaws::preferences_Decides, crate::specs::EqualLaws::questions_Decides))]
pub fn equal_where_the_same_is_seen()
    ensures terms { (p q : Preference) → Decides (preference_eq p q) (p ≡ q) }
    ensures asks { (p q : Question) → Decides (question_eq p q) (p ≡ q) }
{}

/// All keys of a preference, by an example.
pub fn worked_keys()
    ensures { all_keys (reverse (pareto (scored (low 0)) (reverse (prior (scored (high 1)) (scored (low 2)))))) false
        ≡ key_for (low 0) true ∷ key_for (high 1) false ∷ key_for (low 2) false ∷ [] }
{}

/// The chain of the keys of an ask extends its order: what dominates is better by the chain, so no row dominates one that the
/// chain puts before it. Rows that are the same by it are just those of one group that are the same.
#[tactic(auto, using(crate::proofs::ExtensionLaws::ask_alike, crate::proofs::ExtensionLaws::ask_back, crate::proofs::ExtensionLaws::ask_extended, crate::proofs::ExtensionLaws::ask_in_row, crate::proofs::ExtensionLaws::ask_same, crate::proofs::ExtensionLaws::ask_twins))]
pub fn ask_keys_extend_an_ask()
    ensures extended { (q : Question) (a b : List ℤ) → (order_of q).over a b ≡ true → is_better (by_chain (ask_keys q) a b) ≡ true }
    ensures worse { (q : Question) (a b : List ℤ) → (order_of q).over b a ≡ true → is_worse (by_chain (ask_keys q) a b) ≡ true }
    ensures same { (q : Question) (a b : List ℤ) → is_same (by_chain (ask_keys q) a b) ≡ alike q a b }
    ensures stand_alike { (q : Question) (a b : List ℤ) → is_same (by_chain (ask_keys q) a b) ≡ true → StandAlike (order_of q).over a b }
    ensures twins { (q : Question) → IsAsk q → (a b : List ℤ) → (order_of q).twin a b ≡ (q.distinct && is_same (by_chain (ask_keys q) a b)) }
    ensures in_row { (q : Question) → IsAsk q → AreInRow (ask_keys q) }
{}

/// A text whose tokens are exactly those of a tree of the grammar without `distinct` spells the ask of that tree, in which
/// all equal rows are kept: that word takes no text away from the grammar.
#[tactic(auto, using(crate::proofs::DistinctLemmas::tree_spells))]
pub fn a_text_of_the_grammar_keeps_its_meaning()
    ensures { (names : Names) (text : List ℕ) (tree : AskText) (q : Question) → IsText tree → length text ≤ 4096
        → tokens_in (tokens_of text) ≡ tokens_on (ask_leaves tree) → AllByRecursion (IsGood names) (ask_leaves tree)
        → question names false tree ≡ Some q → Spells names text q }
{}

/// Texts and what they ask: the answer of a closed text is computed.
pub fn worked_texts()
    ensures best { asked (codes "x" ∷ []) (codes "best low(x)") ≡ Ok (record { preference = scored (low 0); group = []; mode = best; distinct = false }) }
    ensures skyline { asked (codes "price" ∷ codes "city" ∷ []) (codes "skyline of price MIN, city diff") ≡ Ok (record { preference = scored (low 0); group = 1 ∷ []; mode = best; distinct = false }) }
    ensures unknown { asked (codes "x" ∷ []) (codes "best low(z)") ≡ Err (unknown_column 9) }
    ensures unordered { asked (codes "x" ∷ []) (codes "skyline of x diff") ≡ Err no_min_or_max }
    ensures distinct { asked (codes "x" ∷ []) (codes "skyline of Distinct x min") ≡ Ok (record { preference = scored (low 0); group = []; mode = best; distinct = true }) }
    ensures column { asked (codes "distinct" ∷ []) (codes "skyline of distinct min") ≡ Ok (record { preference = scored (low 0); group = []; mode = best; distinct = false }) }
    ensures no_column { asked (codes "x" ∷ []) (codes "skyline of distinct x") ≡ Err (unknown_column 11) }
    ensures column_then { asked (codes "distinct" ∷ codes "x" ∷ []) (codes "skyline of distinct x") ≡ Err (unexpected 20) }
    ensures comma_then_word { asked (codes "x" ∷ []) (codes "skyline of distinct , min") ≡ Err (unexpected 20) }
{}

/// Texts over the columns x, y, z, g and h, and how they are shown.
pub fn worked_showings()
    ensures tighter { IsShownAs worked_names (codes "best low(x)*low(y)&high(z)") (codes "best low(x) * low(y) & high(z)") }
    ensures grouped { IsShownAs worked_names (codes "best low(x)*(low(y)*high(z))") (codes "best low(x) * (low(y) * high(z))") }
    ensures bare { IsShownAs worked_names (codes "best ((low(x)))") (codes "best low(x)") }
    ensures reversed { IsShownAs worked_names (codes "best reverse(low(x) & pos(y,-1,2))") (codes "best -(low(x) & pos(y, -1, 2))") }
    ensures factor { IsShownAs worked_names (codes "best low(x)*-high(y)") (codes "best low(x) * -high(y)") }
    ensures skyline { IsShownAs worked_names (codes "SKYLINE OF x Min, g DIFF, y max") (codes "best low(x) * high(y) by g") }
    ensures distinct { IsShownAs worked_names (codes "skyline of DISTINCT y max, g Diff, x MIN") (codes "skyline of distinct y max, x min, g diff") }
    ensures counted { IsShownAs worked_names (codes "at_least 007 around( x , - 3 ) by g,h") (codes "at_least 7 around(x, -3) by g, h") }
{}
