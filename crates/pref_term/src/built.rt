//! Questions that are built from their parts.
ghost use Rattle.std.specs.Prelude.{◌≡◌, ◌≢◌, ◌≤◌, ◌<◌, [], Bool, true, false, int_lt, All, FitsSigned, IfOk, MatchResult};
ghost use Rattle.std.specs.Result.{result_err};
ghost use Rattle.std.specs.Int.{w64};
ghost use Rattle.pref_term.specs.Built.{IsRefused, column_fault, count_fault, fault_if, first_among, first_fault, layers_fault, set_fault, term_fault};
ghost use Rattle.pref_term.specs.Columns.{ReadsBelow};
ghost use Rattle.pref_term.specs.Preference.{layered, preference_of};
ghost use Rattle.pref_term.specs.Question.{IsAsk, Question, IsClause, IsCount, IsDimension, cut_of, is_count};
ghost use Rattle.pref_term.specs.Writable.{IsWritable, IsWritableSet};

use crate::ask::{Ask, Mode};
use crate::fault::AskFault;
use crate::number::MAX_COUNT;
use crate::term::{NumberSets, Numbers, Term};
use std::alloc::Global;

/// How many columns a row has.
const COLUMNS: usize = 16;

impl Ask {
    ghost use Rattle.pref_term.specs.declared.ask.Mode.TheVariants.{Best};

    /// A question of these parts, with the limits of [`read_ask`](crate::read_ask): the term, the columns that group the rows, and how many
    /// of the best are wanted. Columns count from 0. Of equal rows all are kept.
    ///
    /// Refused for the first fault, and leaves nothing then: the parts are let go. Of the base terms, from left to right: a column above 15
    /// ([`AskFault::ColumnRange`]), a range that ends before it begins (`EmptyRange`), a set without numbers (`EmptySet`), layers without a
    /// set (`NoSets`). Then a column of the group above 15, a count that is not 1 to 1000 (`BadCount`), and memory that ran out
    /// (`OutOfMemory`).
    ///
    /// No term is too deep, since nestings are not counted. One with more than 64 open has a question, though `read_ask` refuses its shown
    /// text ([`TermFault::TooDeep`](crate::TermFault::TooDeep)). What compares rows goes down the term, so a deep one takes more stack. Takes memory as `read_ask` does, for the keys and the chains that lead the term, and goes over the term and
    /// its sets once more.
    ///
    /// ```rust
    /// let names = [b"price".as_slice(), b"dist", b"city"];
    /// let schema = Schema::new(alloc, names.as_slice())?;
    /// let price = Box::new(alloc, Term::Low { col: 0 })?;
    /// let dist = Box::new(alloc, Term::Low { col: 1 })?;
    /// let ask = Ask::of(alloc, Term::Pareto(price, dist), vec![in alloc; 2]?, Mode::Best)?;
    /// let text = show(alloc, &schema, &ask)?;
    /// println!(rt; "{}", String::from_utf8_lossy(alloc, &text)?)?;     // best low(price) * low(dist) by city
    /// ```
    pub fn of(alloc: Global, term: Term, group: Vec<usize>, mode: Mode) -> Result<Ask, AskFault>
        // Made exactly where the parts are a question, unless memory ran out; else refused for the first fault.
        ensures { let parts : Question = record { preference = preference_of term; group = group.items; mode = mode; distinct = false } in
            MatchResult result (λ ask. IsAsk ask × (ask ≡ parts)) (λ fault. IsRefused parts fault) }
    {
        Ask::of_parts(alloc, term, group, mode, false)
    }

    /// A skyline clause that keeps one of equal rows, as its word `distinct` asks: the product of its MIN and MAX columns as a term, and its
    /// DIFF columns.
    ///
    /// The term is `Low`, `High` or a product that groups to the left, and each second part of it is `Low` or `High`. Refused as [`Ask::of`]
    /// is, and where there is none of its faults but memory, for another term ([`AskFault::NotSkyline`]). Leaves and takes what `Ask::of` does.
    ///
    /// ```rust
    /// let ask = Ask::distinct_skyline(alloc, Term::Low { col: 0 }, Vec::new(alloc))?;
    /// let text = show(alloc, &schema, &ask)?;
    /// println!(rt; "{}", String::from_utf8_lossy(alloc, &text)?)?;     // skyline of distinct price min
    /// ```
    pub fn distinct_skyline(alloc: Global, term: Term, group: Vec<usize>) -> Result<Ask, AskFault>
        // The same; refused as no skyline clause only where there is no other fault.
        ensures { let parts : Question = record { preference = preference_of term; group = group.items; mode = Best; distinct = true } in
            MatchResult result (λ ask. IsAsk ask × (ask ≡ parts)) (λ fault. IsRefused parts fault) }
    {
        Ask::of_parts(alloc, term, group, Mode::Best, true)
    }

    /// A question of these parts. Of equal rows one is kept only where the best are wanted.
    #[tactic(auto, using(crate::proofs::BuiltLemmas::made, crate::proofs::BuiltLemmas::no_clause, crate::proofs::BuiltLemmas::refused_for, crate::proofs::LedLemmas::fault_exit))]
    fn of_parts(
        alloc: Global,
        term: Term,
        group: Vec<usize>,
        mode: Mode,
        distinct: bool,
    ) -> Result<Ask, AskFault>
        requires { distinct ≡ true → mode ≡ Best }
        ensures { let parts : Question = record { preference = preference_of term; group = group.items; mode = mode; distinct = distinct } in
            MatchResult result (λ ask. IsAsk ask × (ask ≡ parts)) (λ fault. IsRefused parts fault) }
    {
        check_parts(&term, &group, mode)?;
        if distinct && !is_clause(&term) {
            return Err(AskFault::NotSkyline);
        }
        Ask::new(alloc, term, group, mode, distinct).map_err(|_| AskFault::OutOfMemory)
    }
}

/// Looks for the first fault of these parts.
fn check_parts(term: &Term, group: &[usize], mode: Mode) -> Result<(), AskFault>
    ensures found { IfOk result (λ _. ReadsBelow 16 (preference_of term.now) × IsWritable (preference_of term.now) × All (λ col. col < 16) group.now × IsCount (cut_of mode)) }
    ensures first { result_err result ≡ first_fault (preference_of term.now) group.now mode }
{
    check_term(term)?;
    check_group(group)?;
    check_count(mode)
}

fn check_column(col: usize) -> Result<(), AskFault>
    ensures found { IfOk result (λ _. col < 16) }
    ensures first { result_err result ≡ column_fault col }
{
    if col < COLUMNS {
        Ok(())
    } else {
        Err(AskFault::ColumnRange { col })
    }
}

fn check_range(col: usize, left: i64, right: i64) -> Result<(), AskFault>
    ensures found { IfOk result (λ _. int_lt right left ≡ false) }
    ensures first { result_err result ≡ fault_if (int_lt right left) (AskFault.EmptyRange col) }
{
    if right < left {
        Err(AskFault::EmptyRange { col })
    } else {
        Ok(())
    }
}

/// Reads each number, since what is read is known to be of 64 bits.
fn read_numbers(numbers: &[i64])
    ensures { All (FitsSigned w64) numbers.now }
{
    for number in numbers {
        let _number = *number;
    }
}

fn check_set(col: usize, set: &Numbers) -> Result<(), AskFault>
    ensures found { IfOk result (λ _. IsWritableSet set.now) }
    ensures first { result_err result ≡ set_fault col set.now }
{
    let numbers = set.as_slice();
    if numbers.is_empty() {
        return Err(AskFault::EmptySet { col });
    }
    read_numbers(numbers);
    Ok(())
}

fn check_sets(col: usize, sets: &NumberSets) -> Result<(), AskFault>
    ensures found { IfOk result (λ _. (sets.now ≢ []) × All IsWritableSet sets.now) }
    ensures first { result_err result ≡ layers_fault col sets.now }
{
    if sets.as_slice().is_empty() {
        return Err(AskFault::NoSets { col });
    }
    for set in sets.as_slice() {
        check_set(col, set)?;
    }
    Ok(())
}

/// Looks for the first base term from the left that no question has.
fn check_term(term: &Term) -> Result<(), AskFault>
    ensures found { IfOk result (λ _. ReadsBelow 16 (preference_of term.now) × IsWritable (preference_of term.now)) }
    ensures first { result_err result ≡ term_fault (preference_of term.now) }
{
    match term {
        Term::Low { col } | Term::High { col } => check_column(*col),
        Term::Around { col, centre } => {
            // Read, as the numbers of a set are.
            let _centre = *centre;
            check_column(*col)
        }
        Term::Between { col, left, right } => {
            check_column(*col)?;
            check_range(*col, *left, *right)
        }
        Term::Pos { col, set } => {
            check_column(*col)?;
            check_set(*col, set)
        }
        Term::Layered { col, sets } => {
            check_column(*col)?;
            check_sets(*col, sets)
        }
        Term::Pareto(p, q) | Term::Prior(p, q) => {
            check_term(p)?;
            check_term(q)
        }
        Term::Reverse(p) => check_term(p),
    }
}

fn check_group(group: &[usize]) -> Result<(), AskFault>
    ensures found { IfOk result (λ _. All (λ col. col < 16) group.now) }
    ensures first { result_err result ≡ first_among column_fault group.now }
{
    for col in group {
        check_column(*col)?;
    }
    Ok(())
}

fn check_count(mode: Mode) -> Result<(), AskFault>
    ensures found { IfOk result (λ _. IsCount (cut_of mode)) }
    ensures first { result_err result ≡ count_fault (cut_of mode) }
{
    let (Mode::TopLevel(count) | Mode::AtLeast(count)) = mode else {
        return Ok(());
    };
    if count < 1 || i64::from(count) > MAX_COUNT {
        Err(AskFault::BadCount { count })
    } else {
        Ok(())
    }
}

/// Whether the term is the left-grouped product of orders by one column that a skyline clause means.
fn is_clause(term: &Term) -> bool
    ensures yes { result ≡ true → IsClause (preference_of term.now) }
    ensures no { result ≡ false → IsClause (preference_of term.now) → ⊥ }
{
    match term {
        Term::Pareto(p, q) => is_clause(p) && is_dimension(q),
        _ => is_dimension(term),
    }
}

fn is_dimension(term: &Term) -> bool
    ensures yes { result ≡ true → IsDimension (preference_of term.now) }
    ensures no { result ≡ false → IsDimension (preference_of term.now) → ⊥ }
{
    matches!(term, Term::Low { .. } | Term::High { .. })
}
