//! The text that shows a question.
ghost use Rattle.std.specs.Prelude.{◌≡◌, ◌<◌, [], ◌++◌, length, All, OnOk, IfOk, codes, if◌then◌else◌};
ghost use Rattle.std.specs.Fmt.{decimal, signed_decimal};
ghost use Rattle.pref_term.specs.Columns.{ReadsBelow};
ghost use Rattle.pref_term.specs.Preference.{preference_of};
ghost use Rattle.pref_term.specs.Question.{FitsWidth};
ghost use Rattle.pref_term.specs.Shown as shown;

use crate::ask::{Ask, Mode};
use crate::term::{Numbers, Term};
use pref_table::Schema;
use std::alloc::{AllocError, Global};

/// The canonical text of an ask, in the names of the schema, whose width all columns of the ask have to be below.
///
/// A skyline clause is shown as the term and the group that it means, `skyline of x min, g diff` as
/// `best low(x) by g`, and one with `distinct` as a clause. Parentheses are where the grammar needs them and nowhere else. `read_ask` reads the ask
/// again where the text has at most 4,096 bytes and 64 open nestings. One walk over the term; the only error is
/// out of memory.
///
/// ```rust
/// let ask = read_ask(alloc, &schema, b"skyline of price min, dist diff")?;
/// let text = show(alloc, &schema, &ask)?;
/// println!(rt; "{}", String::from_utf8_lossy(alloc, &text)?)?;     // best low(price) by dist
/// ```
pub fn show(alloc: Global, schema: &Schema, ask: &Ask) -> Result<Vec<u8>, AllocError>
    // The ask is over columns of the schema.
    requires { FitsWidth (length schema.now) ask.now }
    ensures { IfOk result (λ text. text.items ≡ shown.shown schema.now ask.now) }
{
    let mut text = Vec::new(alloc);
    if ask.distinct() {
        text.extend_from_slice(b"skyline of distinct ")?;
        show_dimensions(&mut text, schema, ask.term())?;
        show_differing(&mut text, schema, ask.group())?;
        return Ok(text);
    }
    show_mode(&mut text, ask.mode())?;
    show_term(&mut text, schema, ask.term())?;
    show_group(&mut text, schema, ask.group())?;
    Ok(text)
}

/// These bytes, and the name of the column.
fn show_named(
    text: &mut Vec<u8>,
    schema: &Schema,
    before: &[u8],
    col: usize,
) -> Result<(), AllocError>
    requires { col < length schema.now }
    ensures { OnOk result (text.new.items ≡ text.old.items ++ (before.now ++ shown.name_at schema.now col)) }
{
    text.extend_from_slice(before)?;
    text.extend_from_slice(schema.name(col))
}

fn show_mode(text: &mut Vec<u8>, mode: Mode) -> Result<(), AllocError>
    ensures { OnOk result (text.new.items ≡ text.old.items ++ shown.shown_mode mode) }
{
    match mode {
        Mode::Best => text.extend_from_slice(b"best "),
        Mode::TopLevel(count) => show_count(text, b"top_level ", count),
        Mode::AtLeast(count) => show_count(text, b"at_least ", count),
    }
}

/// A word, and a count.
fn show_count(text: &mut Vec<u8>, word: &[u8], count: u32) -> Result<(), AllocError>
    ensures { OnOk result (text.new.items ≡ text.old.items ++ (word.now ++ decimal count ++ codes " ")) }
{
    text.extend_from_slice(word)?;
    let digits = count.to_string(*text.allocator())?;
    text.extend_from_slice(digits.as_bytes())?;
    text.extend_from_slice(b" ")
}

fn show_number(text: &mut Vec<u8>, value: i64) -> Result<(), AllocError>
    ensures { OnOk result (text.new.items ≡ text.old.items ++ signed_decimal value) }
{
    let digits = value.to_string(*text.allocator())?;
    text.extend_from_slice(digits.as_bytes())
}

/// The values of a set, each after a comma.
fn show_values(text: &mut Vec<u8>, set: &[i64]) -> Result<(), AllocError>
    ensures { OnOk result (text.new.items ≡ text.old.items ++ shown.shown_after_commas signed_decimal set.now) }
{
    for value in set {
        text.extend_from_slice(b", ")?;
        show_number(text, *value)?;
    }
    Ok(())
}

/// A set in its braces.
fn show_set(text: &mut Vec<u8>, set: &Numbers) -> Result<(), AllocError>
    ensures { OnOk result (text.new.items ≡ text.old.items ++ shown.shown_set set.now) }
{
    let Some((first, others)) = set.as_slice().split_first() else {
        return text.extend_from_slice(b"{}");
    };
    text.extend_from_slice(b"{")?;
    show_number(text, *first)?;
    show_values(text, others)?;
    text.extend_from_slice(b"}")
}

/// The sets, each after a comma.
fn show_sets(text: &mut Vec<u8>, sets: &[Numbers]) -> Result<(), AllocError>
    ensures { OnOk result (text.new.items ≡ text.old.items ++ shown.shown_after_commas shown.shown_set sets.now) }
{
    for set in sets {
        text.extend_from_slice(b", ")?;
        show_set(text, set)?;
    }
    Ok(())
}

fn show_group(text: &mut Vec<u8>, schema: &Schema, group: &[usize]) -> Result<(), AllocError>
    requires { All (λ col. col < length schema.now) group.now }
    ensures { OnOk result (text.new.items ≡ text.old.items ++ shown.shown_group schema.now group.now) }
{
    let Some((first, others)) = group.split_first() else {
        return Ok(());
    };
    show_named(text, schema, b" by ", *first)?;
    show_more_names(text, schema, others)
}

/// The names of the columns, each after a comma.
fn show_more_names(text: &mut Vec<u8>, schema: &Schema, columns: &[usize]) -> Result<(), AllocError>
    requires { All (λ col. col < length schema.now) columns.now }
    ensures { OnOk result (text.new.items ≡ text.old.items ++ shown.shown_after_commas (shown.name_at schema.now) columns.now) }
{
    for col in columns {
        show_named(text, schema, b", ", *col)?;
    }
    Ok(())
}

/// A base term: these bytes, the name of the column, and the values, each after a comma.
fn show_base(
    text: &mut Vec<u8>,
    schema: &Schema,
    before: &[u8],
    col: usize,
    values: &[i64],
) -> Result<(), AllocError>
    requires { col < length schema.now }
    ensures { OnOk result (text.new.items ≡ text.old.items ++ (before.now ++ shown.name_at schema.now col ++ shown.shown_after_commas signed_decimal values.now ++ codes ")")) }
{
    show_named(text, schema, before, col)?;
    show_values(text, values)?;
    text.extend_from_slice(b")")
}

/// A base term of sets: the name of the column, and the sets, each after a comma.
fn show_layers(
    text: &mut Vec<u8>,
    schema: &Schema,
    col: usize,
    sets: &[Numbers],
) -> Result<(), AllocError>
    requires { col < length schema.now }
    ensures { OnOk result (text.new.items ≡ text.old.items ++ (codes "layered(" ++ shown.name_at schema.now col ++ shown.shown_after_commas shown.shown_set sets.now ++ codes ")")) }
{
    show_named(text, schema, b"layered(", col)?;
    show_sets(text, sets)?;
    text.extend_from_slice(b")")
}

#[cycle(term)]
fn show_term(text: &mut Vec<u8>, schema: &Schema, term: &Term) -> Result<(), AllocError>
    requires { ReadsBelow (length schema.now) (preference_of term.now) }
    ensures { OnOk result (text.new.items ≡ text.old.items ++ shown.shown_term schema.now (preference_of term.now)) }
{
    match term {
        Term::Low { col } => show_base(text, schema, b"low(", *col, &[]),
        Term::High { col } => show_base(text, schema, b"high(", *col, &[]),
        Term::Around { col, centre } => show_base(text, schema, b"around(", *col, &[*centre]),
        Term::Between { col, left, right } => {
            show_base(text, schema, b"between(", *col, &[*left, *right])
        }
        Term::Pos { col, set } => show_base(text, schema, b"pos(", *col, set.as_slice()),
        Term::Layered { col, sets } => show_layers(text, schema, *col, sets.as_slice()),
        Term::Pareto(p, q) => {
            show_parts(text, schema, (p, is_prior(p)), b" * ", (q, is_composed(q)))
        }
        Term::Prior(p, q) => show_parts(text, schema, (p, false), b" & ", (q, is_prior(q))),
        Term::Reverse(p) => {
            text.extend_from_slice(b"-")?;
            show_part(text, schema, p, is_composed(p))
        }
    }
}

/// Two parts of a term, each with whether it is held in parentheses, and these bytes between them.
#[cycle(term)]
fn show_parts(
    text: &mut Vec<u8>,
    schema: &Schema,
    first: (&Term, bool),
    between: &[u8],
    second: (&Term, bool),
) -> Result<(), AllocError>
    requires first { ReadsBelow (length schema.now) (preference_of first.0.now) }
    requires second { ReadsBelow (length schema.now) (preference_of second.0.now) }
    ensures { OnOk result (text.new.items ≡ text.old.items ++ (shown.held first.entry.1 (shown.shown_term schema.now (preference_of first.entry.0.now))
        ++ between.now ++ shown.held second.entry.1 (shown.shown_term schema.now (preference_of second.entry.0.now)))) }
{
    show_part(text, schema, first.0, first.1)?;
    text.extend_from_slice(between)?;
    show_part(text, schema, second.0, second.1)
}

/// A part of a term, held in parentheses where it needs them.
#[cycle(term)]
fn show_part(text: &mut Vec<u8>, schema: &Schema, part: &Term, held: bool) -> Result<(), AllocError>
    requires { ReadsBelow (length schema.now) (preference_of part.now) }
    ensures { OnOk result (text.new.items ≡ text.old.items ++ shown.held held (shown.shown_term schema.now (preference_of part.now))) }
{
    if !held {
        return show_term(text, schema, part);
    }
    text.extend_from_slice(b"(")?;
    show_term(text, schema, part)?;
    text.extend_from_slice(b")")
}

/// These bytes, the name of the column, and what is said of it.
fn show_said(
    text: &mut Vec<u8>,
    schema: &Schema,
    before: &[u8],
    col: usize,
    said: &[u8],
) -> Result<(), AllocError>
    requires { col < length schema.now }
    ensures { OnOk result (text.new.items ≡ text.old.items ++ (before.now ++ (shown.name_at schema.now col ++ said.now))) }
{
    show_named(text, schema, before, col)?;
    text.extend_from_slice(said)
}

/// The MIN and MAX columns of a clause.
fn show_dimensions(text: &mut Vec<u8>, schema: &Schema, term: &Term) -> Result<(), AllocError>
    requires { ReadsBelow (length schema.now) (preference_of term.now) }
    ensures { OnOk result (text.new.items ≡ text.old.items ++ shown.shown_dims schema.now (preference_of term.now)) }
{
    match term {
        Term::Low { col } => show_said(text, schema, b"", *col, b" min"),
        Term::High { col } => show_said(text, schema, b"", *col, b" max"),
        Term::Pareto(p, q) => {
            show_dimensions(text, schema, p)?;
            text.extend_from_slice(b", ")?;
            show_dimensions(text, schema, q)
        }
        _ => Ok(()),
    }
}

/// The DIFF columns of a clause, each behind a comma.
fn show_differing(text: &mut Vec<u8>, schema: &Schema, columns: &[usize]) -> Result<(), AllocError>
    requires { All (λ col. col < length schema.now) columns.now }
    ensures { OnOk result (text.new.items ≡ text.old.items ++ shown.shown_after_commas (shown.shown_diff schema.now) columns.now) }
{
    for col in columns {
        show_said(text, schema, b", ", *col, b" diff")?;
    }
    Ok(())
}

/// Whether the term is a prioritisation.
fn is_prior(term: &Term) -> bool
    ensures { result ≡ shown.is_prior (preference_of term.now) }
{
    matches!(term, Term::Prior(_, _))
}

/// Whether the term is a product or a prioritisation.
fn is_composed(term: &Term) -> bool
    ensures { result ≡ shown.is_composed (preference_of term.now) }
{
    matches!(term, Term::Pareto(_, _) | Term::Prior(_, _))
}
