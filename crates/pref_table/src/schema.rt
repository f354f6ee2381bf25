//! The names of a table's columns.
ghost use Rattle.std.specs.Prelude.{◌≡◌, ◌<◌, ◌≤◌, List, ℕ, map, length, slice_get, MatchResult, IfOk, IfSome, position, Ok, Err, Some};
ghost use Rattle.std.specs.List.{list_all, list_any};
ghost use Rattle.std.specs.Str.{bytes_eq};
ghost use Rattle.pref_table.specs.Columns.{column_of};
ghost use Rattle.pref_table.specs.Names as name_specs;
ghost use Rattle.pref_table.specs.Names.{is_name, name_after, name_in, schema_of};
ghost use Rattle.pref_table.specs.Numbered.{all_from};
ghost use Rattle.pref_table.specs.Tables.{Gives};

use crate::fault::TableFault;
use std::alloc::{AllocError, Global};
use std::marker::Model;

/// The most columns that a table has.
pub const MAX_COLUMNS: usize = 16;

/// The most bytes that a name has.
const MAX_NAME: usize = 32;

/// The names of a table's columns: 1 to 16 different names. Contracts see the list of them.
///
/// A name is an ASCII letter and up to 31 further letters, digits, `_` or `.`; case counts.
#[derive(Debug)]
pub struct Schema {
    names: Vec<Vec<u8>>,
}

// By hand, so that letting one go is a call: a derived `drop` is written out, and proved, at each way out of each function that owns one.
impl Drop for Schema {
    fn drop(self) {
        let Schema { names: _ } = self;
    }
}

impl Model for Schema {
    ghost use Rattle.std.specs.Prelude.{List, ℕ, map, ◌≡◌, Ok};
    ghost use Rattle.pref_table.specs.Names.{schema_of};

    ghost Value = { List (List ℕ) };

    ghost view = { λ schema. map (λ name. name.items) schema.names.items };

    ghost invariant = { λ schema. let names = map (λ name. name.items) schema.names.items in schema_of names ≡ Ok names };
}

/// Whether a name may have this byte behind its first one: an ASCII letter, a digit, `_` or `.`.
pub fn is_name_byte(byte: u8) -> bool
    ensures { result ≡ name_specs.is_name_byte byte }
{
    byte.is_ascii_alphabetic() || byte.is_ascii_digit() || byte == b'_' || byte == b'.'
}

fn all_name_bytes(bytes: &[u8]) -> bool
    ensures { result ≡ list_all name_specs.is_name_byte bytes.now }
{
    bytes.iter().all(|byte| is_name_byte(*byte))
}

fn is_name_text(name: &[u8]) -> bool
    ensures { result ≡ is_name name.now }
{
    !name.is_empty()
        && name.len() <= MAX_NAME
        && name[0].is_ascii_alphabetic()
        && all_name_bytes(name)
}

#[tactic(auto, using(crate::proofs::NamesFacts::list_any_map))]
fn is_taken(earlier: &[&[u8]], name: &[u8]) -> bool
    ensures { result ≡ list_any (λ other. bytes_eq other name.now) (map (λ other. other.now) earlier.now) }
{
    earlier.contains(&name)
}

fn check_name(earlier: &[&[u8]], col: u64, name: &[u8]) -> Result<(), TableFault>
    ensures { let checked = name_after (map (λ other. other.now) earlier.now) col name.now in
        MatchResult result (λ _. checked ≡ Ok name.now) (λ fault. checked ≡ Err fault) }
{
    if !is_name_text(name) {
        return Err(TableFault::BadName { col });
    }
    if is_taken(earlier, name) {
        return Err(TableFault::SameName { col });
    }
    Ok(())
}

fn check_each_name(names: &[&[u8]]) -> Result<(), TableFault>
    requires { length names.now ≤ 16 }
    ensures { let texts = map (λ name. name.now) names.now in let checked = all_from (name_in texts) 1 texts in
        MatchResult result (λ _. checked ≡ Ok texts) (λ fault. checked ≡ Err fault) }
{
    for (place, name) in names.iter().enumerate() {
        check_name(&names[..place], place as u64 + 1, name)?;
    }
    Ok(())
}

#[tactic(auto, unfolding(crate::specs::Names::schema_of))]
fn check_names(names: &[&[u8]]) -> Result<(), TableFault>
    ensures { let texts = map (λ name. name.now) names.now in
        MatchResult result (λ _. schema_of texts ≡ Ok texts) (λ fault. schema_of texts ≡ Err fault) }
{
    if names.is_empty() {
        return Err(TableFault::NoColumns);
    }
    if names.len() > MAX_COLUMNS {
        return Err(TableFault::TooManyColumns);
    }
    check_each_name(names)
}

fn copy_names(alloc: Global, names: &[&[u8]]) -> Result<Vec<Vec<u8>>, AllocError>
    ensures { IfOk result (λ owned. map (λ name. name.items) owned.items ≡ map (λ name. name.now) names.now) }
{
    let mut owned = Vec::new(alloc);
    for name in names {
        owned.push(Vec::from_slice(alloc, name)?)?;
    }
    Ok(owned)
}

fn place_of(names: &[Vec<u8>], name: &[u8]) -> Option<usize>
    ensures place { result ≡ position (λ known. bytes_eq known.items name.now) names.now }
    ensures known { IfSome result (λ col. col < length names.now) }
{
    names.iter().position(|known| known.as_slice() == name)
}

impl Schema {
    /// A schema of these names, from left to right.
    ///
    /// Refused `NoColumns` and `TooManyColumns` by their number, then for the first name from the left that is
    /// no name (`BadName`) or that an earlier column has (`SameName`), or `OutOfMemory`.
    ///
    /// ```rust
    /// let names = [b"price".as_slice(), b"dist"];
    /// let schema = Schema::new(alloc, names.as_slice())?;
    /// ```
    pub fn new(alloc: Global, names: &[&[u8]]) -> Result<Schema, TableFault>
        ensures { Gives (λ schema. schema) result (schema_of (map (λ name. name.now) names.now)) }
    {
        check_names(names)?;
        Ok(Schema {
            names: copy_names(alloc, names)?,
        })
    }

    /// How many columns there are, 1 to 16.
    pub fn width(&self) -> usize
        ensures value { result ≡ length self.now }
        ensures some { 0 < result }
        ensures few { result ≤ 16 }
        // What holds of each schema, as the laws of question texts need it.
        ensures known { schema_of self.now ≡ Ok self.now }
    {
        self.names.len()
    }

    /// The name of a column, which counts from 0 and has to be below the width.
    pub fn name(&self, col: usize) -> &[u8]
        requires { col < length self.now }
        ensures { slice_get self.now col ≡ Some result.now }
    {
        self.names[col].as_slice()
    }

    /// The column of this name, which counts from 0; `None` where no column has it. Case counts. Compares it with each
    /// name until one is equal; takes no memory.
    pub fn index_of(&self, name: &[u8]) -> Option<usize>
        ensures place { result ≡ column_of self.now name.now }
        ensures known { IfSome result (λ col. col < length self.now) }
        ensures below { IfSome result (λ col. col < 16) }
    {
        place_of(&self.names, name)
    }
}
