//! The changes of a commit.
ghost use Rattle.std.specs.Prelude.{◌≡◌, ◌≤◌, ◌-◌, length, map, take};
ghost use Rattle.pref_table.specs.Rows.{padded};
ghost use Rattle.pref_core.specs.Changes.{commit_of};
ghost use Rattle.prefq_c.specs.Commits.{change_of, changes_of, first_moment, is_change, no_change_from, updates_of};

use crate::fault::Fault;
use pref_core::{Change, Commit, CoreFault};
use pref_table::{Row, Schema, TableFault};

/// The verbs of changes; any other is that of none.
const INSERT: u32 = 1;

const UPDATE: u32 = 2;

const DELETE: u32 = 3;

/// One change of a commit, as C has it: where its values are, which is 0 without any, and a copy of them, of which as many count as the table has columns.
#[repr(C)]
#[derive(Clone, Copy)]
pub struct Piece {
    pub verb: u32,
    pub id: u64,
    pub address: usize,
    pub values: [i64; 16],
}

/// The most changes of a commit.
const MOST_CHANGES: usize = 8;

/// The row of the first values, as many as the table has columns.
pub fn row_of(schema: &Schema, values: &[i64]) -> Row
    requires { length schema.now ≤ 16 → length schema.now ≤ length values.now }
    ensures { result ≡ padded (take (length schema.now) values.now) }
{
    match Row::of(schema, &values[..schema.width()]) {
        Ok(row) => row,
        Err(_) => unreachable!(),
    }
}

/// The change that a piece is, where it is one.
fn change_of(schema: &Schema, piece: &Piece) -> Change
    ensures { result ≡ change_of (length schema.now) piece.now }
{
    match piece.verb {
        INSERT => Change::Add(row_of(schema, &piece.values)),
        UPDATE => Change::Set(piece.id, row_of(schema, &piece.values)),
        _ => Change::Remove(piece.id),
    }
}

/// The commit of these pieces, where each is a change. Refused for their number and their ids.
fn commit_of(schema: &Schema, pieces: &[Piece]) -> Result<Commit, CoreFault>
    ensures { result ≡ commit_of (map (change_of (length schema.now)) pieces.now) }
{
    if pieces.len() > MOST_CHANGES {
        return Err(CoreFault::ChangeCount);
    }
    let mut changes = [Change::Remove(0); MOST_CHANGES];
    for (place, piece) in pieces.iter().enumerate() {
        changes[place] = change_of(schema, piece);
    }
    Commit::of(&changes[..pieces.len()])
}

/// Whether a piece is a change, with its values where it needs any.
fn is_change(piece: &Piece) -> bool
    ensures { result ≡ is_change piece.now }
{
    piece.verb == DELETE || (0 < piece.verb && piece.verb < DELETE && piece.address > 0)
}

/// The place, from 1 on, of the first piece that is no change.
fn no_change(pieces: &[Piece]) -> Option<u64>
    ensures { result ≡ no_change_from 1 pieces.now }
{
    for (at, piece) in pieces.iter().enumerate() {
        if !is_change(piece) {
            return Some(at as u64 + 1);
        }
    }
    None
}

/// The commit of these pieces, whose values have this width.
pub fn changes_of(schema: &Schema, width: usize, pieces: &[Piece]) -> Result<Commit, Fault>
    ensures { result ≡ changes_of (length schema.now) width pieces.now }
{
    if !pieces.is_empty() && width != schema.width() {
        return Err(Fault::Values(TableFault::Width { row: 0 }));
    }
    if let Some(place) = no_change(pieces) {
        return Err(Fault::NoChange { place });
    }
    match commit_of(schema, pieces) {
        Ok(commit) => Ok(commit),
        Err(why) => Err(Fault::Changes(why)),
    }
}

/// The pieces before the one at this place, from 1 on.
fn pieces_before(pieces: &[Piece], place: u64) -> &[Piece]
    ensures { result.now ≡ take (place - 1) pieces.now }
{
    let count = (place as usize).saturating_sub(1).min(pieces.len());
    &pieces[..count]
}

/// The first pieces that can be made at one moment: those before the first one that names an id again.
fn first_moment<'a>(schema: &Schema, pieces: &'a [Piece]) -> &'a [Piece]
    ensures { result.now ≡ first_moment (length schema.now) pieces.now }
{
    match commit_of(schema, pieces) {
        Err(CoreFault::Twice { place }) => pieces_before(pieces, place),
        _ => pieces,
    }
}

/// The commit of the first updates that can be made at one moment. Most often these are all, so all are tried before any is cut off.
pub fn updates_of(schema: &Schema, width: usize, pieces: &[Piece]) -> Result<Commit, Fault>
    ensures { result ≡ updates_of (length schema.now) width pieces.now }
{
    let first = match changes_of(schema, width, pieces) {
        Ok(commit) => return Ok(commit),
        Err(Fault::Changes(CoreFault::Twice { place })) => pieces_before(pieces, place),
        Err(_) => first_moment(schema, pieces),
    };
    match changes_of(schema, width, first) {
        Err(Fault::NoChange { place: _ }) => Err(Fault::NoValues),
        made => made,
    }
}
