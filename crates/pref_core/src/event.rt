//! The acts of a client, and the replies to them.

ghost use Rattle.std.specs.Prelude.{◌≡◌, ◌↔◌, [], length, IsTrue, IfOk};
ghost use Rattle.std.specs.Slice.Iter.{iter_rest};

use crate::changes::Commit;
use crate::fault::CoreFault;
use pref_sky::Ranked;
use pref_table::Row;
use pref_term::Ask;
use std::alloc::{AllocError, Global};
use std::marker::Model;
use std::slice;
use thiserror::Error;

/// An action of a client.
///
/// ```rust
/// let hotel = Act::Insert(Row::of(&schema, &[55, 1])?);
/// let question = Act::Begin(read_ask(alloc, &schema, b"best low(price) * low(dist)")?);
/// ```
#[derive(Drop)]
#[derive_where(Debug)]
pub enum Act {
    /// Inserts a row, which gets the next id.
    Insert(Row),
    /// Puts another row in place of the one of this id, in one commit.
    Update(u64, Row),
    /// Deletes the row of this id.
    Delete(u64),
    /// Makes one to eight changes in one commit.
    Commit(BoxedCommit),
    /// Begins a query of the table as it is now.
    Begin(#[derive_where(skip(Debug))] Ask),
    /// Reads the next block for the open query.
    Scan,
    /// Asks for the answer of the open query, and ends it.
    Finish,
    /// Ends the open query without an answer.
    Abandon,
    /// Asks for the row of this id.
    Get(u64),
    /// Asks how many more versions there is room for.
    Room,
}

/// A commit in a box, so that other acts are no larger for it. Contracts see the list of its changes.
///
/// ```rust
/// let commit = Commit::of(&[Change::Add(hotel), Change::Remove(3)])?;
/// let act = Act::Commit(BoxedCommit::new(alloc, commit)?);
/// ```
#[derive(Debug, Drop)]
pub struct BoxedCommit {
    commit: Box<Commit>,
}

impl Model for BoxedCommit {
    ghost use Rattle.std.specs.Prelude.{List};
    ghost use Rattle.pref_core.specs.declared.changes.Change.{Change};

    ghost Value = { List Change };

    ghost view = { λ boxed. boxed.commit.value };
}

impl BoxedCommit {
    /// The commit in a box of its own.
    pub fn new(alloc: Global, commit: Commit) -> Result<BoxedCommit, AllocError>
        ensures { IfOk result (λ boxed. boxed ≡ commit) }
    {
        Ok(BoxedCommit {
            commit: Box::new(alloc, commit)?,
        })
    }

    /// The commit.
    pub fn commit(&self) -> &Commit
        ensures { result.now ≡ self.now }
    {
        &self.commit
    }
}

/// One act of one client.
///
/// ```rust
/// let event = Event { client: 2, act: Act::Insert(hotel) };
/// ```
#[derive(Debug, Drop)]
pub struct Event {
    /// The client's number, from 1 on. An event of another number is refused `NoSuchClient`.
    pub client: u8,
    /// The action.
    pub act: Act,
}

/// The rows of an answer, in order of level, then id. Contracts see the list.
#[derive(Debug, Drop)]
pub struct RankedList {
    rows: Vec<Ranked>,
}

impl Model for RankedList {
    ghost use Rattle.std.specs.Prelude.{List};
    ghost use Rattle.pref_sky.specs.declared.entry.Ranked.{Ranked};

    ghost Value = { List Ranked };

    ghost view = { λ list. list.rows.items };
}

impl RankedList {
    /// The list of these rows, in their order. Takes no memory.
    pub fn of(rows: Vec<Ranked>) -> RankedList
        ensures { result ≡ rows.items }
    {
        RankedList { rows }
    }

    /// How many rows there are.
    ///
    /// ```rust
    /// let count = answer.len();     // 4
    /// ```
    pub fn len(&self) -> usize
        ensures { result ≡ length self.now }
    {
        self.rows.len()
    }

    /// Whether there is no row, as in an answer only where the table was empty.
    pub fn is_empty(&self) -> bool
        ensures { IsTrue result ↔ (self.now ≡ []) }
    {
        self.rows.is_empty()
    }

    /// The rows, one after the other. `for best in &answer` goes through them too.
    ///
    /// ```rust
    /// for best in &answer {
    ///     println!(rt; "row {}, {}", best.id, best.row.cell(0))?;
    /// }
    /// // row 1, 50
    /// // row 2, 60
    /// // row 3, 80
    /// // row 6, 100
    /// ```
    pub fn iter(&self) -> slice::Iter<'_, Ranked>
        ensures { iter_rest result ≡ self.now }
    {
        self.rows.iter()
    }

    /// The rows, as a slice.
    ///
    /// ```rust
    /// if let [first, ..] = answer.as_slice() {
    ///     println!(rt; "row {}", first.id)?;     // row 1
    /// }
    /// ```
    pub fn as_slice(&self) -> &[Ranked]
        ensures { result.now ≡ self.now }
    {
        &self.rows
    }

    /// The rows, given back. Takes no memory.
    pub fn into_vec(self) -> Vec<Ranked>
        ensures { result.items ≡ self }
    {
        self.rows
    }
}

impl<'a> IntoIterator for &'a RankedList {
    ghost use Rattle.std.specs.Prelude.{◌≡◌};
    ghost use Rattle.std.specs.Slice.Iter.{iter_rest};

    type Item = &'a Ranked;

    type IntoIter = slice::Iter<'a, Ranked>;

    ghost into_iter_gives = { λ list it. iter_rest it ≡ list.now };

    fn into_iter(self) -> slice::Iter<'a, Ranked> {
        self.iter()
    }
}

/// The result of a commit that succeeds.
#[derive(Clone, Copy, Debug, PartialEq, Eq)]
pub struct Committed {
    /// How many changes it made.
    pub changes: u32,
    /// The id of the first row that it added, 0 where it added none.
    pub first: u64,
}

/// The reply to an act.
///
/// ```rust
/// match table.reply(alloc, Event { client: 1, act: Act::Finish })? {
///     Reply::Answer(answer) => println!(rt; "{} rows", answer.len())?,
///     Reply::Refused(fault) => println!(rt; "{fault}")?,     // no query
///     _ => {}
/// }
/// ```
#[derive(Debug, Drop)]
pub enum Reply {
    /// The row was inserted, with this id.
    Inserted(u64),
    /// The row of this id is the new one.
    Updated(u64),
    /// The row of this id is gone.
    Deleted(u64),
    /// All changes of the commit are made.
    Committed(Committed),
    /// A query has begun, and has this many blocks to scan.
    Begun(u32),
    /// A block was scanned, and this many are left.
    Left(u32),
    /// The answer, by the table at the query's begin.
    Answer(RankedList),
    /// The query is gone.
    Abandoned,
    /// The row of this id.
    Found(u64, Row),
    /// How many more versions there is room for.
    Room(u32),
    /// A refusal.
    Refused(CoreFault),
}

/// A refused event, handed back: a begin that is refused loses no ask.
///
/// Its text is that of its fault. `?` takes it as an error, and turns it into its [`CoreFault`] where a function returns that.
#[derive(Debug, Drop, Error)]
#[error("{fault}")]
pub struct StepFault {
    /// Why it is refused.
    pub fault: CoreFault,
    /// The event, as it was.
    pub event: Event,
}

impl From<StepFault> for CoreFault {
    ghost from_gives = { λ refused fault. fault ≡ refused.fault };

    fn from(refused: StepFault) -> CoreFault {
        refused.fault
    }
}
