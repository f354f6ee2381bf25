//! A table with its clients in one thread: a store, a place for one query of each client, and a step of them
//! for each event.

mod seats;

ghost use Rattle.std.specs.Prelude.{true, false, ◌≡◌, ◌<◌, length, Some, Ok, Err, IfOk, IfErr, MatchResult, ◌⊎◌, ◌↔◌};
ghost use Rattle.pref_core.specs.State.{is_change, seat};
ghost use Rattle.pref_core.specs.Step.{opened, committed_of};
ghost use Rattle.pref_core.specs.Operations.{IsPlan};
ghost use Rattle.pref_core.specs.Planned.{op_of};
ghost use Rattle.pref_core.specs.Systems.{Does, Replies, Running, StandsForSystem, Steps, as_reply, without_event};
ghost use Rattle.pref_core.specs.MachineParts.{AnswersAt, Queries, call_of_act, called, change_of_act, is_begin, reply_for, reply_of};
ghost use Rattle.pref_core.specs.declared.call.Call.{Call};
ghost use Rattle.pref_core.specs.declared.event.Reply.{Reply};

use crate::call::{LentCall, Outcome, Planned};
use crate::changes::{Commit, added_by};
use crate::event::{Act, Committed, Event, RankedList, Reply, StepFault};
use crate::fault::CoreFault;
use crate::index::Index;
use crate::query::Query;
use crate::setup::Setup;
use crate::store::Store;
use pref_sky::Ranked;
use pref_table::Row;
use pref_term::Ask;
use seats::{answer_at, is_client, no_queries, scan_at, set};
use std::alloc::{AllocError, Global};
use std::marker::Model;

/// A table with its clients. It always represents a state of the sequential table, and each call is a step of that:
/// what it returns, a refusal too, is that table's reply, and what it leaves is that table's next state. Where it is
/// out of memory, nothing has changed.
///
/// Clients have the numbers from 1 to those of the setup; a call for another is refused `NoSuchClient`. Inserts,
/// updates, deletes, commits, begins, finishes and abandons that succeed are numbered, and so are some refusals of
/// changes: each client makes 2^56 of these at most, and is refused `Spent` then.
///
/// ```rust
/// let mut table = Machine::new(alloc, setup, &rows)?;
/// let blocks = table.begin(1, ask)?;
/// for _ in 0..blocks {
///     table.scan(alloc, 1)?;
/// }
/// let answer = table.finish(alloc, 1)?;
/// ```
pub struct Machine {
    store: Store,
    index: Index,
    setup: Setup,
    queries: Vec<Option<Query>>,
}

// By hand, so that letting one go is a call: a derived `drop` is written out, and proved, at each way out of each
// function that owns one.
impl Drop for Machine {
    fn drop(self) {
        let Machine {
            store: _,
            index: _,
            setup: _,
            queries: _,
        } = self;
    }
}

impl Model for Machine {
    ghost use Rattle.pref_core.specs.Systems.{Running};
    ghost use Rattle.pref_core.specs.MachineParts.{IsInOrder};
    ghost use Rattle.pref_term.specs.PreferenceCode.{coded_question};
    ghost use Rattle.std.specs.Coded.{codes};

    ghost Value = { Running };

    ghost coded = { Prim.hlevel (codes, coded_question) };

    ghost view = { λ m. record { contents = m.store; limits = m.setup; scans = m.queries.items } };

    ghost invariant = { λ m. IsInOrder (record { contents = m.store; limits = m.setup; scans = m.queries.items }) m.index };
}

impl Machine {
    /// A table with these rows as commits 1, 2, .. with ids 1, 2, .., and no open query.
    ///
    /// Refused `Full` where there are more rows than slots, else `OutOfMemory`.
    ///
    /// ```rust
    /// let (schema, hotels) = read_table(alloc, HOTELS)?;
    /// let setup = Setup::default().with_clients(2)?.with_block(256)?;
    /// let mut table = Machine::new(alloc, setup, &hotels)?;
    /// ```
    pub fn new(alloc: Global, setup: Setup, rows: &[Row]) -> Result<Machine, CoreFault>
        ensures opened { IfOk result (λ machine. (machine.limits ≡ setup) × StandsForSystem machine (opened setup rows.now)) }
        ensures full { result ≡ Err (CoreFault.Full (length rows.now)) ↔ (setup.capacity < length rows.now) }
        ensures other { IfErr result (λ fault. (fault ≡ CoreFault.OutOfMemory) ⊎ (setup.capacity < length rows.now)) }
    {
        let store = Store::new(alloc, &setup, rows)?;
        let index = Index::new(alloc, &store)?;
        let queries = no_queries(alloc, setup.clients())?;
        Ok(Machine {
            store,
            index,
            setup,
            queries,
        })
    }

    /// Inserts a row, and returns its id. Ids are given from 1 on, without a gap.
    ///
    /// Refused `Spent`; `Full`, which is numbered; or `OutOfMemory`. No row has changed then, and no id is used. Cost:
    /// constant in the slots.
    ///
    /// ```rust
    /// let id = table.insert(alloc, 2, &Row::of(&schema, &[55, 1])?)?;     // 8
    /// ```
    pub fn insert(&mut self, alloc: Global, client: u8, row: &Row) -> Result<u64, CoreFault>
        ensures { Does self.old client (Act.Insert row.now) (as_reply Reply.Inserted result) self.new }
    {
        let id = self.store.next_id();
        self.change(alloc, client, &LentCall::insert(row))
            .and(Ok(id))
    }

    /// Puts another row in place of the one of this id, in one commit.
    ///
    /// Refused `Spent`; or `NoSuchRow` or `Full`, which are numbered. No row has changed then. Cost: constant in the
    /// slots.
    ///
    /// ```rust
    /// table.update(alloc, 2, id, &Row::of(&schema, &[45, 1])?)?;
    /// ```
    pub fn update(&mut self, alloc: Global, client: u8, id: u64, row: &Row) -> Result<(), CoreFault>
        ensures { Does self.old client (Act.Update id row.now) (as_reply (λ _. Reply.Updated id) result) self.new }
    {
        self.change(alloc, client, &LentCall::update(id, row))
    }

    /// Deletes the row of this id.
    ///
    /// Refused `Spent`; or `NoSuchRow`, which is numbered. No row has changed then. Cost: constant in the slots.
    ///
    /// ```rust
    /// table.delete(alloc, 2, id)?;
    /// ```
    pub fn delete(&mut self, alloc: Global, client: u8, id: u64) -> Result<(), CoreFault>
        ensures { Does self.old client (Act.Delete id) (as_reply (λ _. Reply.Deleted id) result) self.new }
    {
        self.change(alloc, client, &LentCall::delete(id))
    }

    /// Makes all changes of a commit at once, and returns how many they are and the id of the first row that they add.
    ///
    /// Refused `Spent`; `NoSuchRow` or `Full`, which are numbered; or `OutOfMemory` where a row is added. No row has
    /// changed then. Cost: constant in the slots.
    ///
    /// ```rust
    /// let commit = Commit::of(&[Change::Add(hotel), Change::Remove(3)])?;
    /// let committed = table.commit(alloc, 2, &commit)?;     // Committed { changes: 2, first: 8 }
    /// ```
    pub fn commit(
        &mut self,
        alloc: Global,
        client: u8,
        commit: &Commit,
    ) -> Result<Committed, CoreFault>
        ensures { Does self.old client (Act.Commit commit.now) (as_reply Reply.Committed result) self.new }
    {
        let done = committed_of(self.store.next_id(), commit);
        self.change(alloc, client, &LentCall::commit(commit))
            .and(Ok(done))
    }

    /// Begins a query of the table as it is now, and returns how many blocks it has to scan. Takes no memory, and
    /// copies nothing.
    ///
    /// Refused `Spent` or `QueryOpen`. Nothing has changed then, and the ask is let go: [`Machine::step`] hands it
    /// back. Cost: constant in the slots.
    ///
    /// ```rust
    /// let blocks = table.begin(1, read_ask(alloc, &schema, b"best low(price)")?)?;     // 4
    /// ```
    pub fn begin(&mut self, client: u8, ask: Ask) -> Result<u32, CoreFault>
        ensures { Does self.old client (Act.Begin ask) (as_reply Reply.Begun result) self.new }
    {
        let call = LentCall::begin();
        match self.plan(client, &call) {
            Ok(op) => Ok(self.begin_planned(client, &op, ask)),
            Err(fault) => Err(fault),
        }
    }

    /// Scans the next block for the client's query, and returns how many are left.
    ///
    /// Refused `NoQuery` or `AllScanned`, or `OutOfMemory`. The query is then as it was. Cost: each slot of the block
    /// that was ever used, once, and then that of adding its rows to a [`Partial`](pref_sky::Partial).
    ///
    /// ```rust
    /// let blocks = table.begin(1, ask)?;
    /// for _ in 0..blocks {
    ///     table.scan(alloc, 1)?;
    /// }
    /// ```
    #[tactic(auto, using(std::proofs::lemmas::Grind::common_steps, crate::proofs::MachineActs::scan_does, std::proofs::lemmas::List::with_items_is))]
    pub fn scan(&mut self, alloc: Global, client: u8) -> Result<u32, CoreFault>
        ensures { Does self.old client Act.Scan (as_reply Reply.Left result) self.new }
    {
        scan_at(&mut self.queries, client, alloc, &self.store)
    }

    /// Ends the client's query with its answer, by the table at its begin.
    ///
    /// Refused `Spent`, `NoQuery` or `NotDone`, or `OutOfMemory`. The query stays open then. Cost: the rows that the
    /// query holds, and the ended versions that are kept for it.
    ///
    /// ```rust
    /// for _ in 0..table.begin(1, ask)? {
    ///     table.scan(alloc, 1)?;
    /// }
    /// let answer = table.finish(alloc, 1)?;
    /// for best in &answer {
    ///     println!(rt; "row {}, {}", best.id, best.row.cell(0))?;
    /// }
    /// // row 1, 50
    /// // row 2, 60
    /// // row 3, 80
    /// // row 6, 100
    /// ```
    pub fn finish(&mut self, alloc: Global, client: u8) -> Result<RankedList, CoreFault>
        ensures { Does self.old client Act.Finish (as_reply Reply.Answer result) self.new }
    {
        let call = LentCall::finish();
        let op = match self.plan(client, &call) {
            Ok(op) => op,
            Err(fault) => return Err(fault),
        };
        let ranked = self.answer(alloc, client)?;
        self.perform(client, &op, None);
        Ok(RankedList::of(ranked))
    }

    /// Ends the client's query without an answer.
    ///
    /// Refused `Spent` or `NoQuery`. Nothing has changed then. Cost: the ended versions that are kept for the query.
    ///
    /// ```rust
    /// let blocks = table.begin(1, ask)?;
    /// table.abandon(1)?;
    /// ```
    pub fn abandon(&mut self, client: u8) -> Result<(), CoreFault>
        ensures { Does self.old client Act.Abandon (as_reply (λ _. Reply.Abandoned) result) self.new }
    {
        let call = LentCall::abandon();
        match self.plan(client, &call) {
            Ok(op) => {
                self.perform(client, &op, None);
                Ok(())
            }
            Err(fault) => Err(fault),
        }
    }

    /// The row of an id.
    ///
    /// Refused `NoSuchRow`. Cost: constant in the slots.
    ///
    /// ```rust
    /// let price = table.get(1, 3)?.cell(0);     // 80
    /// ```
    pub fn get(&self, client: u8, id: u64) -> Result<Row, CoreFault>
        ensures { Does self.now client (Act.Get id) (as_reply (Reply.Found id) result) self.now }
    {
        if !is_client(&self.queries, client) {
            return Err(CoreFault::NoSuchClient);
        }
        match self.store.get_at(&self.index, id) {
            Some(row) => Ok(row),
            None => Err(CoreFault::NoSuchRow { id }),
        }
    }

    /// How many more versions there is room for, 0 to the slots of the setup. Refused `NoSuchClient` alone. Cost:
    /// constant in the slots.
    ///
    /// ```rust
    /// let room = table.room(1)?;     // 1017
    /// ```
    pub fn room(&self, client: u8) -> Result<u32, CoreFault>
        ensures { Does self.now client Act.Room (as_reply Reply.Room result) self.now }
    {
        if !is_client(&self.queries, client) {
            return Err(CoreFault::NoSuchClient);
        }
        Ok(self.store.room())
    }

    /// One event: its reply, and the next state, are those of the sequential table. A refused event is handed back.
    ///
    /// `OutOfMemory` comes for a scan, a finish and a change that adds a row alone, where the sequential table does not
    /// refuse it, and nothing has changed then; every other refusal is the sequential table's, and so is what it
    /// leaves. Cost: a change, a get, a room and a begin are constant in the slots, a scan reads its block, a finish
    /// and an abandon go over the ended versions that are kept for their query.
    ///
    /// ```rust
    /// let reply = table.step(alloc, event)?;
    /// println!(rt; "{reply:?}")?;     // Inserted(8)
    /// ```
    pub fn step(&mut self, alloc: Global, event: Event) -> Result<Reply, StepFault>
        ensures { Steps self.old event result self.new }
    {
        match &event.act {
            Act::Begin(_) => self.begin_event(event),
            act => handed_back(self.act(alloc, event.client, act), event),
        }
    }

    /// The reply to one event, which may be a refusal: what [`Machine::step`] returns, with no event handed back.
    ///
    /// `Err` is out of memory. It comes for a scan, a finish and a change that adds a row alone, where the sequential
    /// table does not refuse it, and nothing has changed then.
    ///
    /// ```rust
    /// match table.reply(alloc, event)? {
    ///     Reply::Inserted(id) => println!(rt; "row {id}")?,     // row 8
    ///     Reply::Refused(fault) => println!(rt; "{fault}")?,
    ///     _ => {}
    /// }
    /// ```
    pub fn reply(&mut self, alloc: Global, event: Event) -> Result<Reply, AllocError>
        ensures { Replies self.old event result self.new }
    {
        reply_of(self.step(alloc, event))
    }

    /// An act that begins no query, which it reads where it is: no change is copied here.
    fn act(&mut self, alloc: Global, client: u8, act: &Act) -> Result<Reply, CoreFault>
        requires { is_begin act.now ≡ false }
        ensures { Does self.old client act.now result self.new }
    {
        match act {
            Act::Insert(row) => self.insert(alloc, client, row).map(Reply::Inserted),
            Act::Update(id, row) => {
                self.update(alloc, client, *id, row)
                    .and(Ok(Reply::Updated(*id)))
            }
            Act::Delete(id) => self.delete(alloc, client, *id).and(Ok(Reply::Deleted(*id))),
            Act::Commit(commit) => {
                self.commit(alloc, client, commit.commit())
                    .map(Reply::Committed)
            }
            Act::Begin(_) => unreachable!(),
            Act::Scan => self.scan(alloc, client).map(Reply::Left),
            Act::Finish => self.finish(alloc, client).map(Reply::Answer),
            Act::Abandon => self.abandon(client).and(Ok(Reply::Abandoned)),
            Act::Get(id) => self.get(client, *id).map(|row| Reply::Found(*id, row)),
            Act::Room => self.room(client).map(Reply::Room),
        }
    }

    /// The plan of a call, or its refusal.
    #[inline(always)]
    fn plan<'a>(&self, client: u8, call: &'a LentCall<'a>) -> Result<Planned<'a>, CoreFault>
        ensures planned { IfOk result (λ op. IsPlan self.now.contents client call.now (op_of op)) }
        ensures refused { IfErr result (λ fault. (act : Act) → call_of_act act ≡ Some call.now → Does self.now client act (Err fault) self.now) }
    {
        self.store.look_up(&self.index, client, call)
    }

    /// A call on a query is done by its plan, and leaves its client this query.
    fn perform(&mut self, client: u8, op: &Planned<'_>, query: Option<Query>)
        requires { Queries self.old client (op_of op.now) query }
        ensures { self.new ≡ called self.old client (op_of op.now) query }
    {
        self.store.perform(op);
        set(&mut self.queries, client, query);
    }

    /// The answer of the client's query.
    fn answer(&self, alloc: Global, client: u8) -> Result<Vec<Ranked>, CoreFault>
        ensures { AnswersAt (seat client self.now.scans) result }
    {
        answer_at(&self.queries, client, alloc)
    }

    /// A change, whose act returns what `change_of_act` says where it is made.
    fn change(&mut self, alloc: Global, client: u8, call: &LentCall<'_>) -> Result<(), CoreFault>
        requires { is_change call.now ≡ true }
        ensures { (act : Act) (done : Reply) → change_of_act self.old.contents.next_id act ≡ Some (call.now, done) → Does self.old client act (as_reply (λ _. done) result) self.new }
    {
        let op = match self.plan(client, call) {
            Ok(op) => op,
            Err(fault) => return Err(fault),
        };
        self.store.reindex(alloc, &mut self.index, &op)?;
        self.store.perform(&op);
        result_of(op.outcome)
    }

    /// A begin by its event, which a refusal hands back.
    #[tactic(auto, using(std::proofs::lemmas::Grind::common_steps, crate::proofs::MachineActs::steps_does))]
    fn begin_event(&mut self, event: Event) -> Result<Reply, StepFault>
        requires { is_begin event.act ≡ true }
        ensures { Steps self.old event result self.new }
    {
        let call = LentCall::begin();
        let op = match self.plan(event.client, &call) {
            Ok(op) => op,
            Err(fault) => return Err(StepFault { fault, event }),
        };
        let Event { client, act } = event;
        let Act::Begin(ask) = act else { unreachable!() };
        Ok(Reply::Begun(self.begin_planned(client, &op, ask)))
    }

    /// A query begins, by its plan, and has this many blocks to scan.
    fn begin_planned(&mut self, client: u8, op: &Planned<'_>, ask: Ask) -> u32
        requires { IsPlan self.old.contents client Call.Begin (op_of op.now) }
        ensures { Does self.old client (Act.Begin ask) (Ok (Reply.Begun result)) self.new }
    {
        let count = self.setup.blocks();
        let query = Query::begin(ask, self.store.stamp(), &self.setup);
        self.perform(client, op, Some(query));
        count
    }
}

/// The reply to a commit that succeeds, by the id of the next row.
fn committed_of(next_id: u64, commit: &Commit) -> Committed
    ensures { result ≡ committed_of next_id commit.now }
{
    let changes = commit.as_slice();
    let first = if added_by(changes) > 0 { next_id } else { 0 };
    Committed {
        changes: changes.len() as u32,
        first,
    }
}

/// The result of a change, by its outcome.
fn result_of(outcome: Outcome) -> Result<(), CoreFault>
    ensures { (done : Reply) → as_reply (λ _. done) result ≡ reply_for outcome done }
{
    match outcome.refusal() {
        Some(fault) => Err(fault),
        None => Ok(()),
    }
}

/// The reply to an event by what its step returns: a refusal is one, and out of memory is none.
#[tactic(auto, using(crate::proofs::RepliesLaws::replied_refused))]
fn reply_of(returned: Result<Reply, StepFault>) -> Result<Reply, AllocError>
    ensures { result ≡ reply_of (without_event returned) }
{
    match returned {
        Ok(reply) => Ok(reply),
        Err(refused) => match refused.fault {
            CoreFault::OutOfMemory => Err(AllocError),
            fault => Ok(Reply::Refused(fault)),
        },
    }
}

/// A refusal, with the event that it hands back.
fn handed_back(returned: Result<Reply, CoreFault>, event: Event) -> Result<Reply, StepFault>
    ensures alike { without_event result ≡ returned }
    ensures event { IfErr result (λ fault. fault.event ≡ event) }
{
    match returned {
        Ok(reply) => Ok(reply),
        Err(fault) => Err(StepFault { fault, event }),
    }
}
