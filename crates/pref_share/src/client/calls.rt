//! The numbered calls of a client: each joins the history under the lock of the board, and is published once.

ghost use Rattle.std.specs.Prelude.{◌≡◌, ℕ, suc, List, length, true, None, IfOk, IfErr, MatchResult};
ghost use Rattle.pref_core.specs.declared.call.Outcome.TheVariants.{Added, Done};
ghost use Rattle.pref_core.specs.State.{is_change, success_outcome};
ghost use Rattle.pref_core.specs.Stability.{is_end};
ghost use Rattle.pref_core.specs.Step.{committed_of};
ghost use Rattle.pref_share.specs.Clients.{own_refusal, Changes, Commits, Joins, Begins, Finishes, IsAnswer, RefusesChange, RefusesCall, RefusesBegin, RefusesFinish};
ghost use Rattle.pref_share.specs.Book.{IsPageOf};
ghost use Rattle.pref_share.specs.SeenHistory.{JoinsBehind, RefusesToJoin, outcome_or_refusal, first_added_id, GivesNone};

use crate::board::Board;
use crate::book::BoardBrand;
use crate::client::{Asking, Client};
use crate::fault::{BeginFault, ShareFault};
use crate::history::Prefix;
use crate::page::Page;
use pref_core::engine::{BoxedCall, Call, LentCall, Outcome, Query, QueryState};
use pref_core::{BoxedCommit, Change, Commit, Committed, CoreFault};
use pref_sky::Ranked;
use pref_table::Row;
use pref_term::Ask;
use std::alloc::Global;
use std::sync::Wait;

/// A call that joined: all of the history as it is then, which ends with the call, its outcome, and how many commits there are.
#[derive(Drop)]
pub(super) struct Joined<H> {
    seen: H,
    outcome: Outcome,
    stamp: u64,
}

impl<J: BoardBrand> Client<J> {
    /// Inserts a row, and returns its id. Waits for the board.
    ///
    /// Refused `Spent`, `Full` (which is numbered), or `OutOfMemory`.
    ///
    /// ```rust
    /// let id = client.insert(rt, alloc, board, Row::of(&schema, &[55, 1])?)?;     // 8
    /// ```
    pub fn insert<R: Wait>(
        &mut self,
        rt: &R,
        alloc: Global,
        board: &Board<J>,
        row: Row,
    ) -> Result<u64, ShareFault>
        ensures inserted { IfOk result (λ id. Changes J.opening self.old (Call.Insert row) (Added id) self.new) }
        ensures refused { IfErr result (λ fault. RefusesChange J.opening self.old (Call.Insert row) fault self.new) }
    {
        let outcome = self.change(rt, alloc, board, BoxedCall::insert(row))?;
        Ok(first_added_id(outcome))
    }

    /// Puts another row in place of the one of this id, in one commit. Waits for the board.
    ///
    /// Refused `Spent`, or `NoSuchRow` or `Full` (which are numbered).
    ///
    /// ```rust
    /// client.update(rt, alloc, board, id, Row::of(&schema, &[45, 1])?)?;
    /// ```
    pub fn update<R: Wait>(
        &mut self,
        rt: &R,
        alloc: Global,
        board: &Board<J>,
        id: u64,
        row: Row,
    ) -> Result<(), ShareFault>
        ensures updated { IfOk result (λ _. Changes J.opening self.old (Call.Update id row) Done self.new) }
        ensures refused { IfErr result (λ fault. RefusesChange J.opening self.old (Call.Update id row) fault self.new) }
    {
        self.change(rt, alloc, board, BoxedCall::update(id, row))?;
        Ok(())
    }

    /// Deletes the row of this id. Waits for the board.
    ///
    /// Refused `Spent`, or `NoSuchRow` (which is numbered).
    ///
    /// ```rust
    /// client.delete(rt, alloc, board, id)?;
    /// ```
    pub fn delete<R: Wait>(
        &mut self,
        rt: &R,
        alloc: Global,
        board: &Board<J>,
        id: u64,
    ) -> Result<(), ShareFault>
        ensures deleted { IfOk result (λ _. Changes J.opening self.old (Call.Delete id) Done self.new) }
        ensures refused { IfErr result (λ fault. RefusesChange J.opening self.old (Call.Delete id) fault self.new) }
    {
        self.change(rt, alloc, board, BoxedCall::delete(id))?;
        Ok(())
    }

    /// Makes all changes of a commit at once: one call of the history, which is published once. Waits for the board.
    ///
    /// Refused `Spent`, `NoSuchRow` or `Full` (which are numbered, and no row has changed), or `OutOfMemory` where a row is added.
    ///
    /// ```rust
    /// let commit = Commit::of(&[Change::Add(hotel), Change::Remove(3)])?;
    /// let committed = client.commit(rt, alloc, board, BoxedCommit::new(alloc, commit)?)?;
    /// let first = committed.first;     // 8
    /// ```
    pub fn commit<R: Wait>(
        &mut self,
        rt: &R,
        alloc: Global,
        board: &Board<J>,
        commit: BoxedCommit,
    ) -> Result<Committed, ShareFault>
        ensures committed { IfOk result (λ returned. Commits J.opening self.old commit returned self.new) }
        ensures refused { IfErr result (λ fault. RefusesChange J.opening self.old (Call.Commit commit) fault self.new) }
    {
        let changes = change_count(commit.commit());
        let outcome = self.change(rt, alloc, board, BoxedCall::commit(commit))?;
        Ok(committed_of(changes, outcome))
    }

    /// Begins a query of the table as it is now, and returns how many blocks it has to scan. Waits for the board, and copies
    /// nothing.
    ///
    /// Refused `Spent` or `QueryOpen`. A refusal hands the ask back.
    ///
    /// ```rust
    /// let blocks = client.begin(rt, alloc, board, ask)?;     // 4
    /// ```
    pub fn begin<R: Wait>(
        &mut self,
        rt: &R,
        alloc: Global,
        board: &Board<J>,
        ask: Ask,
    ) -> Result<u32, BeginFault>
        ensures begun { IfOk result (λ left. Begins J.opening self.old ask left self.new) }
        ensures refused { IfErr result (λ fault. RefusesBegin J.opening self.old ask fault self.new) }
    {
        if let Some(fault) = self.refusal(&LentCall::begin()) {
            return Err(BeginFault {
                fault: ShareFault::Core(fault),
                ask,
            });
        }
        let Ok(Joined { seen, stamp, .. }) = join(
            rt,
            alloc,
            board,
            self.number,
            &self.seen,
            &mut self.page,
            BoxedCall::begin(),
        ) else {
            unreachable!()
        };
        let query = Query::begin(ask, stamp, &self.setup);
        let begun = seen.again();
        self.asking = Some(Asking {
            query,
            at_begin: begun,
        });
        self.counter += 1;
        self.seen = seen;
        Ok(self.setup.blocks())
    }

    /// Ends the open query with its answer, by the table at its begin. Waits for the board; the answer is put together before.
    ///
    /// Refused `Spent`, `NoQuery` or `NotDone`, or `OutOfMemory`. The query stays open then.
    ///
    /// ```rust
    /// for _ in 0..blocks {
    ///     client.scan(alloc)?;
    /// }
    /// for best in &client.finish(rt, alloc, board)? {
    ///     println!(rt; "row {}, {}", best.id, best.row.cell(0))?;
    /// }
    /// // row 1, 50
    /// // row 2, 60
    /// // row 3, 80
    /// // row 6, 100
    /// ```
    pub fn finish<R: Wait>(
        &mut self,
        rt: &R,
        alloc: Global,
        board: &Board<J>,
    ) -> Result<Vec<Ranked>, ShareFault>
        ensures finished { IfOk result (λ ranked. Finishes J.opening self.old ranked.items self.new) }
        ensures refused { IfErr result (λ fault. RefusesFinish J.opening self.old fault self.new) }
    {
        if let Some(fault) = self.refusal(&LentCall::finish()) {
            return Err(ShareFault::Core(fault));
        }
        let ranked = self.answer(alloc)?;
        self.end(rt, alloc, board, BoxedCall::finish());
        Ok(ranked)
    }

    /// Ends the open query without an answer. Waits for the board.
    ///
    /// Refused `Spent` or `NoQuery`. The query stays open then.
    ///
    /// ```rust
    /// let blocks = client.begin(rt, alloc, board, ask)?;
    /// client.abandon(rt, alloc, board)?;
    /// ```
    pub fn abandon<R: Wait>(
        &mut self,
        rt: &R,
        alloc: Global,
        board: &Board<J>,
    ) -> Result<(), ShareFault>
        ensures abandoned { IfOk result (λ _. Joins J.opening self.old Call.Abandon Done self.new × (self.new.query ≡ None)) }
        ensures refused { IfErr result (λ fault. RefusesCall J.opening self.old Call.Abandon fault self.new) }
    {
        if let Some(fault) = self.refusal(&LentCall::abandon()) {
            return Err(ShareFault::Core(fault));
        }
        self.end(rt, alloc, board, BoxedCall::abandon());
        Ok(())
    }

    /// Why a call gets no number, by the client's own counter and query.
    fn refusal(&self, call: &LentCall<'_>) -> Option<CoreFault>
        ensures { result ≡ own_refusal self.now call.now }
    {
        call.refusal(self.counter, QueryState::of(&self.asking))
    }

    /// A change of rows. Where the row is missing or the table full, the call has joined all the same.
    fn change<R: Wait>(
        &mut self,
        rt: &R,
        alloc: Global,
        board: &Board<J>,
        call: BoxedCall,
    ) -> Result<Outcome, ShareFault>
        requires change { is_change call ≡ true }
        ensures changed { IfOk result (λ returned. Changes J.opening self.old call returned self.new) }
        ensures success_outcome { IfOk result (λ returned. (next_id : ℕ) × (returned ≡ success_outcome next_id call)) }
        ensures refused { IfErr result (λ fault. RefusesChange J.opening self.old call fault self.new) }
    {
        if let Some(fault) = self.refusal(&call.lend()) {
            return Err(ShareFault::Core(fault));
        }
        let Joined { seen, outcome, .. } = join(
            rt,
            alloc,
            board,
            self.number,
            &self.seen,
            &mut self.page,
            call,
        )?;
        self.counter += 1;
        self.seen = seen;
        outcome_or_refusal(outcome)
    }

    /// The open query ends.
    fn end<R: Wait>(&mut self, rt: &R, alloc: Global, board: &Board<J>, call: BoxedCall)
        requires accepted { own_refusal self.old call ≡ None }
        requires ends { is_end call ≡ true }
        ensures { Joins J.opening self.old call Done self.new × (self.new.query ≡ None) }
    {
        let Ok(Joined { seen, .. }) = join(
            rt,
            alloc,
            board,
            self.number,
            &self.seen,
            &mut self.page,
            call,
        ) else {
            unreachable!()
        };
        self.asking = None;
        self.counter += 1;
        self.seen = seen;
    }

    /// The answer of the open query.
    fn answer(&self, alloc: Global) -> Result<Vec<Ranked>, CoreFault>
        requires { own_refusal self.now Call.Finish ≡ None }
        ensures { MatchResult result (λ ranked. IsAnswer J.opening self.now ranked.items) (λ fault. GivesNone self.now fault) }
    {
        match &self.asking {
            Some(asking) => asking.query.answer(alloc),
            None => Err(CoreFault::NoQuery),
        }
    }
}

/// A call joins the history under the lock, by the page of its client, which has seen this much of the history. `Err` is why it
/// gets no number there, or that there is no memory for the places of its rows; nothing has changed then.
fn join<J: BoardBrand, R: Wait>(
    rt: &R,
    alloc: Global,
    board: &Board<J>,
    client: u8,
    seen: &Prefix<J>,
    page: &mut Page,
    call: BoxedCall,
) -> Result<Joined<Prefix<J>>, CoreFault>
    requires page { IsPageOf J.book client (length page.old.ops) page.old }
    ensures joined { IfOk result (λ joined. JoinsBehind J.opening client (length page.old.ops) seen.now call joined) }
    ensures page { IfOk result (λ joined. IsPageOf J.book client (suc (length page.old.ops)) page.new) }
    ensures refused { IfErr result (λ fault. RefusesToJoin J.opening client (length page.old.ops) seen.now call fault) }
    ensures same { IfErr result (λ fault. page.new ≡ page.old) }
{
    let mut guard = board.publisher.lock(rt);
    let publisher = &mut *guard;
    publisher.check(seen, page);
    let outcome = publisher.join(rt, alloc, client, page, call)?;
    Ok(Joined {
        seen: publisher.whole(),
        outcome,
        stamp: publisher.stamp(),
    })
}

/// How many changes a commit makes.
fn change_count(commit: &Commit) -> u32
    ensures { result ≡ length commit.now }
{
    commit.as_slice().len() as u32
}

/// The reply to a commit of this many changes that was done with this outcome.
fn committed_of(changes: u32, outcome: Outcome) -> Committed
    ensures { (next_id : ℕ) (commit : List Change) → changes ≡ length commit → outcome ≡ success_outcome next_id (Call.Commit commit) → result ≡ committed_of next_id commit }
{
    Committed {
        changes,
        first: first_added_id(outcome),
    }
}

/// The id of the first row that a change with this outcome added, 0 where it added none.
fn first_added_id(outcome: Outcome) -> u64
    ensures { result ≡ first_added_id outcome }
{
    match outcome {
        Outcome::Added(first) => first,
        _ => 0,
    }
}

/// The outcome of a change, or the refusal that it is.
fn outcome_or_refusal(outcome: Outcome) -> Result<Outcome, ShareFault>
    ensures { result ≡ outcome_or_refusal outcome }
{
    match outcome.refusal() {
        Some(fault) => Err(ShareFault::Core(fault)),
        None => Ok(outcome),
    }
}
