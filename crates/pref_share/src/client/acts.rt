//! One act of a client, by its calls, and the reply to it. What the table refuses is a reply.

ghost use Rattle.std.specs.Prelude.{◌≡◌, false, IfOk, IfErr};
ghost use Rattle.pref_share.specs.Runs.{Performs, StepsTo, changes_one_row, reply_or_stop};

use crate::board::Board;
use crate::book::BoardBrand;
use crate::client::Client;
use crate::fault::ShareFault;
use pref_core::{Act, CoreFault, RankedList, Reply};
use std::alloc::Global;
use std::sync::Wait;

impl<J: BoardBrand> Client<J> {
    /// Does an act by the call that it is, and gives the reply to it: that of the sequential table, whose refusals are replies. Waits for
    /// the board, unless the act is a scan, a get or a room.
    ///
    /// Refused `OutOfMemory`, which only an act that asks for memory is, and `Closed`, which only a scan, a get or a room is. The client's
    /// counter and its query are as they were then.
    ///
    /// ```rust
    /// match client.act(rt, alloc, board, Act::Get(3))? {
    ///     Reply::Found(id, row) => println!(rt; "{id}: {}", row.cell(0))?,     // 3: 80
    ///     Reply::Refused(fault) => println!(rt; "{fault}")?,
    ///     _ => unreachable!(),
    /// }
    /// ```
    pub fn act<R: Wait>(
        &mut self,
        rt: &R,
        alloc: Global,
        board: &Board<J>,
        act: Act,
    ) -> Result<Reply, ShareFault>
        ensures { Performs J.opening self.old act result self.new }
    {
        match answer(rt, alloc, board, self, act) {
            Ok(reply) => Ok(reply),
            Err(fault) => reply_to_refusal(fault),
        }
    }
}

/// A refusal of the table as a reply, and any other as what stops the client.
fn reply_to_refusal(fault: ShareFault) -> Result<Reply, ShareFault>
    ensures { result ≡ reply_or_stop fault }
{
    match fault {
        ShareFault::Core(CoreFault::OutOfMemory) => Err(fault),
        ShareFault::Core(fault) => Ok(Reply::Refused(fault)),
        other => Err(other),
    }
}

/// The reply where the client's call is not refused. Most acts change one row, and are answered here. The others are
/// answered out of line, since a function clears the room for the result of each of its calls, whichever act comes.
fn answer<J: BoardBrand, R: Wait>(
    rt: &R,
    alloc: Global,
    board: &Board<J>,
    client: &mut Client<J>,
    act: Act,
) -> Result<Reply, ShareFault>
    ensures answered { IfOk result (λ reply. StepsTo J.opening client.old act reply client.new) }
    ensures refused { IfErr result (λ fault. Performs J.opening client.old act (reply_or_stop fault) client.new) }
{
    let _seen = client.seen();
    match act {
        Act::Insert(row) => Ok(Reply::Inserted(client.insert(rt, alloc, board, row)?)),
        Act::Update(id, row) => {
            client.update(rt, alloc, board, id, row)?;
            Ok(Reply::Updated(id))
        }
        Act::Delete(id) => {
            client.delete(rt, alloc, board, id)?;
            Ok(Reply::Deleted(id))
        }
        other => answer_other(rt, alloc, board, client, other),
    }
}

/// The reply to an act that is no change of one row, where the client's call is not refused.
#[inline(never)]
fn answer_other<J: BoardBrand, R: Wait>(
    rt: &R,
    alloc: Global,
    board: &Board<J>,
    client: &mut Client<J>,
    act: Act,
) -> Result<Reply, ShareFault>
    requires { changes_one_row act ≡ false }
    ensures answered { IfOk result (λ reply. StepsTo J.opening client.old act reply client.new) }
    ensures refused { IfErr result (λ fault. Performs J.opening client.old act (reply_or_stop fault) client.new) }
{
    let _seen = client.seen();
    match act {
        Act::Insert(_) | Act::Update(_, _) | Act::Delete(_) => unreachable!(),
        Act::Commit(commit) => {
            let returned = client.commit(rt, alloc, board, commit)?;
            Ok(Reply::Committed(returned))
        }
        Act::Begin(ask) => match client.begin(rt, alloc, board, ask) {
            Ok(blocks) => Ok(Reply::Begun(blocks)),
            Err(refusal) => Err(refusal.fault),
        },
        Act::Scan => Ok(Reply::Left(client.scan(alloc)?)),
        Act::Finish => {
            let ranked = client.finish(rt, alloc, board)?;
            Ok(Reply::Answer(RankedList::of(ranked)))
        }
        Act::Abandon => {
            client.abandon(rt, alloc, board)?;
            Ok(Reply::Abandoned)
        }
        Act::Get(id) => Ok(Reply::Found(id, client.get(id)?)),
        Act::Room => Ok(Reply::Room(client.room()?)),
    }
}
