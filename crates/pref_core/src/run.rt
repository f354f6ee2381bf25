//! The replies to a list of events.

ghost use Rattle.std.specs.Prelude.{[], ◌≡◌, ◌<◌, nat_lt, length, take, Err, IfOk, IfErr, ◌⊎◌, ◌↔◌};
ghost use Rattle.pref_core.specs.Step.{replies};
ghost use Rattle.pref_core.specs.MachineParts.{AddsReply};

use crate::event::{Event, Reply};
use crate::fault::CoreFault;
use crate::machine::Machine;
use crate::setup::Setup;
use pref_table::Row;
use std::alloc::{AllocError, Global};

/// The replies up to the first event that there was no memory for, or all of them.
#[derive(Debug, Drop)]
pub struct Part {
    /// One reply to each of the first events, in their order.
    pub replies: Vec<Reply>,
    /// Whether an event was left without a reply, because memory ran out.
    pub stopped: bool,
}

/// The replies to the first events of a list, as many as memory is there for: those that the sequential table gives.
///
/// Refused `Full` where there are more opening rows than slots, and never else. Out of memory, it stops, keeps the
/// replies so far and says so: none, where there is no memory for the opening table. No reply is `OutOfMemory`.
/// Cost: that of each event, and one list of replies.
///
/// ```rust
/// let part = replay_part(alloc, setup, &rows, events)?;
/// if part.stopped {
///     println!(rt; "out of memory behind {} replies", part.replies.len())?;
/// }
/// ```
pub fn replay_part(
    alloc: Global,
    setup: Setup,
    rows: &[Row],
    events: Vec<Event>,
) -> Result<Part, CoreFault>
    ensures replies { IfOk result (λ part. part.replies.items ≡ take (length part.replies.items) (replies setup rows.now events.items)) }
    ensures stopped { IfOk result (λ part. part.stopped ≡ nat_lt (length part.replies.items) (length events.items)) }
    ensures full { result ≡ Err (CoreFault.Full (length rows.now)) ↔ (setup.capacity < length rows.now) }
    ensures other { IfErr result (λ fault. setup.capacity < length rows.now) }
{
    let mut machine = match Machine::new(alloc, setup, rows) {
        Ok(machine) => machine,
        Err(CoreFault::OutOfMemory) => return Ok(no_replies(alloc, &events)),
        Err(fault) => return Err(fault),
    };
    let mut returned = Vec::new(alloc);
    for event in events {
        let reply = machine.reply(alloc, event);
        if push_reply(&mut returned, reply).is_err() {
            return Ok(Part {
                replies: returned,
                stopped: true,
            });
        }
    }
    Ok(Part {
        replies: returned,
        stopped: false,
    })
}

/// The replies to a list of events, one to each: those that the sequential table gives, whatever changes, uses of
/// slots and other queries fall between a query's begin and its end.
///
/// Refused `Full` where there are more opening rows than slots, else `OutOfMemory`; nothing
/// is kept then. No reply is `OutOfMemory`. Cost: that of each event, and one list of replies.
///
/// ```rust
/// let replies = replay(alloc, setup, &rows, events)?;
/// let count = replies.len();     // 2
/// ```
pub fn replay(
    alloc: Global,
    setup: Setup,
    rows: &[Row],
    events: Vec<Event>,
) -> Result<Vec<Reply>, CoreFault>
    ensures replies { IfOk result (λ v. v.items ≡ replies setup rows.now events.items) }
    ensures full { result ≡ Err (CoreFault.Full (length rows.now)) ↔ (setup.capacity < length rows.now) }
    ensures other { IfErr result (λ fault. (fault ≡ CoreFault.OutOfMemory) ⊎ (setup.capacity < length rows.now)) }
{
    let part = replay_part(alloc, setup, rows, events)?;
    if part.stopped {
        return Err(CoreFault::OutOfMemory);
    }
    Ok(part.replies)
}

/// The replies to the first events, where there is no memory for a table.
fn no_replies(alloc: Global, events: &[Event]) -> Part
    ensures replies { result.replies.items ≡ [] }
    ensures stopped { result.stopped ≡ nat_lt 0 (length events.now) }
{
    Part {
        replies: Vec::new(alloc),
        stopped: !events.is_empty(),
    }
}

/// Adds a reply. Out of memory, for the reply or for the list, adds none.
fn push_reply(returned: &mut Vec<Reply>, reply: Result<Reply, AllocError>) -> Result<(), AllocError>
    ensures { AddsReply returned.old.items reply result returned.new.items }
{
    returned.push(reply?)?;
    Ok(())
}
