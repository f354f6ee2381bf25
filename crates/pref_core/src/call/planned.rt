//! An op that lends its call.

ghost use Rattle.std.specs.Prelude.{◌≡◌};

use crate::call::{LentCall, Op, Outcome, SlotList};

/// An [`Op`] whose call is lent: it takes 80 bytes, and an op 1,240, since a call has room for a commit of eight rows.
#[derive(Clone, Copy)]
pub struct Planned<'a> {
    /// Who calls, 1 to 8.
    pub client: u8,
    /// The call's number, one above the client's last.
    pub number: u64,
    /// The call.
    pub call: &'a LentCall<'a>,
    /// The slots of the versions that begin, in the order of the changes that begin them.
    pub slots: SlotList,
    /// The outcome of the call.
    pub outcome: Outcome,
}

impl Planned<'_> {
    ghost use Rattle.pref_core.specs.Planned.{op_of};

    /// The op with a call of its own: copies the rows that the call lends.
    pub fn op(&self) -> Op
        ensures { result ≡ op_of self.now }
    {
        Op {
            client: self.client,
            number: self.number,
            call: self.call.call(),
            slots: self.slots,
            outcome: self.outcome,
        }
    }
}
