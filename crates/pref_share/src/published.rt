//! The store that readers take, with the history that it represents, and the rule over it.
//!
//! The rule says that there is one opening and one book, over which the published store represents its history. Each seat of
//! the writer or of a reader knows them from its first step on.

use crate::book::Entries;
use atomic_table::{Join, Split};
use crossbeam_utils::rule::{Outcome, Protocol};
use left_right::writer::Writer;
use left_right::{Absorb, reader};
use pref_core::engine::{BoxedOp, Store};
use std::alloc::AllocError;

/// A store, and what shows the history that made it.
#[derive(Drop)]
pub struct Published {
    pub store: Store,
    pub len: u64,
    pub seen: Entries,
}

/// An operation that joined the history, and what shows the history that it ends.
#[derive(Drop)]
pub struct Stamp {
    pub op: BoxedOp,
    pub len: u64,
    pub seen: Entries,
}

impl Absorb<Stamp> for Published {
    ghost use Rattle.pref_share.specs.Views.{stamped};

    type State = Published;

    ghost state = { λ p. p };

    ghost applied = { stamped };

    ghost never_fails = { Unit {0} };

    fn absorb_first(&mut self, operation: &Stamp, _other: &Published) -> Result<(), AllocError> {
        let call = operation.op.call.lend();
        self.store.apply_planned(&operation.op.planned(&call));
        self.len = operation.len;
        self.seen = operation.seen.again();
        Ok(())
    }
}

/// The opening of a board, and what shows its book. No value of it is made.
pub struct Base {
    pub opening: Store,
    pub seen: Entries,
}

/// The knowledge of a seat. No value of it is made.
pub struct View {
    pub base: Option<Base>,
}

/// The rule of the published store.
pub struct Rule;

impl Protocol<Published, View> for Rule {
    ghost use Rattle.pref_share.specs.Views.{Kept, newcomer};

    ghost holds = { Kept };

    ghost first = { newcomer };
}

/// The writer's first step.
pub(crate) struct OpenStep;

impl Outcome<Published, View> for OpenStep {
    ghost use Rattle.pref_share.specs.Views.{Opens};

    ghost then = { Opens };
}

/// A step of the writer that publishes.
pub(crate) struct PublishStep;

impl Outcome<Published, View> for PublishStep {
    ghost use Rattle.pref_share.specs.Views.{Stays};

    ghost then = { Stays };
}

/// A step of a reader that reads.
pub(crate) struct ReadStep;

impl Outcome<Published, View> for ReadStep {
    ghost use Rattle.pref_share.specs.Views.{Reads};

    ghost then = { Reads };
}

/// The knowledge that the writer passes to a new reader: all that it has.
pub(crate) struct GiveView;

impl Split<View> for GiveView {
    ghost left = { λ v. v };

    ghost right = { λ v. v };
}

/// The knowledge that a new reader takes over: all of that.
pub(crate) struct TakeView;

impl Join<View> for TakeView {
    ghost use Rattle.pref_share.specs.Views.{hearing, newcomer};

    ghost both = { hearing };

    ghost spent = { newcomer };
}

pub(crate) type StoreReader = reader::Reader<Published, View, Rule>;

/// A reader that is let in.
pub(crate) type StoreReading = reader::Reading<Published, View, Rule>;

pub(crate) type StoreWriter = Writer<Published, Stamp, View, Rule>;
