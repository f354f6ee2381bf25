//! Runs as data.

use crate::acts::{Does, act, columns, rows_of, setup_of};
use pref_core::{Event, Setup};
use pref_table::{Row, Schema, TableFault};
use std::alloc::Global;
use std::test::Fail;

/// A client, what it does, and what is returned to it: what the program prints behind the client's number.
pub type Turn = (u8, Does, &'static str);

/// A run over a table with the column x alone.
pub struct Run {
    pub clients: u8,
    pub capacity: u32,
    pub block: u32,
    /// The x of each row with which the table is opened.
    pub opening: &'static [i64],
    pub turns: &'static [Turn],
}

impl Run {
    /// The setup of its numbers, with a window of 64.
    pub fn setup(&self) -> Result<Setup, &'static str> {
        setup_of(self.clients, self.capacity, self.block, 64)
    }

    pub fn opening_rows(&self, alloc: Global) -> Result<Vec<Row>, TableFault> {
        rows_of(alloc, self.opening)
    }

    pub fn events(&self, alloc: Global) -> Result<Vec<Event>, Fail> {
        events_of(alloc, &columns(alloc)?, self.turns)
    }
}

/// The event of a turn.
pub fn event_of(alloc: Global, schema: &Schema, turn: &Turn) -> Result<Event, Fail> {
    Ok(Event {
        client: turn.0,
        act: act(alloc, schema, turn.1)?,
    })
}

/// The events of all turns.
pub fn events_of(alloc: Global, schema: &Schema, turns: &[Turn]) -> Result<Vec<Event>, Fail> {
    let mut events = Vec::new(alloc);
    for turn in turns {
        events.push(event_of(alloc, schema, turn)?)?;
    }
    Ok(events)
}
