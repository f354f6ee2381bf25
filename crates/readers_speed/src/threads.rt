//! What clients do again and again on threads of their own, and how often.

ghost use Rattle.std.specs.Prelude.{◌≡◌, ◌+◌, ◌<◌, ◌≤◌, ◌↔◌, IfOk, vec_len, length};
ghost use Rattle.pref_share.specs.Standing.{newcomers};

use crate::random::Random;
use pref_core::Setup;
use pref_share::{Board, BoardBrand, BoardName, Client, ShareFault, open_board};
use pref_table::{Row, Schema};
use pref_term::read_ask;
use std::sync::Wait;
use std::thread::{self, Threads};
use std::time::{Clock, Duration, Instant};

/// What a client does again and again.
#[derive(Clone, Copy)]
enum Does {
    Gets,
    Updates,
    /// Begins a query, scans its one block, which is the whole table, and abandons it.
    Scans,
}

/// How large the table is, how many of its clients do what, and for how long.
#[derive(Clone, Copy)]
pub struct Plan {
    pub setup: Setup,
    pub readers: u8,
    pub writers: u8,
    pub milliseconds: u32,
}

impl Plan {
    /// What the client of a number does: first come the readers, then the writers.
    fn does(self, number: u8) -> Does
        ensures gets { (result ≡ Does.Gets) ↔ (number ≤ self.readers) }
        ensures scans { (result ≡ Does.Scans) ↔ (self.readers + self.writers < number) }
    {
        if number <= self.readers {
            Does::Gets
        } else if number - self.readers <= self.writers {
            Does::Updates
        } else {
            Does::Scans
        }
    }
}

/// How often each was done.
#[derive(Clone, Copy)]
pub struct Tally {
    pub gets: u64,
    pub updates: u64,
    pub scans: u64,
}

impl Tally {
    /// Nothing was done yet.
    pub const NONE: Tally = Tally {
        gets: 0,
        updates: 0,
        scans: 0,
    };

    /// What a client does was done this often, and nothing else.
    fn of(does: Does, times: u64) -> Tally {
        let mut tally = Tally::NONE;
        match does {
            Does::Gets => tally.gets = times,
            Does::Updates => tally.updates = times,
            Does::Scans => tally.scans = times,
        }
        tally
    }
}

/// How many gets are made between two looks at the clock.
const GETS: u64 = 256;

/// The sum of all numbers of a row, which are 0 and up.
fn sum(row: &Row) -> i64 {
    let mut sum = 0i64;
    for column in 0..16 {
        sum = sum.wrapping_add(row.cell(column));
    }
    sum
}

/// How many gets found a row. All its numbers are looked at: their sum is 1 or more.
fn gets<J: BoardBrand>(client: &mut Client<J>, random: &mut Random) -> u64 {
    let mut found = 0u64;
    for _ in 0..GETS {
        if let Ok(row) = client.get(random.id())
            && sum(&row) > 0
        {
            found = found.saturating_add(1);
        }
    }
    found
}

/// What all clients share.
#[derive(Drop)]
struct Run<'a, J: BoardBrand, R> {
    rt: &'a R,
    board: &'a Board<J>,
    schema: &'a Schema,
    plan: Plan,
}

impl<'a, J: BoardBrand, R: Wait + Clock + AllocGlobal> Run<'a, J, R> {
    fn update(&self, client: &mut Client<J>, random: &mut Random) -> Option<()> {
        let row = random.row(self.schema).ok()?;
        let id = random.id();
        client
            .update(self.rt, self.rt.alloc(), self.board, id, row)
            .ok()
    }

    fn scan(&self, client: &mut Client<J>) -> Option<()> {
        let question = b"best low(a) * low(b) * low(c) * low(d) * low(e) * low(f)";
        let ask = read_ask(self.rt.alloc(), self.schema, question).ok()?;
        client
            .begin(self.rt, self.rt.alloc(), self.board, ask)
            .ok()?;
        client.scan(self.rt.alloc()).ok()?;
        client.abandon(self.rt, self.rt.alloc(), self.board).ok()
    }

    /// Does once what a client does, or [`GETS`] gets, and gives how often it was not refused.
    fn once(&self, client: &mut Client<J>, random: &mut Random, does: Does) -> u64 {
        match does {
            Does::Gets => gets(client, random),
            Does::Updates => u64::from(self.update(client, random).is_some()),
            Does::Scans => u64::from(self.scan(client).is_some()),
        }
    }

    /// Does this until the time is over, and gives how often it was not refused.
    fn times(&self, client: &mut Client<J>, does: Does) -> u64 {
        let mut random = Random(u64::from(client.number()));
        let span = Duration::from_millis(u64::from(self.plan.milliseconds));
        let mut times = 0u64;
        let Ok(start) = Instant::now(self.rt) else {
            return times;
        };
        for _ in 0..u64::MAX {
            match start.elapsed(self.rt) {
                Ok(elapsed) if elapsed < span => {
                    times = times.saturating_add(self.once(client, &mut random, does));
                }
                _ => break,
            }
        }
        times
    }

    /// A client does its part of the plan until the time is over.
    fn work(&self, mut client: Client<J>) -> Tally {
        let does = self.plan.does(client.number());
        let times = self.times(&mut client, does);
        Tally::of(does, times)
    }
}

/// What the clients of a new board do at once, each on a thread of its own. Its reader of the published table moves there with it.
pub fn measure<J: BoardBrand + Send + Sync, R: Threads + Wait + Clock + AllocGlobal + Sync>(
    rt: &R,
    name: BoardName,
    schema: &Schema,
    rows: &[Row],
    plan: Plan,
) -> Result<Vec<Tally>, ShareFault>
    requires book { name.seen.book ≡ J.book }
    requires opening { J.opening ≡ record { limits = plan.setup; rows = rows.now } }
    ensures { IfOk result (λ tallies. vec_len tallies ≡ length (newcomers plan.setup.clients)) }
{
    let (board, clients) = open_board::<J, R>(rt, rt.alloc(), name, plan.setup, rows)?;
    let run = Run {
        rt,
        board: &board,
        schema,
        plan,
    };
    let work = |client: Client<J>| -> Tally { run.work(client) };
    let tallies = thread::map_vec(rt, clients, &work);
    board.close(rt);
    Ok(tallies?)
}
