//! How many gets, updates and scans the clients of one board do in a second, each on a thread of its own.
#![tactic(auto)]

mod random;
mod threads;

ghost use Rattle.std.specs.Prelude.{◌≤◌, ◌+◌, IfSome};

use anyhow::Result;
use pref_core::Setup;
use pref_share::BoardName;
use pref_table::{Row, Schema, TableFault};
use random::{ROWS, Random};
use std::alloc::Global;
use std::marker::Brand;
use std::sync::Wait;
use std::thread::Threads;
use std::time::Clock;
use std::{env, io};
use threads::{Plan, Tally, measure};

const USAGE: &str =
    "readers_speed READERS WRITERS SCANNERS MILLISECONDS: 1 to 8 clients of 40000 rows in 65536 slots";

/// What these words ask for.
fn plan_of(words: &[String]) -> Option<Plan>
    ensures { IfSome result (λ plan. plan.readers + plan.writers ≤ plan.setup.clients) }
{
    let [readers, writers, scanners, milliseconds] = words else {
        return None;
    };
    let readers: u8 = readers.parse().ok()?;
    let writers: u8 = writers.parse().ok()?;
    let scanners: u8 = scanners.parse().ok()?;
    let clients = readers.checked_add(writers)?.checked_add(scanners)?;
    Some(Plan {
        setup: Setup::new(clients, 65_536, 65_536, 64)?,
        readers,
        writers,
        milliseconds: milliseconds.parse().ok()?,
    })
}

fn opening_rows(alloc: Global, schema: &Schema) -> Result<Vec<Row>, TableFault> {
    let mut random = Random(0);
    let mut rows = Vec::new(alloc);
    for _ in 0..ROWS {
        rows.push(random.row(schema)?)?;
    }
    Ok(rows)
}

/// How often all clients did each.
fn total(tallies: &[Tally]) -> Tally {
    let mut total = Tally::NONE;
    for tally in tallies {
        total.gets = total.gets.saturating_add(tally.gets);
        total.updates = total.updates.saturating_add(tally.updates);
        total.scans = total.scans.saturating_add(tally.scans);
    }
    total
}

/// Prints how often in a second this was done.
fn print_rate(rt: &impl Print, what: &str, times: u64, milliseconds: u32) -> io::Result<()> {
    let rate = times.saturating_mul(1000) / u64::from(milliseconds).max(1);
    println!(rt; "{what} a second: {rate}")
}

/// Prints how much the clients of a plan do in a second.
fn print_rates(
    rt: &(impl Threads + Wait + Clock + Print + AllocGlobal + Sync),
    plan: Plan,
) -> Result<()> {
    let milliseconds = plan.milliseconds;
    let names = [b"a".as_slice(), b"b", b"c", b"d", b"e", b"f"];
    let schema = Schema::new(rt.alloc(), names.as_slice())?;
    let rows = opening_rows(rt.alloc(), &schema)?;
    let tallies = measure::<Brand, _>(rt, BoardName::new(), &schema, &rows, plan)?;
    let total = total(&tallies);
    print_rate(rt, "Gets", total.gets, milliseconds)?;
    print_rate(rt, "Updates", total.updates, milliseconds)?;
    print_rate(rt, "Scans", total.scans, milliseconds)?;
    Ok(())
}

/// Does what these words ask for.
fn run(
    rt: &(impl Threads + Wait + Clock + Print + AllocGlobal + Sync),
    words: &[String],
) -> Result<()> {
    match plan_of(words) {
        Some(plan) => print_rates(rt, plan),
        None => Ok(rt.println(USAGE)?),
    }
}

fn main(rt: HostRuntime) -> Result<()> {
    let words: Vec<String> = env::args(&rt)?.skip(1).collect(rt.alloc())?;
    run(&rt, &words)
}
