//! A table in one thread: client 2 inserts a hotel while a query of client 1 is open. That query answers the table as it was when it
//! began, and the next one has the new hotel.
#![tactic(auto)]

use anyhow::Result;
use pref_core::{Machine, RankedList, Setup};
use pref_table::{Row, Schema, read_table};
use pref_term::read_ask;
use std::alloc::Global;
use std::io;

const HOTELS: &[u8] = b"price,dist\n50,8\n60,5\n80,2\n70,6\n90,2\n100,1\n110,9\n";

const QUESTION: &[u8] = b"best low(price) * low(dist)";

/// Begins a query of a client, and gives the number of blocks to scan.
fn begin(alloc: Global, table: &mut Machine, schema: &Schema, client: u8) -> Result<u32> {
    let ask = read_ask(alloc, schema, QUESTION)?;
    Ok(table.begin(client, ask)?)
}

/// Scans the blocks of the client's query, and gives its answer.
fn answer(alloc: Global, table: &mut Machine, client: u8, blocks: u32) -> Result<RankedList> {
    for _ in 0..blocks {
        table.scan(alloc, client)?;
    }
    Ok(table.finish(alloc, client)?)
}

fn print_answer(rt: &impl Print, client: u8, answer: &RankedList) -> io::Result<()> {
    println!(rt; "client {client}:")?;
    for best in answer {
        let (price, dist) = (best.row.cell(0), best.row.cell(1));
        println!(rt; "hotel {} at {price}, {dist} minutes away", best.id)?;
    }
    Ok(())
}

/// Runs two clients, one call after the other.
fn run_clients(rt: &impl Print, alloc: Global, table: &mut Machine, schema: &Schema) -> Result<()> {
    let blocks = begin(alloc, table, schema, 1)?;
    let hotel = Row::of(schema, &[55, 1])?;
    table.insert(alloc, 2, &hotel)?;
    print_answer(rt, 1, &answer(alloc, table, 1, blocks)?)?;

    let blocks = begin(alloc, table, schema, 2)?;
    print_answer(rt, 2, &answer(alloc, table, 2, blocks)?)?;
    Ok(())
}

fn main(rt: HostRuntime) -> Result<()> {
    let (schema, hotels) = read_table(rt.alloc(), HOTELS)?;
    let setup = Setup::default().with_clients(2)?.with_block(256)?;
    let mut table = Machine::new(rt.alloc(), setup, &hotels)?;
    run_clients(&rt, rt.alloc(), &mut table, &schema)
}
