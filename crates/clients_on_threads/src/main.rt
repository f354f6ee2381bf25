//! Clients on threads: the desk inserts a hotel on one thread while the guest's query is scanned on another. The guest then hears the
//! desk's word, so the guest's next query has the new hotel.
#![tactic(auto)]

ghost use Rattle.std.specs.Prelude.{◌≡◌};

use anyhow::{Result, anyhow};
use pref_core::Setup;
use pref_share::{Board, BoardBrand, BoardName, Client, ShareFault, Word, open_board};
use pref_sky::Ranked;
use pref_table::{Row, Schema, read_table};
use pref_term::read_ask;
use std::io;
use std::marker::Brand;
use std::sync::Wait;
use std::thread::{self, Threads};

const HOTELS: &[u8] = b"price,dist\n50,8\n60,5\n80,2\n70,6\n90,2\n100,1\n110,9\n";

const QUESTION: &[u8] = b"best low(price) * low(dist)";

/// Inserts a hotel, and gives the word of what the desk has seen then.
fn insert<J: BoardBrand, R: Wait + AllocGlobal>(
    rt: &R,
    board: &Board<J>,
    desk: &mut Client<J>,
    hotel: Row,
) -> Result<Word<J>, ShareFault> {
    desk.insert(rt, rt.alloc(), board, hotel)?;
    Ok(desk.word())
}

/// Begins the guest's query, and gives the number of blocks to scan.
fn begin<J: BoardBrand, R: Wait + AllocGlobal>(
    rt: &R,
    board: &Board<J>,
    guest: &mut Client<J>,
    schema: &Schema,
) -> Result<u32> {
    let ask = read_ask(rt.alloc(), schema, QUESTION)?;
    Ok(guest.begin(rt, rt.alloc(), board, ask)?)
}

/// Scans the blocks of the guest's query, and gives its answer.
fn answer<J: BoardBrand, R: Wait + AllocGlobal>(
    rt: &R,
    board: &Board<J>,
    guest: &mut Client<J>,
    blocks: u32,
) -> Result<Vec<Ranked>, ShareFault> {
    for _ in 0..blocks {
        guest.scan(rt.alloc())?;
    }
    guest.finish(rt, rt.alloc(), board)
}

fn print_answer(rt: &impl Print, title: &str, answer: &[Ranked]) -> io::Result<()> {
    println!(rt; "{title}:")?;
    for best in answer {
        let (price, dist) = (best.row.cell(0), best.row.cell(1));
        println!(rt; "hotel {} at {price}, {dist} minutes away", best.id)?;
    }
    Ok(())
}

/// Inserts a hotel on one thread while the guest's query is scanned on another, and gives the query's answer. The guest has heard the
/// desk's word then.
fn meet<J: BoardBrand + Send + Sync, R: Threads + Wait + AllocGlobal + Sync>(
    rt: &R,
    board: &Board<J>,
    desk: &mut Client<J>,
    guest: &mut Client<J>,
    hotel: Row,
    blocks: u32,
) -> Result<Vec<Ranked>, ShareFault> {
    let (word, answered) = thread::join(
        rt,
        move || insert(rt, board, desk, hotel),
        || answer(rt, board, guest, blocks),
    );
    guest.hear(word?);
    answered
}

/// What the clients do. The first query began before the insert, and the guest has heard of it when the second begins: so both answers are
/// the same in each run.
fn run_clients<J: BoardBrand + Send + Sync, R: Threads + Wait + Print + AllocGlobal + Sync>(
    rt: &R,
    board: &Board<J>,
    desk: &mut Client<J>,
    guest: &mut Client<J>,
    schema: &Schema,
) -> Result<()> {
    let hotel = Row::of(schema, &[55, 1])?;
    let blocks = begin(rt, board, guest, schema)?;
    let before = meet(rt, board, desk, guest, hotel, blocks)?;
    print_answer(rt, "before the insert", &before)?;

    let blocks = begin(rt, board, guest, schema)?;
    let after = answer(rt, board, guest, blocks)?;
    Ok(print_answer(rt, "after it", &after)?)
}

/// Runs the clients of a new board. A board is closed and never dropped, so no `?` may come between.
fn run_board<J: BoardBrand + Send + Sync, R: Threads + Wait + Print + AllocGlobal + Sync>(
    rt: &R,
    name: BoardName,
    setup: Setup,
    schema: &Schema,
    hotels: &[Row],
) -> Result<()>
    requires book { name.seen.book ≡ J.book }
    requires opening { J.opening ≡ record { limits = setup; rows = hotels.now } }
{
    let (board, mut clients) = open_board::<J, R>(rt, rt.alloc(), name, setup, hotels)?;
    let done = match clients.as_mut_slice() {
        [desk, guest] => run_clients(rt, &board, desk, guest, schema),
        _ => Err(anyhow!("a board of two clients")),
    };
    board.close(rt);
    done
}

fn main(rt: HostRuntime) -> Result<()> {
    let (schema, hotels) = read_table(rt.alloc(), HOTELS)?;
    let setup = Setup::default().with_clients(2)?.with_block(256)?;
    run_board::<Brand, _>(&rt, BoardName::new(), setup, &schema, &hotels)
}
