//! Rounds of begin and abandon, each call reported by a line once it is answered. `tests/count_begin_and_abandon.sh` counts the requests
//! for memory from line to line, so what is printed beforehand is no part of a call's.

use crate::acts::best_low;
use crate::boards::{Play, begin, first_two, play_on_a_new_board};
use pref_share::{Board, BoardBrand, Client};
use pref_term::Ask;
use std::alloc::Global;
use std::io::Print;
use std::process::Abort;
use std::sync::Wait;
use std::test::Fail;
use test_runs::{rows_of, setup_of};

const ROUNDS: usize = 20;

fn asks(alloc: Global) -> Result<Vec<Ask>, Fail> {
    let mut asks = Vec::new(alloc);
    for _round in 0..ROUNDS {
        asks.push(best_low(alloc)?)?;
    }
    Ok(asks)
}

/// Begins each of these queries, and abandons it.
fn begin_and_abandon<J: BoardBrand, R: Wait + Print + Abort>(
    rt: &R,
    alloc: Global,
    board: &Board<J>,
    client: &mut Client<J>,
    asks: Vec<Ask>,
) -> Result<(), Fail> {
    println!(rt; "opened")?;
    for ask in asks {
        begin(rt, alloc, board, client, ask);
        println!(rt; "begun")?;
        client.abandon(rt, alloc, board)?;
        println!(rt; "abandoned")?;
    }
    Ok(())
}

/// The first client begins and abandons queries.
struct Rounds;

impl Play for Rounds {
    fn play<J: BoardBrand, R: Wait + Print + Abort + AllocGlobal>(
        &self,
        rt: &R,
        board: &Board<J>,
        clients: &mut Vec<Client<J>>,
    ) -> Result<(), Fail> {
        let asks = asks(rt.alloc())?;
        let (client, _other) = first_two(rt, clients);
        begin_and_abandon(rt, rt.alloc(), board, client, asks)
    }
}

#[test]
fn rounds_of_begin_and_abandon(rt: HostRuntime) -> Result<(), Fail> {
    let opening = rows_of(rt.alloc(), &[5, 4, 6, 3, 7, 2, 8, 1])?;
    play_on_a_new_board(&rt, setup_of(2, 16, 4, 64)?, &opening, &Rounds)
}
