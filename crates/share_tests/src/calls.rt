//! Clients of one board, one call after the other.

use crate::acts::best_low;
use crate::boards::{Play, begin_low, first_two, play_on_a_new_board};
use crate::same::assert_same;
use pref_core::CoreFault;
use pref_share::{Board, BoardBrand, Client, ShareFault};
use std::alloc::Global;
use std::io::Print;
use std::process::Abort;
use std::sync::Wait;
use std::test::Fail;
use test_runs::{
    AN_OPEN_QUERY_KEEPS_ITS_VERSION, Does, REFUSED_CALLS_HAVE_NOT_JOINED, Run, Turn, act_of,
    refused_text, reply_text, runs_of_single_changes,
};

/// The reply to a call of a client that there is not.
const NO_SUCH_CLIENT: &str = "refused 1: no such client";

/// What is returned to one call of a client.
fn returned<J: BoardBrand, R: Wait>(
    rt: &R,
    alloc: Global,
    board: &Board<J>,
    client: &mut Client<J>,
    does: Does,
) -> Result<String, Fail> {
    match client.act(rt, alloc, board, act_of(alloc, does)?) {
        Ok(reply) => Ok(reply_text(alloc, &reply)?),
        Err(ShareFault::Core(fault)) => Ok(refused_text(alloc, fault)?),
        Err(fault) => Err(Fail::from(fault)),
    }
}

/// What is returned to the clients of a board, one call after the other, is what their turns say. A board has no client of another
/// number, so the turns of such have to say so.
fn check_turns<J: BoardBrand, R: Wait + Abort>(
    rt: &R,
    alloc: Global,
    board: &Board<J>,
    clients: &mut [Client<J>],
    turns: &[Turn],
) -> Result<(), Fail> {
    for (number, turn) in turns.iter().enumerate() {
        if let Some(client) = clients.get_mut(usize::from(turn.0).wrapping_sub(1)) {
            let text = returned(rt, alloc, board, client, turn.1)?;
            assert_same(rt, number, &text.as_str(), &turn.2);
        } else {
            assert_same(rt, number, &NO_SUCH_CLIENT, &turn.2);
        }
    }
    Ok(())
}

/// The clients do what turns say.
#[derive(Drop)]
struct Turns<'a> {
    turns: &'a [Turn],
}

impl<'a> Play for Turns<'a> {
    fn play<J: BoardBrand, R: Wait + Print + Abort + AllocGlobal>(
        &self,
        rt: &R,
        board: &Board<J>,
        clients: &mut Vec<Client<J>>,
    ) -> Result<(), Fail> {
        check_turns(rt, rt.alloc(), board, clients, self.turns)
    }
}

/// What is returned to the clients of a new board is what the turns of a run say.
fn check_run(rt: &(impl Wait + Print + Abort + AllocGlobal), run: &Run) -> Result<(), Fail> {
    let opening = run.opening_rows(rt.alloc())?;
    let turns = run.turns;
    play_on_a_new_board(rt, run.setup()?, &opening, &Turns { turns })
}

/// A loop over a list that is lent, since a proof pays for all that a loop over a `static` reads.
pub fn check_runs(
    rt: &(impl Wait + Print + Abort + AllocGlobal),
    runs: &[Run],
) -> Result<(), Fail> {
    for run in runs {
        check_run(rt, run)?;
    }
    Ok(())
}

/// The clients of a board, one call after the other.
#[test]
fn rows_by_clients(rt: HostRuntime) -> Result<(), Fail> {
    check_runs(&rt, runs_of_single_changes())
}

#[test]
fn refused_calls_have_not_joined(rt: HostRuntime) -> Result<(), Fail> {
    check_run(&rt, &REFUSED_CALLS_HAVE_NOT_JOINED)
}

/// A begin beside an open query is refused. The refusal is an error: its text is that of its fault, which it becomes.
fn check_second_begin<J: BoardBrand, R: Wait + Abort>(
    rt: &R,
    alloc: Global,
    board: &Board<J>,
    client: &mut Client<J>,
) -> Result<(), Fail> {
    match client.begin(rt, alloc, board, best_low(alloc)?) {
        Ok(_blocks) => panic!(rt; "let in"),
        Err(refused) => {
            let text = format!(in alloc; "{refused}")?;
            let found = (text.as_str(), ShareFault::from(refused));
            let wanted = ("query open", ShareFault::Core(CoreFault::QueryOpen));
            assert_same(rt, "a second begin", &found, &wanted);
            Ok(())
        }
    }
}

/// The second client, who is the last, begins a query of one block, is refused another, and is dropped. What is returned to the first then
/// is what the turns say.
#[derive(Drop)]
struct DroppedOpen<'a> {
    turns: &'a [Turn],
}

impl<'a> Play for DroppedOpen<'a> {
    fn play<J: BoardBrand, R: Wait + Print + Abort + AllocGlobal>(
        &self,
        rt: &R,
        board: &Board<J>,
        clients: &mut Vec<Client<J>>,
    ) -> Result<(), Fail> {
        let (_first, last) = first_two(rt, clients);
        let blocks = begin_low(rt, rt.alloc(), board, last)?;
        assert_same(rt, "a client that is dropped", &blocks, &1);
        check_second_begin(rt, rt.alloc(), board, last)?;
        drop(clients.pop());
        check_turns(rt, rt.alloc(), board, clients, self.turns)
    }
}

/// The query of a client that is dropped stays open: the other is returned what it is where the query is never ended.
#[test]
fn dropped_open(rt: HostRuntime) -> Result<(), Fail> {
    let run = &AN_OPEN_QUERY_KEEPS_ITS_VERSION;
    let opening = run.opening_rows(rt.alloc())?;
    let (_begin, turns) = run.turns.split_first().ok_or("a begin")?;
    play_on_a_new_board(&rt, run.setup()?, &opening, &DroppedOpen { turns })
}
