//! New boards with their clients.

ghost use Rattle.std.specs.Prelude.{◌≡◌};

use crate::acts::best_low;
use pref_core::{Act, Reply, Setup};
use pref_share::{Board, BoardBrand, BoardName, Client, Gate, ShareFault, open_board, run_all};
use pref_table::Row;
use pref_term::Ask;
use std::alloc::Global;
use std::io::Print;
use std::marker::Brand;
use std::process::Abort;
use std::sync::Wait;
use std::test::Fail;
use std::thread::Threads;

/// The first two clients of a board. Lent, since a proof pays for each way out of a function that owns a client of its own.
pub fn first_two<'a, J: BoardBrand>(
    rt: &impl Abort,
    clients: &'a mut [Client<J>],
) -> (&'a mut Client<J>, &'a mut Client<J>) {
    match clients {
        [first, second, ..] => (first, second),
        _ => panic!(rt; "there are two clients"),
    }
}

/// A gate that holds no client up.
pub struct Open;

impl Gate for Open {
    ghost use Rattle.std.specs.Prelude.{◌≡◌, true};

    ghost says = { λ gate client turn answer. answer ≡ true };

    fn before(&self, _client: u8, _turn: usize) -> bool {
        true
    }

    fn after(&self, _client: u8, _turn: usize) {}
}

/// Begins a query, and returns how many blocks it has.
pub fn begin<J: BoardBrand, R: Wait + Abort>(
    rt: &R,
    alloc: Global,
    board: &Board<J>,
    client: &mut Client<J>,
    ask: Ask,
) -> u32 {
    match client.begin(rt, alloc, board, ask) {
        Ok(blocks) => blocks,
        Err(_) => panic!(rt; "it begins"),
    }
}

/// Begins a query for the rows with the smallest x, and returns how many blocks it has.
pub fn begin_low<J: BoardBrand, R: Wait + Abort>(
    rt: &R,
    alloc: Global,
    board: &Board<J>,
    client: &mut Client<J>,
) -> Result<u32, Fail> {
    Ok(begin(rt, alloc, board, client, best_low(alloc)?))
}

/// What is done with the clients of a new board.
pub trait Play {
    fn play<J: BoardBrand, R: Wait + Print + Abort + AllocGlobal>(
        &self,
        rt: &R,
        board: &Board<J>,
        clients: &mut Vec<Client<J>>,
    ) -> Result<(), Fail>;
}

/// Opens a board, does this with its clients, and closes it.
fn play_and_close<J: BoardBrand, R: Wait + Print + Abort + AllocGlobal, P: Play>(
    rt: &R,
    name: BoardName,
    setup: Setup,
    rows: &[Row],
    play: &P,
) -> Result<(), Fail>
    requires book { name.seen.book ≡ J.book }
    requires opening { J.opening ≡ record { limits = setup; rows = rows.now } }
{
    let (board, mut clients) = open_board::<J, R>(rt, rt.alloc(), name, setup, rows)?;
    let played = play.play(rt, &board, &mut clients);
    board.close(rt);
    played
}

/// Does this with the clients of a new board, whose table has these opening rows.
pub fn play_on_a_new_board(
    rt: &(impl Wait + Print + Abort + AllocGlobal),
    setup: Setup,
    rows: &[Row],
    play: &impl Play,
) -> Result<(), Fail> {
    play_and_close::<Brand, _, _>(rt, BoardName::new(), setup, rows, play)
}

/// The replies to all clients of a new board, each on a thread of its own.
pub fn replies_of_a_run<
    J: BoardBrand + Send + Sync,
    R: Threads + Wait + Abort + Sync,
    G: Gate + Sync,
>(
    rt: &R,
    alloc: Global,
    name: BoardName,
    setup: Setup,
    rows: &[Row],
    acts: Vec<Vec<Act>>,
    gate: &G,
) -> Result<Vec<Vec<Reply>>, ShareFault>
    requires book { name.seen.book ≡ J.book }
    requires opening { J.opening ≡ record { limits = setup; rows = rows.now } }
{
    let (board, clients) = open_board::<J, R>(rt, alloc, name, setup, rows)?;
    if acts.len() != clients.len() {
        panic!(rt; "there is a list for each");
    }
    let returned = run_all(rt, alloc, &board, clients, acts, gate);
    board.close(rt);
    returned
}
