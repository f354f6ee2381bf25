//! Requests for memory that are refused. `tests/refuse_each_allocation.sh` runs these tests once for each of their requests,
//! and refuses it; where none is refused they show that each call of a client succeeds.

ghost use Rattle.std.specs.Prelude.{◌≡◌};

use crate::acts::{best_low, lists_of, lists_text, three_rows};
use crate::boards::{Open, Play, first_two, play_on_a_new_board, replies_of_a_run};
use crate::same::assert_same;
use pref_core::{Act, BoxedCommit, Change, Commit, Committed, CoreFault, Reply, Setup};
use pref_share::{BeginFault, Board, BoardBrand, BoardName, Client, ShareFault, open_board};
use pref_sky::Ranked;
use pref_table::Row;
use pref_term::Ask;
use std::alloc::Global;
use std::io::Print;
use std::marker::Brand;
use std::process::Abort;
use std::sync::Wait;
use std::test::Fail;
use std::thread::Threads;
use test_runs::{Does, answer_text, row_of, setup_of};

/// How often eight rows come in the place of eight others: the index, which has room for 18, has to grow by then.
const ROUNDS: u8 = 30;

const OUT_OF_MEMORY: ShareFault = ShareFault::Core(CoreFault::OutOfMemory);

/// How many clients a board has that is opened and closed.
fn clients_of_an_opening<J: BoardBrand, R: Wait>(
    rt: &R,
    alloc: Global,
    name: BoardName,
    setup: Setup,
    rows: &[Row],
) -> Result<usize, ShareFault>
    requires book { name.seen.book ≡ J.book }
    requires opening { J.opening ≡ record { limits = setup; rows = rows.now } }
{
    let (board, clients) = open_board::<J, R>(rt, alloc, name, setup, rows)?;
    board.close(rt);
    Ok(clients.len())
}

/// How many clients a board has, opened again where memory was refused.
fn clients_in_the_end(rt: &(impl Wait + Abort + AllocGlobal), setup: Setup, rows: &[Row]) -> usize {
    let alloc = rt.alloc();
    match clients_of_an_opening::<Brand, _>(rt, alloc, BoardName::new(), setup, rows) {
        Ok(clients) => clients,
        Err(fault) => {
            assert_same(rt, "an opening", &fault, &OUT_OF_MEMORY);
            clients_of_an_opening::<Brand, _>(rt, alloc, BoardName::new(), setup, rows).expect(
                rt, "memory",
            )
        }
    }
}

#[test]
fn an_opening_refused_then_again(rt: HostRuntime) -> Result<(), Fail> {
    let rows = three_rows(rt.alloc(), (5, 4, 6))?;
    let clients = clients_in_the_end(&rt, setup_of(2, 4, 2, 64)?, &rows);
    assert_same(&rt, "clients", &clients, &2);
    Ok(())
}

/// Memory was refused, and nothing has joined the history that the client sees.
fn check_refusal<J: BoardBrand>(
    rt: &impl Abort,
    fault: ShareFault,
    client: &Client<J>,
    seen_before: u64,
) {
    let wanted = (OUT_OF_MEMORY, seen_before);
    assert_same(rt, "a call", &(fault, client.seen()), &wanted);
}

/// Makes a call of a client, again where memory was refused.
macro_rules! in_the_end {
    ($rt:expr, $client:expr, $call:expr) => {{
        let before = $client.seen();
        match $call {
            Ok(returned) => returned,
            Err(fault) => {
                check_refusal($rt, fault, $client, before);
                $call.expect($rt, "memory")
            }
        }
    }};
}

/// Begins a query, again where memory was refused, with the ask that was handed back.
fn begin_in_the_end<J: BoardBrand, R: Wait + Abort>(
    rt: &R,
    alloc: Global,
    board: &Board<J>,
    client: &mut Client<J>,
    ask: Ask,
) -> u32 {
    let before = client.seen();
    let ask = match client.begin(rt, alloc, board, ask) {
        Ok(blocks) => return blocks,
        Err(BeginFault { fault, ask }) => {
            check_refusal(rt, fault, client, before);
            ask
        }
    };
    match client.begin(rt, alloc, board, ask) {
        Ok(blocks) => blocks,
        Err(_) => panic!(rt; "memory"),
    }
}

/// Inserts a row, again where memory was refused: it gets this id.
fn insert_in_the_end<J: BoardBrand, R: Wait + Abort>(
    rt: &R,
    alloc: Global,
    board: &Board<J>,
    client: &mut Client<J>,
    row: &Row,
    id: u64,
) {
    let inserted = in_the_end!(rt, client, client.insert(rt, alloc, board, *row));
    assert_same(rt, "an insert", &inserted, &id);
}

/// Fills a table of 18 slots that has the one row of id 1.
fn fill<J: BoardBrand, R: Wait + Abort>(
    rt: &R,
    alloc: Global,
    board: &Board<J>,
    client: &mut Client<J>,
    row: &Row,
) {
    for id in 2..19 {
        insert_in_the_end(rt, alloc, board, client, row, id);
    }
}

/// Changes a full table of 18 slots, and reads it. A row that takes the place of another may make the index grow.
fn change_and_read<J: BoardBrand, R: Wait + Abort>(
    rt: &R,
    alloc: Global,
    board: &Board<J>,
    client: &mut Client<J>,
    row: &Row,
) {
    for id in 2..200 {
        in_the_end!(rt, client, client.delete(rt, alloc, board, id));
        insert_in_the_end(rt, alloc, board, client, row, id + 17);
    }
    in_the_end!(rt, client, client.update(rt, alloc, board, 1, *row));
    let wanted = (Ok(*row), Ok(0));
    assert_same(rt, "reads", &(client.get(1), client.room()), &wanted);
}

/// Changes a table as one client, and reads it as another who heard of it.
fn change_and_hear<J: BoardBrand, R: Wait + Abort>(
    rt: &R,
    alloc: Global,
    board: &Board<J>,
    client: &mut Client<J>,
    other: &mut Client<J>,
    row: &Row,
) {
    fill(rt, alloc, board, client, row);
    change_and_read(rt, alloc, board, client, row);
    other.hear(client.word());
    assert_same(rt, "what is heard", &other.get(1), &Ok(*row));
}

/// The rows of a table become this one, and another client hears of it.
#[derive(Drop)]
struct Changes {
    row: Row,
}

impl Play for Changes {
    fn play<J: BoardBrand, R: Wait + Print + Abort + AllocGlobal>(
        &self,
        rt: &R,
        board: &Board<J>,
        clients: &mut Vec<Client<J>>,
    ) -> Result<(), Fail> {
        let (client, other) = first_two(rt, clients);
        change_and_hear(rt, rt.alloc(), board, client, other, &self.row);
        Ok(())
    }
}

fn changes_refused_then_again(rt: &(impl Wait + Print + Abort + AllocGlobal)) -> Result<(), Fail> {
    let opening = [row_of(rt.alloc(), 5)?];
    let row = row_of(rt.alloc(), 6)?;
    play_on_a_new_board(rt, setup_of(2, 18, 6, 64)?, &opening, &Changes { row })
}

/// The commit of removes of the eight oldest rows of a table of 18, in whose place eight new ones came this often.
fn removes_of(rounds: u8) -> Result<Commit, CoreFault> {
    let oldest = 8 * u64::from(rounds) + 1;
    let mut removes = [Change::Remove(oldest); 8];
    for at in 1..8u8 {
        removes[usize::from(at)] = Change::Remove(oldest + u64::from(at));
    }
    Commit::of(&removes)
}

/// The commit in a box, made again where memory was refused.
fn boxed(rt: &impl Abort, alloc: Global, commit: Commit) -> BoxedCommit {
    match BoxedCommit::new(alloc, commit) {
        Ok(boxed) => boxed,
        Err(_) => BoxedCommit::new(alloc, commit).expect(rt, "memory"),
    }
}

/// A commit that adds eight rows, made again where memory was refused: until then none of them is there, and there is room for
/// them.
fn add_in_the_end<J: BoardBrand, R: Wait + Abort>(
    rt: &R,
    alloc: Global,
    board: &Board<J>,
    client: &mut Client<J>,
    adds: Commit,
    first: u64,
) -> Committed {
    let before = client.seen();
    match client.commit(rt, alloc, board, boxed(rt, alloc, adds)) {
        Ok(returned) => returned,
        Err(fault) => {
            check_refusal(rt, fault, client, before);
            let missing = ShareFault::Core(CoreFault::NoSuchRow { id: first });
            let wanted = (Err(missing), Ok(8));
            assert_same(rt, first, &(client.get(first), client.room()), &wanted);
            let again = boxed(rt, alloc, adds);
            client.commit(rt, alloc, board, again).expect(rt, "memory")
        }
    }
}

/// Eight rows in place of the eight oldest of a full table, again and again, until the index has to grow.
fn replace_eight_rows<J: BoardBrand, R: Wait + Abort>(
    rt: &R,
    alloc: Global,
    board: &Board<J>,
    client: &mut Client<J>,
    adds: Commit,
) -> Result<(), Fail> {
    for round in 0..ROUNDS {
        let removes = boxed(rt, alloc, removes_of(round)?);
        client
            .commit(rt, alloc, board, removes)
            .expect(rt, "a remove takes no memory");
        let first = 8 * u64::from(round) + 19;
        let added = add_in_the_end(rt, alloc, board, client, adds, first);
        assert_same(rt, round, &added, &Committed { changes: 8, first });
    }
    Ok(())
}

/// Eight rows come in the place of others by this commit, again and again.
#[derive(Drop)]
struct Replaces {
    adds: Commit,
}

impl Play for Replaces {
    fn play<J: BoardBrand, R: Wait + Print + Abort + AllocGlobal>(
        &self,
        rt: &R,
        board: &Board<J>,
        clients: &mut Vec<Client<J>>,
    ) -> Result<(), Fail> {
        let (client, _other) = first_two(rt, clients);
        replace_eight_rows(rt, rt.alloc(), board, client, self.adds)
    }
}

fn a_commit_refused_then_again(rt: &(impl Wait + Print + Abort + AllocGlobal)) -> Result<(), Fail> {
    let opening = [row_of(rt.alloc(), 5)?; 18];
    let adds = Commit::of(&[Change::Add(row_of(rt.alloc(), 6)?); 8])?;
    play_on_a_new_board(rt, setup_of(2, 18, 6, 64)?, &opening, &Replaces { adds })
}

/// Begins a query of two blocks, and abandons it.
fn abandon_in_the_end<J: BoardBrand, R: Wait + Abort>(
    rt: &R,
    alloc: Global,
    board: &Board<J>,
    client: &mut Client<J>,
    ask: Ask,
) {
    let begun = begin_in_the_end(rt, alloc, board, client, ask);
    assert_same(rt, "blocks of an abandoned query", &begun, &2);
    in_the_end!(rt, client, client.abandon(rt, alloc, board));
}

/// How many blocks are left after a scan, made again where memory was refused.
fn scan_in_the_end<J: BoardBrand>(rt: &impl Abort, alloc: Global, client: &mut Client<J>) -> u32 {
    in_the_end!(rt, client, client.scan(alloc))
}

/// Asks a query of two blocks to its end.
fn ask_in_the_end<J: BoardBrand, R: Wait + Abort>(
    rt: &R,
    alloc: Global,
    board: &Board<J>,
    client: &mut Client<J>,
    ask: Ask,
) -> Vec<Ranked> {
    let begun = begin_in_the_end(rt, alloc, board, client, ask);
    let first = scan_in_the_end(rt, alloc, client);
    let second = scan_in_the_end(rt, alloc, client);
    assert_same(rt, "blocks", &(begun, first, second), &(2, 1, 0));
    in_the_end!(rt, client, client.finish(rt, alloc, board))
}

/// Abandons a query, and asks it again to its end.
fn abandon_and_ask<J: BoardBrand, R: Wait + Abort>(
    rt: &R,
    alloc: Global,
    board: &Board<J>,
    client: &mut Client<J>,
) -> Result<Vec<Ranked>, Fail> {
    abandon_in_the_end(rt, alloc, board, client, best_low(alloc)?);
    Ok(ask_in_the_end(rt, alloc, board, client, best_low(alloc)?))
}

/// Asserts an answer.
fn check_answer(rt: &impl Abort, alloc: Global, answer: &[Ranked]) -> Result<(), Fail> {
    let text = answer_text(alloc, answer)?;
    let wanted = "answer 1\nlevel 1 id 2: 4";
    assert_same(rt, "an answer", &text.as_str(), &wanted);
    Ok(())
}

/// A client abandons a query, and asks it again.
struct Asks;

impl Play for Asks {
    fn play<J: BoardBrand, R: Wait + Print + Abort + AllocGlobal>(
        &self,
        rt: &R,
        board: &Board<J>,
        clients: &mut Vec<Client<J>>,
    ) -> Result<(), Fail> {
        let (client, _other) = first_two(rt, clients);
        let answer = abandon_and_ask(rt, rt.alloc(), board, client)?;
        check_answer(rt, rt.alloc(), &answer)
    }
}

fn a_query_refused_then_again(rt: &(impl Wait + Print + Abort + AllocGlobal)) -> Result<(), Fail> {
    let opening = three_rows(rt.alloc(), (5, 4, 6))?;
    play_on_a_new_board(rt, setup_of(2, 4, 2, 64)?, &opening, &Asks)
}

/// Each call of a client, again where memory was refused.
#[test]
fn refused_then_again(rt: HostRuntime) -> Result<(), Fail> {
    changes_refused_then_again(&rt)?;
    a_commit_refused_then_again(&rt)?;
    a_query_refused_then_again(&rt)
}

/// The acts of one client.
fn acts_of_one(alloc: Global) -> Result<Vec<Vec<Act>>, Fail> {
    let run = [
        Does::Inserts(3),
        Does::Begins,
        Does::Scans,
        Does::Scans,
        Does::Finishes,
        Does::Gets(2),
    ];
    lists_of(alloc, &[&run])
}

/// The replies to a run, and where memory was refused those to a second one.
fn replies_in_the_end(
    rt: &(impl Threads + Wait + Abort + AllocGlobal + Sync),
    setup: Setup,
    rows: &[Row],
) -> Result<Vec<Vec<Reply>>, Fail> {
    let alloc = rt.alloc();
    let acts = acts_of_one(alloc)?;
    match replies_of_a_run::<Brand, _, _>(rt, alloc, BoardName::new(), setup, rows, acts, &Open) {
        Ok(replies) => return Ok(replies),
        Err(fault) => assert_same(rt, "a run", &fault, &OUT_OF_MEMORY),
    }
    let again = acts_of_one(alloc)?;
    match replies_of_a_run::<Brand, _, _>(rt, alloc, BoardName::new(), setup, rows, again, &Open) {
        Ok(replies) => Ok(replies),
        Err(_) => panic!(rt; "memory"),
    }
}

#[test]
fn a_run_refused_then_again(rt: HostRuntime) -> Result<(), Fail> {
    let alloc = rt.alloc();
    let opening = [row_of(alloc, 5)?];
    let setup = setup_of(1, 4, 2, 64)?;
    let text = lists_text(alloc, &replies_in_the_end(&rt, setup, &opening)?)?;
    let wanted = "inserted 2\nbegun 2\nleft 1\nleft 0\nanswer 1\nlevel 1 id 2: 3\nrow 2: 3\n";
    assert_same(&rt, "replies", &text.as_str(), &wanted);
    Ok(())
}
