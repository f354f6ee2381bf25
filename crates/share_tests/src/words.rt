//! Words that a client speaks and another hears.

ghost use Rattle.std.specs.Prelude.{◌≡◌};

use crate::boards::{Play, first_two, play_on_a_new_board};
use crate::same::assert_same;
use pref_core::Setup;
use pref_share::{Board, BoardBrand, BoardName, Client, ShareFault, Word, open_board};
use pref_table::Row;
use std::alloc::Global;
use std::io::Print;
use std::marker::Brand;
use std::process::Abort;
use std::sync::Wait;
use std::test::Fail;
use std::thread;
use std::thread::Threads;
use test_runs::{row_of, setup_of};

/// What a client has seen after it inserted a row.
fn word_of_an_insert<J: BoardBrand, R: Wait>(
    rt: &R,
    alloc: Global,
    board: &Board<J>,
    client: &mut Client<J>,
    row: Row,
) -> Result<Word<J>, ShareFault> {
    client.insert(rt, alloc, board, row)?;
    Ok(client.word())
}

/// The row that a client gets, after it heard what the other had seen, who inserted it on a thread.
fn got_after_a_word<J: BoardBrand + Send + Sync, R: Threads + Wait + Abort + Sync>(
    rt: &R,
    alloc: Global,
    board: &Board<J>,
    hearer: &mut Client<J>,
    speaker: &mut Client<J>,
    row: Row,
) -> Result<Row, ShareFault> {
    let (word, ()) = thread::join(
        rt,
        move || word_of_an_insert(rt, alloc, board, speaker, row),
        || (),
    );
    hearer.hear(word.expect(rt, "it inserts"));
    hearer.get(1)
}

/// The row that the first client of a new board gets once it has heard the second.
fn got_on_a_new_board<J: BoardBrand + Send + Sync, R: Threads + Wait + Abort + Sync>(
    rt: &R,
    alloc: Global,
    name: BoardName,
    setup: Setup,
    rows: &[Row],
    row: Row,
) -> Result<Row, ShareFault>
    requires book { name.seen.book ≡ J.book }
    requires opening { J.opening ≡ record { limits = setup; rows = rows.now } }
{
    let (board, mut clients) = open_board::<J, R>(rt, alloc, name, setup, rows)?;
    let (first, second) = first_two(rt, &mut clients);
    let got = got_after_a_word(rt, alloc, &board, first, second, row);
    board.close(rt);
    got
}

#[test]
fn word_crosses(rt: HostRuntime) -> Result<(), Fail> {
    let alloc = rt.alloc();
    let inserted = row_of(alloc, 4)?;
    let setup = setup_of(2, 4, 4, 64)?;
    let got = got_on_a_new_board::<Brand, _>(&rt, alloc, BoardName::new(), setup, &[], inserted)?;
    assert_same(&rt, "a thread", &got, &inserted);
    Ok(())
}

/// How much a client has seen before it hears another that made one call, after that, and once it got the row that the other inserted.
fn seen_as_it_goes<J: BoardBrand, R: Wait>(
    rt: &R,
    alloc: Global,
    board: &Board<J>,
    hearer: &mut Client<J>,
    speaker: &mut Client<J>,
) -> Result<(u64, u64, u64), ShareFault> {
    let row = hearer.get(1)?;
    let before = hearer.seen();
    speaker.delete(rt, alloc, board, 1)?;
    hearer.hear(speaker.word());
    let heard = hearer.seen();
    let id = speaker.insert(rt, alloc, board, row)?;
    hearer.get(id)?;
    Ok((before, heard, hearer.seen()))
}

/// The first client, who hears the second, sees more and more.
struct SeesMore;

impl Play for SeesMore {
    fn play<J: BoardBrand, R: Wait + Print + Abort + AllocGlobal>(
        &self,
        rt: &R,
        board: &Board<J>,
        clients: &mut Vec<Client<J>>,
    ) -> Result<(), Fail> {
        let (first, second) = first_two(rt, clients);
        let seen = seen_as_it_goes(rt, rt.alloc(), board, first, second)?;
        assert_same(rt, "calls", &seen, &(0, 1, 2));
        Ok(())
    }
}

#[test]
fn a_word_is_heard(rt: HostRuntime) -> Result<(), Fail> {
    let opening = [row_of(rt.alloc(), 5)?];
    play_on_a_new_board(&rt, setup_of(2, 4, 4, 64)?, &opening, &SeesMore)
}
