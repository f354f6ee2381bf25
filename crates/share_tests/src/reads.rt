//! Reads of a client, which take no lock. `tests/reads_take_no_lock.py` shows that they would not compile if they took the board's.

ghost use Rattle.std.specs.Prelude.{◌≡◌};

use crate::acts::three_rows;
use crate::boards::{Play, begin_low, first_two, play_on_a_new_board};
use crate::same::assert_same;
use pref_core::Setup;
use pref_share::{Board, BoardBrand, BoardName, Client, ShareFault, open_board};
use pref_table::Row;
use std::alloc::Global;
use std::io::Print;
use std::marker::Brand;
use std::process::Abort;
use std::sync::Wait;
use std::test::Fail;
use test_runs::setup_of;

/// What three reads return.
type Returned = (
    Result<Row, ShareFault>,
    Result<u32, ShareFault>,
    Result<u32, ShareFault>,
);

/// The row of id 1, the room, and the blocks that are left after a scan. There is no handle here that may wait, and taking a lock
/// needs one, so reads that took a lock would not compile.
fn read<J: BoardBrand>(alloc: Global, client: &mut Client<J>) -> Returned {
    (client.get(1), client.room(), client.scan(alloc))
}

/// What a client reads after it has begun a query.
fn begin_and_read<J: BoardBrand, R: Wait + Abort>(
    rt: &R,
    alloc: Global,
    board: &Board<J>,
    client: &mut Client<J>,
) -> Result<Returned, Fail> {
    begin_low(rt, alloc, board, client)?;
    Ok(read(alloc, client))
}

/// The first client begins a query of a table whose first row is this, and reads.
#[derive(Drop)]
struct Reads {
    first: Row,
}

impl Play for Reads {
    fn play<J: BoardBrand, R: Wait + Print + Abort + AllocGlobal>(
        &self,
        rt: &R,
        board: &Board<J>,
        clients: &mut Vec<Client<J>>,
    ) -> Result<(), Fail> {
        let (client, _other) = first_two(rt, clients);
        let returned = begin_and_read(rt, rt.alloc(), board, client)?;
        let wanted = (Ok(self.first), Ok(1), Ok(1));
        assert_same(rt, "an open board", &returned, &wanted);
        Ok(())
    }
}

#[test]
fn reads_of_an_open_board(rt: HostRuntime) -> Result<(), Fail> {
    let opening = three_rows(rt.alloc(), (5, 4, 6))?;
    let first = opening[0];
    play_on_a_new_board(&rt, setup_of(2, 4, 2, 64)?, &opening, &Reads { first })
}

/// What a client with an open query reads after its board was closed, and how much it has seen then.
fn read_of_a_closed_board<J: BoardBrand, R: Wait + Abort>(
    rt: &R,
    alloc: Global,
    name: BoardName,
    setup: Setup,
    rows: &[Row],
) -> Result<(Returned, u64), Fail>
    requires book { name.seen.book ≡ J.book }
    requires opening { J.opening ≡ record { limits = setup; rows = rows.now } }
{
    let (board, mut clients) = open_board::<J, R>(rt, alloc, name, setup, rows)?;
    let (client, _other) = first_two(rt, &mut clients);
    let begun = begin_low(rt, alloc, &board, client);
    board.close(rt);
    begun?;
    Ok((read(alloc, client), client.seen()))
}

#[test]
fn a_closed_board_lets_nobody_in(rt: HostRuntime) -> Result<(), Fail> {
    let alloc = rt.alloc();
    let opening = three_rows(alloc, (5, 4, 6))?;
    let setup = setup_of(2, 4, 2, 64)?;
    let returned = read_of_a_closed_board::<Brand, _>(
        &rt,
        alloc,
        BoardName::new(),
        setup,
        &opening,
    )?;
    let closed = ShareFault::Closed;
    let wanted = ((Err(closed), Err(closed), Err(closed)), 1);
    assert_same(&rt, "a closed board", &returned, &wanted);
    Ok(())
}
