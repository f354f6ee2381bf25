//! Faults of scripts, with their lines and statuses.
use crate::known_runs::script_of;
use crate::runs::run_whole;
use crate::same::assert_same;
use pref_core::CoreFault;
use pref_script::{RunFault, fault_line};
use pref_share::ShareFault;
use pref_table::TableFault;
use std::test::Fail;
use test_runs::A_DELETED_ROW_IS_STILL_ANSWERED;

/// Faults of runs, each with the line that is printed for it and the exit status.
static FAULTS: [(RunFault, &str, u8); 26] = [
    (RunFault::Read, "", 1),
    (RunFault::Write, "", 1),
    (RunFault::TooLarge, "", 1),
    (RunFault::Memory, "", 1),
    (RunFault::Threads(ShareFault::Held { client: 2 }), "", 1),
    (RunFault::NoTable, "script refused: no table\n", 2),
    (RunFault::NoEnd, "script refused: no end\n", 2),
    (
        RunFault::Table(TableFault::NoColumns),
        "table refused 1: no columns\n",
        2,
    ),
    (
        RunFault::Table(TableFault::TooManyColumns),
        "table refused 2: too many columns\n",
        2,
    ),
    (
        RunFault::Table(TableFault::BadName { col: 3 }),
        "table refused 3: bad name col 3\n",
        2,
    ),
    (
        RunFault::Table(TableFault::SameName { col: 4 }),
        "table refused 4: same name col 4\n",
        2,
    ),
    (
        RunFault::Table(TableFault::Width { row: 5 }),
        "table refused 5: width row 5\n",
        2,
    ),
    (
        RunFault::Table(TableFault::NotWhole { row: 6, col: 1 }),
        "table refused 6: not whole row 6 col 1\n",
        2,
    ),
    (
        RunFault::Table(TableFault::OutOfRange { row: 7, col: 2 }),
        "table refused 7: out of range row 7 col 2\n",
        2,
    ),
    (
        RunFault::Table(TableFault::TooManyRows),
        "table refused 8: too many rows\n",
        2,
    ),
    (
        RunFault::Table(TableFault::OutOfMemory),
        "table refused 9: out of memory\n",
        2,
    ),
    (
        RunFault::Opening(CoreFault::NoSuchClient),
        "opening refused 1: no such client\n",
        2,
    ),
    (
        RunFault::Opening(CoreFault::Spent),
        "opening refused 2: spent\n",
        2,
    ),
    (
        RunFault::Opening(CoreFault::QueryOpen),
        "opening refused 3: query open\n",
        2,
    ),
    (
        RunFault::Opening(CoreFault::NoQuery),
        "opening refused 4: no query\n",
        2,
    ),
    (
        RunFault::Opening(CoreFault::AllScanned),
        "opening refused 5: all scanned\n",
        2,
    ),
    (
        RunFault::Opening(CoreFault::NotDone { left: 6 }),
        "opening refused 6: not done left 6\n",
        2,
    ),
    (
        RunFault::Opening(CoreFault::NoSuchRow { id: 7 }),
        "opening refused 7: no such row 7\n",
        2,
    ),
    (
        RunFault::Opening(CoreFault::Full { needed: 8 }),
        "opening refused 8: full needed 8\n",
        2,
    ),
    (
        RunFault::Opening(CoreFault::OutOfMemory),
        "opening refused 9: out of memory\n",
        2,
    ),
    (
        RunFault::Opening(CoreFault::Full { needed: 3 }),
        "opening refused 8: full needed 3\n",
        2,
    ),
];

#[test]
fn each_fault_has_its_line_and_status(rt: HostRuntime) -> Result<(), Fail> {
    for (fault, text, status) in &FAULTS {
        let line = fault_line(rt.alloc(), fault)?;
        let found = (line.as_str(), fault.status());
        assert_same(&rt, *fault, &found, &(*text, *status));
    }
    Ok(())
}

#[test]
fn a_beginning_of_a_script_has_the_fault_of_what_is_missing(rt: HostRuntime) -> Result<(), Fail> {
    let alloc = rt.alloc();
    let run = &A_DELETED_ROW_IS_STILL_ANSWERED;
    let setup = run.setup()?;
    let text = script_of(alloc, run)?;
    let script = text.as_bytes();
    for length in 0..script.len() + 1 {
        let result = run_whole(alloc, setup, &script[..length]).result;
        let wanted = match length {
            0..=4 => Err(RunFault::NoTable),
            5..=16 => Err(RunFault::NoEnd),
            _ => Ok(()),
        };
        assert_same(&rt, length, &result, &wanted);
    }
    Ok(())
}
