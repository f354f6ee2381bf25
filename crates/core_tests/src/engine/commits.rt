//! Commits of several changes.

use super::fixtures::check_runs;
use crate::same::assert_same;
use pref_core::{Change, Commit, CoreFault};
use pref_table::Schema;
use std::alloc::Global;
use std::process::Abort;
use std::test::Fail;
use test_runs::Changes::{self, Adds, Removes, Sets};
use test_runs::{changes_of, columns, row_of, runs_of_commits};

/// Lists of changes, and the refusal that each meets.
static LISTS: [(&[Changes], Option<CoreFault>); 10] = [
    (&[], Some(CoreFault::ChangeCount)),
    (&[Adds(5); 8], None),
    (&[Adds(5); 9], Some(CoreFault::ChangeCount)),
    (&[Removes(1); 9], Some(CoreFault::ChangeCount)),
    (
        &[Removes(1), Sets(1, 5)],
        Some(CoreFault::Twice { place: 2 }),
    ),
    (
        &[Removes(1), Removes(1)],
        Some(CoreFault::Twice { place: 2 }),
    ),
    (
        &[Sets(9, 1), Removes(9)],
        Some(CoreFault::Twice { place: 2 }),
    ),
    (
        &[Adds(3), Removes(1), Adds(4), Sets(1, 5)],
        Some(CoreFault::Twice { place: 4 }),
    ),
    (
        &[
            Sets(4, 5),
            Adds(5),
            Adds(5),
            Removes(2),
            Adds(5),
            Adds(5),
            Adds(5),
            Removes(4),
        ],
        Some(CoreFault::Twice { place: 8 }),
    ),
    (
        &[
            Sets(4, 5),
            Adds(5),
            Adds(5),
            Removes(2),
            Adds(5),
            Adds(5),
            Adds(5),
            Removes(3),
        ],
        None,
    ),
];

#[test]
fn a_commit_has_its_changes_as_they_stand(rt: HostRuntime) {
    let added = row_of(rt.alloc(), 5).expect(&rt, "a row");
    let adds = [Change::Add(added); 8];
    for count in 1..9 {
        let commit = Commit::of(&adds[..count]).expect(&rt, "a commit");
        assert_same(&rt, count, commit.as_slice(), &adds[..count]);
    }
}

/// A list of changes meets this refusal, or none.
fn check_refusal(
    rt: &impl Abort,
    alloc: Global,
    schema: &Schema,
    (list, wanted): (&[Changes], Option<CoreFault>),
) {
    let changes = changes_of(alloc, schema, list).expect(rt, "changes");
    assert_same(rt, list.len(), Commit::of(&changes).err(), wanted);
}

#[test]
fn what_is_no_commit_is_refused(rt: HostRuntime) {
    let schema = columns(rt.alloc()).expect(&rt, "columns");
    for case in &LISTS {
        check_refusal(&rt, rt.alloc(), &schema, *case);
    }
}

#[test]
fn a_commit_is_made_whole_or_refused(rt: HostRuntime) -> Result<(), Fail> {
    check_runs(&rt, rt.alloc(), runs_of_commits())
}
