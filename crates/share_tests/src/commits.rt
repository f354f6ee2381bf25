//! Commits of several changes by the clients of one board.

use crate::calls::check_runs;
use std::test::Fail;
use test_runs::runs_of_commits;

#[test]
fn a_commit_is_made_whole_or_refused(rt: HostRuntime) -> Result<(), Fail> {
    check_runs(&rt, runs_of_commits())
}
