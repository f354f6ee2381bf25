//! Commits of pairs on threads of their own: whoever reads the table sees each pair whole.

ghost use Rattle.std.specs.Prelude.{◌≡◌};

use crate::acts::acts_of;
use crate::boards::{Open, replies_of_a_run};
use crate::same::assert_same;
use pref_core::{Act, Reply};
use pref_share::BoardName;
use pref_sky::Ranked;
use pref_table::Schema;
use std::alloc::Global;
use std::marker::Brand;
use std::test::Fail;
use test_runs::{Changes, Does, changes_of, columns, commit_act, row_of, setup_of};

/// A query of the whole table.
fn push_query(alloc: Global, acts: &mut Vec<Act>) -> Result<(), Fail> {
    let asks = Does::Asks("top_level 16 low(x)");
    for step in acts_of(alloc, &[asks, Does::Scans, Does::Scans, Does::Finishes])? {
        acts.push(step)?;
    }
    Ok(())
}

/// Commits that set the rows of a pair to 1 and -1, then to 2 and -2, and so on, with a query behind every fourth.
fn acts_of_a_pair(alloc: Global, schema: &Schema, first: u64) -> Result<Vec<Act>, Fail> {
    let mut acts = Vec::new(alloc);
    for turn in 1..101u8 {
        let value = i64::from(turn);
        let one = Changes::Sets(first, value);
        let other = Changes::Sets(first.wrapping_add(1), -value);
        let changes = changes_of(alloc, schema, &[one, other])?;
        acts.push(commit_act(alloc, &changes)?)?;
        if turn % 4 == 0 {
            push_query(alloc, &mut acts)?;
        }
    }
    Ok(acts)
}

/// What eight clients do, each of whom changes a pair of rows and reads all pairs.
fn acts_of_all(alloc: Global) -> Result<Vec<Vec<Act>>, Fail> {
    let schema = columns(alloc)?;
    let mut lists = Vec::new(alloc);
    for first in [1, 3, 5, 7, 9, 11, 13, 15] {
        lists.push(acts_of_a_pair(alloc, &schema, first)?)?;
    }
    Ok(lists)
}

/// Whether the other row of its pair has what this one lacks.
fn is_paired(answer: &[Ranked], ranked: &Ranked) -> bool {
    let partner = (ranked.id.wrapping_sub(1) ^ 1).wrapping_add(1);
    for other in answer {
        if other.id == partner {
            return other.row.cell(0).wrapping_add(ranked.row.cell(0)) == 0;
        }
    }
    false
}

/// Whether an answer has all rows, and each pair is whole.
fn has_whole_pairs(answer: &[Ranked]) -> bool {
    for ranked in answer {
        if !is_paired(answer, ranked) {
            return false;
        }
    }
    answer.len() == 16
}

/// How many commits a client made, and how many answers with whole pairs it was given.
fn counts_of_one(replies: &[Reply]) -> (usize, usize) {
    let mut commits: usize = 0;
    let mut answers: usize = 0;
    for reply in replies {
        match reply {
            Reply::Committed(_) => commits = commits.saturating_add(1),
            Reply::Answer(list) if has_whole_pairs(list.as_slice()) => {
                answers = answers.saturating_add(1);
            }
            _ => {}
        }
    }
    (commits, answers)
}

/// How many commits and whole answers are among the replies to all clients.
fn counts(lists: &[Vec<Reply>]) -> (usize, usize) {
    let mut commits: usize = 0;
    let mut answers: usize = 0;
    for replies in lists {
        let (more_commits, more_answers) = counts_of_one(replies);
        commits = commits.saturating_add(more_commits);
        answers = answers.saturating_add(more_answers);
    }
    (commits, answers)
}

#[test]
fn no_answer_sees_half_a_commit(rt: HostRuntime) -> Result<(), Fail> {
    let alloc = rt.alloc();
    let opening = [row_of(alloc, 0)?; 16];
    let setup = setup_of(8, 256, 128, 64)?;
    let acts = acts_of_all(alloc)?;
    let lists = replies_of_a_run::<Brand, _, _>(
        &rt,
        alloc,
        BoardName::new(),
        setup,
        &opening,
        acts,
        &Open,
    )?;
    assert_same(&rt, "pairs", &counts(&lists), &(800, 200));
    Ok(())
}
