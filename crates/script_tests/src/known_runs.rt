//! The runs of test_runs as scripts.
use crate::runs::{in_steps, live_through, roomy, run_whole};
use crate::same::assert_same;
use pref_core::Setup;
use std::alloc::{AllocError, Global};
use std::process::Abort;
use std::test::Fail;
use test_runs::{Changes, Does, Run, Turn, runs_of_commits, runs_of_single_changes};

fn push_change(script: &mut String, change: Changes) -> Result<(), AllocError> {
    match change {
        Changes::Adds(value) => write!(script, "insert {value}"),
        Changes::Sets(id, value) => write!(script, "update {id} {value}"),
        Changes::Removes(id) => write!(script, "delete {id}"),
    }
}

fn push_commit(script: &mut String, list: &[Changes]) -> Result<(), AllocError> {
    let mut before = "commit ";
    for change in list {
        script.push_str(before)?;
        push_change(script, *change)?;
        before = "; ";
    }
    Ok(())
}

fn push_command(script: &mut String, does: Does) -> Result<(), AllocError> {
    match does {
        Does::Inserts(value) => push_change(script, Changes::Adds(value)),
        Does::Updates(id, value) => push_change(script, Changes::Sets(id, value)),
        Does::Deletes(id) => push_change(script, Changes::Removes(id)),
        Does::Commits(list) => push_commit(script, list),
        Does::Begins => script.push_str("begin best low(x)"),
        Does::Asks(question) => write!(script, "begin {question}"),
        Does::Scans => script.push_str("scan"),
        Does::Finishes => script.push_str("finish"),
        Does::Abandons => script.push_str("abandon"),
        Does::Gets(id) => write!(script, "get {id}"),
        Does::AsksRoom => script.push_str("room"),
    }
}

fn push_table(script: &mut String, opening: &[i64]) -> Result<(), AllocError> {
    script.push_str("table\nx\n")?;
    for value in opening {
        write!(script, "{value}\n")?;
    }
    script.push_str("end\n")
}

fn push_commands(script: &mut String, turns: &[Turn]) -> Result<(), AllocError> {
    for (client, does, _returned) in turns {
        write!(script, "as {client} ")?;
        push_command(script, *does)?;
        script.push('\n')?;
    }
    Ok(())
}

/// The script of a run.
pub(crate) fn script_of(alloc: Global, run: &Run) -> Result<String, AllocError> {
    let mut script = String::new(alloc);
    push_table(&mut script, run.opening)?;
    push_commands(&mut script, run.turns)?;
    Ok(script)
}

/// The output of a run.
fn output_of(alloc: Global, run: &Run) -> Result<String, AllocError> {
    let mut output = String::new(alloc);
    for (client, _does, returned) in run.turns {
        write!(output, "{client} {returned}\n")?;
    }
    Ok(output)
}

/// A script prints this.
fn check_script(rt: &impl Abort, alloc: Global, setup: Setup, script: &str, output: &str) {
    let wanted = (Ok(()), output.as_bytes(), false, false);
    let played = run_whole(alloc, setup, script.as_bytes());
    assert_same(rt, script, &played.seen(), &wanted);
}

/// A script that is run line by line prints this.
fn check_live(rt: &impl Abort, alloc: Global, setup: Setup, script: &str, output: &str) {
    let wanted = (Ok(()), output.as_bytes(), false, false);
    let reader = in_steps(script.as_bytes(), 7);
    let played = live_through(alloc, reader, roomy(alloc, 8192), setup);
    assert_same(rt, script, &played.seen(), &wanted);
}

/// A run prints what its turns say.
fn check_run(rt: &impl Abort, alloc: Global, run: &Run) -> Result<(), Fail> {
    let setup = run.setup()?;
    let script = script_of(alloc, run)?;
    let output = output_of(alloc, run)?;
    check_script(rt, alloc, setup, script.as_str(), output.as_str());
    check_live(rt, alloc, setup, script.as_str(), output.as_str());
    Ok(())
}

/// A loop over a list that is lent, since a proof pays for all that a loop over a `static` reads.
fn check_runs(rt: &impl Abort, alloc: Global, runs: &[Run]) -> Result<(), Fail> {
    for run in runs {
        check_run(rt, alloc, run)?;
    }
    Ok(())
}

#[test]
fn single_changes_print_what_their_turns_say(rt: HostRuntime) -> Result<(), Fail> {
    check_runs(&rt, rt.alloc(), runs_of_single_changes())
}

#[test]
fn commits_print_what_their_turns_say(rt: HostRuntime) -> Result<(), Fail> {
    check_runs(&rt, rt.alloc(), runs_of_commits())
}
