//! Replies of a machine to one event after another, refusals among them.

use super::fixtures::{check_reply, small_machine};
use crate::same::assert_same;
use pref_core::{Act, CoreFault, Event, Machine, StepFault};
use pref_table::Schema;
use pref_term::read_ask;
use std::alloc::Global;
use std::process::Abort;
use std::test::Fail;
use test_runs::{Does, Turn, begin_act, columns, event_of};

/// What clients do, and what is returned to them.
static TURNS: [Turn; 5] = [
    (2, Does::Gets(1), "row 1: 5"),
    (1, Does::Scans, "refused 4: no query"),
    (9, Does::AsksRoom, "refused 1: no such client"),
    (1, Does::Deletes(1), "deleted 1"),
    (2, Does::Gets(1), "refused 7: no such row 1"),
];

fn tells_what_is_refused(
    rt: &impl Abort,
    alloc: Global,
    schema: &Schema,
    machine: &mut Machine,
    turns: &[Turn],
) -> Result<(), Fail> {
    for (number, turn) in turns.iter().enumerate() {
        let reply = machine.reply(alloc, event_of(alloc, schema, turn)?)?;
        check_reply(rt, alloc, number, &reply, turn.2)?;
    }
    Ok(())
}

#[test]
fn a_refusal_is_a_reply(rt: HostRuntime) -> Result<(), Fail> {
    let schema = columns(rt.alloc())?;
    let mut machine = small_machine(&rt, rt.alloc());
    tells_what_is_refused(&rt, rt.alloc(), &schema, &mut machine, &TURNS)
}

/// How many levels the ask of a begin that is handed back asks for, or none.
fn cut_handed_back(event: &Event) -> Option<u32> {
    match &event.act {
        Act::Begin(ask) => Some(ask.cut()),
        _ => None,
    }
}

fn check_handed_back(rt: &impl Abort, refused: &StepFault) {
    let cut = cut_handed_back(&refused.event);
    let found = (refused.fault, refused.event.client, cut);
    assert_same(rt, "refused", found, (CoreFault::QueryOpen, 1, Some(3)));
}

/// A refused event is an error: its text is that of its fault, which it becomes.
fn check_error(rt: &impl Abort, alloc: Global, refused: StepFault) {
    let text = format!(in alloc; "{refused}").expect(rt, "memory");
    assert_same(rt, "its text", text.as_str(), "query open");
    let fault = CoreFault::from(refused);
    assert_same(rt, "its fault", fault, CoreFault::QueryOpen);
}

fn hands_its_ask_back(rt: &impl Abort, alloc: Global, schema: &Schema, machine: &mut Machine) {
    let ask = read_ask(alloc, schema, b"best low(x)").expect(rt, "a question");
    assert_same(rt, "begun", machine.begin(1, ask), Ok(2));
    let act = begin_act(alloc, schema, "top_level 3 low(x)").expect(rt, "a question");
    match machine.step(alloc, Event { client: 1, act }) {
        Ok(_reply) => panic!(rt; "let in"),
        Err(refused) => {
            check_handed_back(rt, &refused);
            check_error(rt, alloc, refused);
        }
    }
}

#[test]
fn a_refused_begin_hands_its_ask_back(rt: HostRuntime) {
    let schema = columns(rt.alloc()).expect(&rt, "columns");
    let mut machine = small_machine(&rt, rt.alloc());
    hands_its_ask_back(&rt, rt.alloc(), &schema, &mut machine);
}
