//! Replies, reports, descriptions and traces, each made until it stands, and told.

use std::alloc::{AllocError, Global};
use tw_any_model::AnyModel;
use tw_exec::Executive;
use tw_inspect::{Reply, describe, push_reply, report};
use tw_msgs::Record;
use tw_network::Network;
use tw_test_refusal_tools::Told;
use tw_texts::{push_fault, push_record};
use tw_vtime::Stamp;
use tw_workers::Fault;

/// Tells a text that was made, or that it was refused twice.
fn say(told: &mut Told, call: &str, text: Result<String, AllocError>) {
    match text {
        Ok(text) => told.say(text.as_str()),
        Err(_) => told.give_up(call),
    }
}

/// Tells what came of an action, at the second try where memory is refused at the first.
pub(crate) fn tell_reply(told: &mut Told, reply: &Reply) {
    let before = told.text().len();
    if push_reply(told.text_mut(), *reply).is_err() {
        let stays = told.text().len() == before;
        told.expect("push_reply", stays);
        if push_reply(told.text_mut(), *reply).is_err() {
            told.give_up("push_reply");
        }
    }
}

/// Tells the report of an executive.
pub(crate) fn tell_report(told: &mut Told, alloc: Global, executive: &Executive<AnyModel>) {
    let text = match report(alloc, executive) {
        Err(_) => report(alloc, executive),
        made => made,
    };
    say(told, "report", text);
}

/// Tells the description of a component, if there is one.
pub(crate) fn tell_component(
    told: &mut Told,
    alloc: Global,
    executive: &Executive<AnyModel>,
    component: usize,
) {
    if component >= executive.network().len() {
        return;
    }
    let text = match describe(alloc, executive, component) {
        Err(_) => describe(alloc, executive, component),
        made => made,
    };
    say(told, "describe", text);
}

/// The name of a component; nothing, where there is none such.
pub(crate) fn name_of(network: &Network<AnyModel>, component: usize) -> &str {
    if component < network.len() {
        network.name(component)
    } else {
        ""
    }
}

/// Tells the line of a record, which is made until it stands.
fn tell_record(told: &mut Told, name: &str, record: &Record) {
    let before = told.text().len();
    if push_record(told.text_mut(), name, record).is_err() {
        let stays = told.text().len() == before;
        told.expect("push_record", stays);
        if push_record(told.text_mut(), name, record).is_err() {
            told.give_up("push_record");
        }
    }
}

/// Tells the lines of records of a network.
fn tell_records(told: &mut Told, network: &Network<AnyModel>, records: &[Record]) {
    for record in records {
        tell_record(told, name_of(network, record.component), record);
    }
}

/// Tells the trace of an executive, at the second try where the first finds no memory.
pub(crate) fn tell_trace(told: &mut Told, alloc: Global, executive: &Executive<AnyModel>) {
    let trace = match executive.trace(alloc) {
        Err(_) => executive.trace(alloc),
        made => made,
    };
    match trace {
        Ok(records) => tell_records(told, executive.network(), records.as_slice()),
        Err(_) => told.give_up("trace"),
    }
}

/// The name at a place; nothing, where there is none.
pub(crate) fn name_in<'a>(names: &[&'a str], component: usize) -> &'a str {
    match names.get(component) {
        Some(name) => *name,
        None => "",
    }
}

/// Tells the lines of records of components that have these names.
pub(crate) fn tell_lines(told: &mut Told, names: &[&str], records: &[Record]) {
    for record in records {
        tell_record(told, name_in(names, record.component), record);
    }
}

/// Tells the line of a fault, which is made until it stands.
pub(crate) fn tell_fault(told: &mut Told, name: &str, fault: &Fault) {
    if push_fault(told.text_mut(), name, fault.stamp, fault.limit).is_err()
        && push_fault(told.text_mut(), name, fault.stamp, fault.limit).is_err()
    {
        told.give_up("push_fault");
    }
}

/// Tells a number after some words, on a line.
pub(crate) fn tell_number(told: &mut Told, words: &str, number: usize) {
    if write!(told.text_mut(), "{words} {number}\n").is_err() {
        told.give_up(words);
    }
}

/// Tells what a reader of a board sees.
pub(crate) fn tell_seen(told: &mut Told, seen: (Stamp, u64)) {
    let (gvt, committed) = seen;
    if write!(told.text_mut(), "seen {gvt} {committed}\n").is_err() {
        told.give_up("see");
    }
}
