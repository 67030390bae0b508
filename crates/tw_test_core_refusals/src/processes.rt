//! One process of a row of three.

ghost use Rattle.std.specs.Prelude.{◌≡◌, IfOk, IfSome};
ghost use Rattle.tw_theory.specs.Standing.{CanTake};

use crate::messages::{tell_items, tell_messages, tell_number, tell_records, tell_stamp};
use crate::networks::row;
use crate::scenes::{Act, How, Scene};
use std::alloc::{AllocError, Global};
use std::sync::Arc;
use tw_actions::Finished;
use tw_fossils::{Column, harvest};
use tw_models::Model;
use tw_msgs::{Item, Message, Sign};
use tw_process::{Cancel, Process};
use tw_rollback::{back_to, receive};
use tw_test_refusal_tools::{Sum, Told, add_process};
use tw_vtime::{Refusal, Stamp};

// How often a chain is worked out at most: the second makes what is left.
const TRIES: usize = 3;

// A tick beyond all steps.
const BEYOND: u64 = 1_000;

// How many messages, items and records are told at most.
const SHOWN: usize = 3;

/// The sum over the contents of a process.
fn look(told: &mut Told, alloc: Global, process: &Process<Model>) -> Sum {
    let mut sum = Sum::new();
    add_process(&mut sum, alloc, told.words_mut(), process);
    sum
}

/// The process of a component of the row, made with a way of cancelling or without one, if there is memory for it.
pub(crate) fn process_of(
    alloc: Global,
    component: usize,
    cancel: Option<Cancel>,
) -> Result<Process<Model>, Refusal>
    ensures { IfOk result (λ process. process.floor ≡ 0) }
{
    let network = Arc::new(alloc, row(alloc)?)?;
    if component >= network.len() {
        drop(network);
        return Err(Refusal::UnknownComponent);
    }
    match cancel {
        None => Ok(Process::new(alloc, network, component)?),
        Some(cancel) => Ok(Process::with_cancel(alloc, network, component, cancel)?),
    }
}

/// A value for port 0 of a component at a tick, with a sign.
fn item_to(component: usize, sign: Sign, tick: u64, value: i64) -> Option<Item>
    ensures { IfSome result (λ i. CanTake component i.message) }
{
    let stamp = Stamp::new(tick, 0, 1).ok()?;
    if stamp.is_end() || stamp.phase() != 1 {
        return None;
    }
    let message = Message {
        stamp,
        port: 0,
        value,
        to: component,
    };
    Some(Item { sign, message })
}

/// Hands an item to a process, and answers whether it was taken.
fn hand(process: &mut Process<Model>, how: How, item: Item) -> bool
    requires fits { CanTake process.old.component item.message }
    requires floor { process.old.floor ≡ 0 }
    ensures { process.new.floor ≡ 0 }
{
    match how {
        How::Come => receive(process, item).is_ok(),
        How::Wait => process.note_orphan(item.message).is_ok(),
        How::Put => !process.can_come(&item.message) || process.put(item.message).is_ok(),
    }
}

/// Works out a chain and installs it, if there is memory for its start.
fn install(process: &mut Process<Model>, burst: usize) -> Result<Finished, AllocError>
    requires { process.old.floor ≡ 0 }
    ensures { process.new.floor ≡ 0 }
{
    let component = process.component();
    if component >= process.network().len() {
        return Err(AllocError);
    }
    let start = process.start(Stamp::new(BEYOND, 0, 0).unwrap_or(Stamp::START), burst)?;
    let chain = start.prepare(process.network().model(component));
    Ok(process.install(chain))
}

/// So many steps by chains, as many as are needed.
fn chain(told: &mut Told, alloc: Global, process: &mut Process<Model>, burst: usize)
    requires { process.old.floor ≡ 0 }
    ensures { process.new.floor ≡ 0 }
{
    let mut left = burst;
    for _ in 0..TRIES {
        left = left.saturating_sub(chain_once(told, alloc, process, left));
    }
    if left > 0 {
        told.give_up("install");
    }
}

/// A chain, and how many of its steps were made.
fn chain_once(told: &mut Told, alloc: Global, process: &mut Process<Model>, burst: usize) -> usize
    requires { process.old.floor ≡ 0 }
    ensures { process.new.floor ≡ 0 }
{
    let before = look(told, alloc, process);
    match install(process, burst) {
        Ok(finished) => finished.installed,
        Err(_) => {
            let after = look(told, alloc, process);
            told.compare("start", before, after);
            0
        }
    }
}

/// Does something with a process, so many ticks later than it says, and answers whether it was done.
fn act_once(process: &mut Process<Model>, act: Act, later: u64) -> bool
    requires { process.old.floor ≡ 0 }
    ensures { process.new.floor ≡ 0 }
{
    match act {
        Act::Step => process.step().is_ok(),
        Act::Reserve => process.reserve().is_ok(),
        Act::Hand(how, sign, tick, value) => {
            match item_to(process.component(), sign, tick.saturating_add(later), value) {
                Some(item) => hand(process, how, item),
                None => true,
            }
        }
        Act::Undo => {
            process.undo_last();
            true
        }
        Act::Back(tick, phase) => {
            back_to(process, Stamp::new(tick, 0, phase).unwrap_or(Stamp::END));
            true
        }
        Act::Settle => {
            process.settle();
            true
        }
        _ => {
            process.clear_outgoing();
            true
        }
    }
}

/// What an act is called where memory may be refused for it.
fn name_of(act: Act) -> &'static str {
    match act {
        Act::Step => "step",
        Act::Hand(How::Come, _, _, _) => "receive",
        Act::Hand(How::Wait, _, _, _) => "note_orphan",
        Act::Hand(How::Put, _, _, _) => "put",
        _ => "reserve",
    }
}

/// Does something with a process, at the second try where memory is refused at the first.
fn act_on(told: &mut Told, alloc: Global, process: &mut Process<Model>, act: Act, later: u64)
    requires { process.old.floor ≡ 0 }
    ensures { process.new.floor ≡ 0 }
{
    let before = look(told, alloc, process);
    if !act_once(process, act, later) {
        let after = look(told, alloc, process);
        told.compare(name_of(act), before, after);
        if !act_once(process, act, later) {
            told.give_up(name_of(act));
        }
    }
}

/// An act so often.
fn repeat(told: &mut Told, alloc: Global, process: &mut Process<Model>, act: Act, times: u64)
    requires { process.old.floor ≡ 0 }
    ensures { process.new.floor ≡ 0 }
{
    for later in 0..times {
        match act {
            Act::Chain(burst) => chain(told, alloc, process, burst),
            _ => act_on(told, alloc, process, act, later),
        }
    }
}

/// Does what a scene says.
fn follow(told: &mut Told, alloc: Global, process: &mut Process<Model>, acts: &[(u64, Act)])
    requires { process.old.floor ≡ 0 }
{
    for (times, act) in acts {
        repeat(told, alloc, process, *act, *times);
    }
}

/// Tells where a process stands.
fn tell_times(told: &mut Told, process: &Process<Model>) {
    tell_stamp(told, "next ", process.next());
    tell_stamp(told, " due ", process.due());
    tell_stamp(told, " last ", process.last());
    told.say("\n");
}

/// Tells how many steps and messages there are.
fn tell_lengths(told: &mut Told, process: &Process<Model>) {
    let lists = process.lists();
    tell_number(told, "steps ", process.history_len());
    tell_number(told, " pending ", lists.pending_len());
    tell_number(told, " waiting ", lists.waiting_len());
    tell_number(told, " outgoing ", lists.outgoing_len());
    tell_number(told, " owed ", lists.owed_len());
    told.say("\n");
}

/// The first few.
fn few<T>(all: &[T]) -> &[T] {
    &all[..all.len().min(SHOWN)]
}

/// A list of messages of a process.
#[derive(Clone, Copy)]
enum List {
    Pending,
    Waiting,
    Owed,
}

/// A copy of a list, if there is memory for it.
fn copy_of(process: &Process<Model>, list: List) -> Result<Vec<Message>, AllocError> {
    match list {
        List::Pending => process.lists().pending(),
        List::Waiting => process.lists().waiting(),
        List::Owed => process.owed(),
    }
}

/// Tells the first few messages of a list, by a copy, at the second try where the first finds no memory.
fn tell_list(told: &mut Told, process: &Process<Model>, words: &str, list: List) {
    let copy = match copy_of(process, list) {
        Err(_) => copy_of(process, list),
        made => made,
    };
    match copy {
        Ok(messages) => tell_messages(told, words, few(messages.as_slice())),
        Err(_) => told.give_up(words),
    }
}

/// Tells the outgoing items of a process.
fn tell_outgoing(told: &mut Told, process: &Process<Model>) {
    let outgoing = match process.lists().outgoing() {
        Err(_) => process.lists().outgoing(),
        made => made,
    };
    match outgoing {
        Ok(items) => tell_items(told, "outgoing ", few(items.as_slice())),
        Err(_) => told.give_up("outgoing"),
    }
}

/// Commits the steps before a stamp, at the second try where the first finds no memory.
fn commit(
    told: &mut Told,
    alloc: Global,
    process: &mut Process<Model>,
    column: &mut Column,
    line: Stamp,
) {
    let before = look(told, alloc, process);
    if harvest(process, column, line).is_err() {
        let after = look(told, alloc, process);
        told.compare("harvest", before, after);
        told.expect("harvest", column.is_empty());
        if harvest(process, column, line).is_err() {
            told.give_up("harvest");
        }
    }
}

/// Commits the steps before a tick, and tells the first few.
fn tell_committed(told: &mut Told, alloc: Global, process: &mut Process<Model>, tick: u64) {
    let line = Stamp::new(tick, 0, 0).unwrap_or(Stamp::START);
    let mut column = Column::new(alloc);
    commit(told, alloc, process, &mut column, line);
    tell_records(told, few(column.records()));
}

/// Does what a scene says, and tells what comes of it, and what is left when some steps are committed.
fn play_on(told: &mut Told, alloc: Global, mut process: Process<Model>, scene: &Scene)
    requires { process.floor ≡ 0 }
{
    follow(told, alloc, &mut process, scene.acts);
    tell_times(told, &process);
    tell_lengths(told, &process);
    tell_list(told, &process, "pending ", List::Pending);
    tell_list(told, &process, "waiting ", List::Waiting);
    tell_list(told, &process, "owed ", List::Owed);
    tell_outgoing(told, &process);
    tell_committed(told, alloc, &mut process, scene.line);
    tell_lengths(told, &process);
    drop(process);
}

/// Plays a scene.
pub(crate) fn play(told: &mut Told, alloc: Global, scene: &Scene) {
    told.begin(scene.name);
    let made = match process_of(alloc, scene.component, Some(scene.cancel)) {
        Err(Refusal::OutOfMemory) => process_of(alloc, scene.component, Some(scene.cancel)),
        made => made,
    };
    match made {
        Ok(process) => play_on(told, alloc, process, scene),
        Err(_) => told.give_up("new"),
    }
}
