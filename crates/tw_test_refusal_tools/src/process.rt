//! Sums over the contents of a process, by all that it tells without memory.

ghost use Rattle.std.specs.Prelude.{◌<◌};

use crate::sum::Sum;
use std::alloc::Global;
use tw_atomic::Atomic;
use tw_msgs::{Item, Message, Record, RecordKind, Sign, Words};
use tw_pool::Pool;
use tw_process::Process;

/// Adds the contents of a process. There is room for the words of its state.
pub fn add_process<M: Atomic>(
    sum: &mut Sum,
    alloc: Global,
    words: &mut Vec<i128>,
    process: &Process<M>,
) {
    add_times(sum, process);
    add_lengths(sum, process);
    add_steps(sum, process);
    add_state(sum, alloc, words, process);
    add_lists(sum, process);
}

/// Its stamps.
fn add_times<M: Atomic>(sum: &mut Sum, process: &Process<M>) {
    for stamp in [
        process.line(),
        process.next(),
        process.due(),
        process.last(),
    ] {
        sum.add(stamp.pack());
    }
    if let Some(stamp) = process.last_stamp() {
        sum.add(stamp.pack());
    }
}

/// How many steps and messages there are.
fn add_lengths<M: Atomic>(sum: &mut Sum, process: &Process<M>) {
    let lists = process.lists();
    sum.add_count(process.history_len());
    sum.add_count(lists.pending_len());
    sum.add_count(lists.waiting_len());
    sum.add_count(lists.outgoing_len());
    sum.add_count(lists.owed_len());
}

/// Its steps that are not committed: the record of each, and how many messages it consumed and sent.
fn add_steps<M: Atomic>(sum: &mut Sum, process: &Process<M>) {
    for step in 0..process.history_len() {
        add_step(sum, process, step);
    }
}

/// A step, if there is one.
fn add_step<M: Atomic>(sum: &mut Sum, process: &Process<M>, step: usize) {
    if let Some(record) = process.record_at(step) {
        add_record(sum, record);
    }
    if let (Some(consumed), Some(sent)) = (process.consumed_at(step), process.sent_at(step)) {
        sum.add_count(consumed);
        sum.add_count(sent);
    }
}

/// The words of its state.
fn add_state<M: Atomic>(sum: &mut Sum, alloc: Global, words: &mut Vec<i128>, process: &Process<M>) {
    let network = &**process.network();
    let component = process.component();
    if component >= network.len() {
        return;
    }
    words.clear();
    let told = network
        .model(component)
        .words(alloc, process.state(), words);
    sum.add(u64::from(told.is_ok()));
    for word in words.as_slice() {
        sum.add_signed(*word);
    }
}

/// Its lists. Those that are pending lie in any order; the first of them is known.
fn add_lists<M: Atomic>(sum: &mut Sum, process: &Process<M>) {
    let pool = process.pool();
    sum.add_in_any_order(pending_in(pool));
    for list in 1..6 {
        add_list(sum, pool, list);
    }
    if let Some(first) = process.heap().first() {
        add_message(sum, &first.key);
    }
}

/// The items of the list of pending messages, in any order.
fn pending_in(pool: &Pool<Item, 6>) -> Sum {
    let mut all = Sum::new();
    let mut at = pool.first(0);
    for _ in 0..pool.len(0) {
        let Some(index) = at else {
            break;
        };
        let mut sum = Sum::new();
        add_item(&mut sum, pool.get(index));
        all.add_in_any_order(sum);
        at = pool.next(index);
    }
    all
}

/// The items of a list.
fn add_list(sum: &mut Sum, pool: &Pool<Item, 6>, list: usize)
    requires { list < 6 }
{
    sum.add_count(pool.len(list));
    let mut at = pool.first(list);
    for _ in 0..pool.len(list) {
        let Some(index) = at else {
            break;
        };
        add_item(sum, pool.get(index));
        at = pool.next(index);
    }
}

/// Adds items in their order.
pub fn add_items(sum: &mut Sum, items: &[Item]) {
    sum.add_count(items.len());
    for item in items {
        add_item(sum, item);
    }
}

/// A message with its sign.
fn add_item(sum: &mut Sum, item: &Item) {
    sum.add(match item.sign {
        Sign::Positive => 0,
        Sign::Anti => 1,
    });
    add_message(sum, &item.message);
}

/// A message.
fn add_message(sum: &mut Sum, message: &Message) {
    sum.add(message.stamp.pack());
    sum.add(u64::from(message.port));
    sum.add_signed(i128::from(message.value));
    sum.add_count(message.to);
}

/// Adds records in their order.
pub fn add_records(sum: &mut Sum, records: &[Record]) {
    sum.add_count(records.len());
    for record in records {
        add_record(sum, record);
    }
}

/// A record.
fn add_record(sum: &mut Sum, record: &Record) {
    sum.add_count(record.component);
    sum.add(record.stamp.pack());
    sum.add(match record.kind {
        RecordKind::Out => 0,
        RecordKind::Int => 1,
        RecordKind::Ext => 2,
        RecordKind::Con => 3,
    });
    for (port, value) in record.bag.iter() {
        sum.add(u64::from(*port));
        sum.add_signed(i128::from(*value));
    }
    add_words(sum, &record.words);
}

/// The words of a record.
fn add_words(sum: &mut Sum, words: &Words) {
    for place in 0..words.len() {
        if let Some(word) = words.get(place) {
            sum.add_signed(word);
        }
    }
}
