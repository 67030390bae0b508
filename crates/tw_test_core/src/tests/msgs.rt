//! Bags, records and words, and the order and the count of messages, by worked examples.

use super::helpers::{message, stamp};
use std::alloc::{AllocError, Global};
use std::process::Abort;
use tw_msgs::{
    Bag, Item, Message, Record, RecordKind, Sign, Words, equality_law, message_order_law,
    signed_count,
};
use tw_vtime::Stamp;

/// Ten items, more than a bag holds without memory.
static TEN: [(u8, i64); 10] = [
    (3, -1),
    (0, 7),
    (15, i64::MIN),
    (3, -1),
    (0, -7),
    (3, 4),
    (15, i64::MAX),
    (0, 7),
    (1, 0),
    (3, -2),
];

/// The same items by port, then value.
static TEN_SORTED: [(u8, i64); 10] = [
    (0, -7),
    (0, 7),
    (0, 7),
    (1, 0),
    (3, -2),
    (3, -1),
    (3, -1),
    (3, 4),
    (15, i64::MIN),
    (15, i64::MAX),
];

/// A record of this kind, of the ten items and with these words.
fn record_of(alloc: Global, kind: RecordKind, words: &[i128]) -> Result<Record, AllocError> {
    let mut bag = Bag::new(alloc);
    for item in TEN.iter() {
        bag.push(*item)?;
    }
    Ok(Record {
        component: 3,
        stamp: Stamp::START,
        kind,
        bag,
        words: Words::of(alloc, words)?,
    })
}

/// Asserts that a bag has the ten items in order, by each of its readers, and empties it.
fn assert_sorted(rt: &impl Abort, bag: &mut Bag) {
    assert!(rt; bag.as_slice() == TEN_SORTED.as_slice() && bag.len() == 10 && !bag.is_empty());
    assert!(rt; bag.iter().next() == Some(&(0, -7)));
    let mut last = (0, i64::MIN);
    for item in &*bag {
        assert!(rt; last <= *item);
        last = *item;
    }
    assert!(rt; last == (15, i64::MAX));
    bag.clear();
    assert!(rt; bag.is_empty());
}

/// Kinds and words of other records.
static OTHERS: [(RecordKind, &'static [i128]); 3] = [
    (RecordKind::Ext, &[0, -1, i128::MAX]),
    (RecordKind::Con, &[0, -1]),
    (RecordKind::Con, &[0, -1, 2]),
];

/// Asserts that a record is none of the others.
fn assert_none_other(rt: &impl Abort, alloc: Global, record: &Record) -> Result<(), AllocError> {
    for (kind, words) in OTHERS.iter() {
        let other = record_of(alloc, *kind, *words)?;
        assert!(rt; *record != other);
    }
    Ok(())
}

/// A copy is no part of its record.
fn assert_copied(rt: &impl Abort, record: &Record) -> Result<(), AllocError> {
    let mut copy = record.clone()?;
    assert!(rt; copy == *record);
    copy.bag.sort();
    assert!(rt;
        copy != *record && copy.words == record.words && record.bag.as_slice() == TEN.as_slice()
    );
    assert_sorted(rt, &mut copy.bag);
    Ok(())
}

/// Asserts that words are 0, -1 and the greatest number of 128 bits, by each of their readers.
fn assert_words(rt: &impl Abort, alloc: Global, words: &Words) -> Result<(), AllocError> {
    assert!(rt; words.len() == 3 && !words.is_empty());
    assert!(rt; words.get(2) == Some(i128::MAX) && words.get(3).is_none());
    let mut numbers = Vec::from_slice(alloc, &[7])?;
    words.append_to(&mut numbers)?;
    assert!(rt; numbers.as_slice() == [7, 0, -1, i128::MAX].as_slice());
    Ok(())
}

/// Asserts that a record is compared by each part.
fn assert_record(rt: &impl Abort, alloc: Global, record: &Record) -> Result<(), AllocError> {
    assert_none_other(rt, alloc, record)?;
    assert_copied(rt, record)?;
    assert_words(rt, alloc, &record.words)
}

/// Records are compared by each part.
fn records(rt: &impl Abort, alloc: Global) -> Result<(), AllocError> {
    equality_law();
    assert_record(
        rt,
        alloc,
        &record_of(alloc, RecordKind::Con, &[0, -1, i128::MAX])?,
    )
}

/// The second try is made where memory is refused in the first.
#[test]
fn bags_are_sorted_and_records_are_compared(rt: HostRuntime) {
    if records(&rt, rt.alloc()).is_err() {
        records(&rt, rt.alloc()).expect(&rt, "memory");
    }
}

/// Microstep, port, value and receiver of messages of tick 1, in their order.
static RISING: [(u32, u8, i64, usize); 6] = [
    (0, 0, 9, 9),
    (0, 2, -1, 9),
    (0, 2, 3, 0),
    (0, 2, 3, 8),
    (0, 15, i64::MIN, 0),
    (1, 0, i64::MIN, 0),
];

/// Signs, ticks, ports, values and receivers of items.
static ITEMS: [(Sign, u64, u8, i64, usize); 9] = [
    (Sign::Positive, 2, 1, 5, 4),
    (Sign::Anti, 2, 1, 5, 3),
    (Sign::Positive, 2, 1, 5, 4),
    (Sign::Anti, 2, 1, 5, 4),
    (Sign::Positive, 2, 1, 6, 4),
    (Sign::Positive, 2, 2, 5, 4),
    (Sign::Positive, 3, 1, 5, 4),
    (Sign::Positive, 2, 1, 5, 4),
    (Sign::Anti, 2, 1, 5, 3),
];

/// Messages of port, value and receiver at tick 2, and how often they are among the items, less their anti-messages.
static COUNTS: [(u8, i64, usize, i64); 3] = [(1, 5, 4, 2), (1, 5, 3, -2), (0, 0, 0, 0)];

/// The items.
fn items(rt: &impl Abort, alloc: Global) -> Result<Vec<Item>, AllocError> {
    let mut items = Vec::new(alloc);
    for (sign, tick, port, value, to) in ITEMS.iter() {
        let message = message(rt, *tick, *to, *port, *value);
        items.push(Item {
            sign: *sign,
            message,
        })?;
    }
    Ok(items)
}

#[test]
fn messages_are_in_order(rt: HostRuntime) {
    message_order_law();
    let mut last = None;
    for (microstep, port, value, to) in RISING.iter() {
        let next = Some(Message {
            stamp: stamp(&rt, 1, *microstep, 1),
            port: *port,
            value: *value,
            to: *to,
        });
        assert!(rt; last < next);
        last = next;
    }
}

#[test]
fn messages_count_up_and_anti_messages_down(rt: HostRuntime) {
    let items = items(&rt, rt.alloc()).expect(&rt, "memory");
    for (port, value, to, count) in COUNTS.iter() {
        let message = message(&rt, 2, *to, *port, *value);
        assert!(rt; signed_count(items.as_slice(), &message) == *count);
    }
}
