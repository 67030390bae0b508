//! Each call that writes a text, and the replies that no case of the program has.

use std::process::Abort;
use std::test::Fail;
use tw_exec::{Done, Refused};
use tw_inspect::{Reply, push_reply};
use tw_msgs::{Bag, Message, Record, RecordKind, Sign, Words};
use tw_texts::{
    kind_name, push_bag, push_fault, push_message, push_record, push_time, push_words, sign_name,
};
use tw_vtime::{Limit, Stamp};

/// A time, a bag, words, a message, a record and a fault.
const TEXT: &str = "\
end: 0=4 15=-9223372036854775808
2 -9223372036854775808 13525302890751722018
255=-1 at 1099511627774.8388607.1
1099511627774.8388607 a con 0=1 | 7
fault: tick limit: b at 1099511627774.8388607
";

#[test]
fn writes_texts(rt: HostRuntime) {
    let alloc = rt.alloc();
    let stamp = Stamp::new(1_099_511_627_774, 8_388_607, 1).expect(&rt, "a stamp");
    let message = Message {
        stamp,
        port: 255,
        value: -1,
        to: 2,
    };
    let mut bag = Bag::new(alloc);
    bag.push((0, 1)).expect(&rt, "memory");
    let record = Record {
        component: 0,
        stamp,
        kind: RecordKind::Con,
        bag,
        words: Words::from(Vec::from_slice(alloc, &[7]).expect(&rt, "memory")),
    };
    let mut text = String::new(alloc);
    push_time(&mut text, Stamp::END).expect(&rt, "memory");
    text.push_str(": ").expect(&rt, "memory");
    push_bag(&mut text, &[(0, 4), (15, i64::MIN)]).expect(&rt, "memory");
    text.push('\n').expect(&rt, "memory");
    push_words(
        &mut text,
        &[2, -9_223_372_036_854_775_808, 13_525_302_890_751_722_018],
    )
    .expect(&rt, "memory");
    text.push('\n').expect(&rt, "memory");
    push_message(&mut text, &message).expect(&rt, "memory");
    text.push('\n').expect(&rt, "memory");
    push_record(&mut text, "a", &record).expect(&rt, "memory");
    push_fault(&mut text, "b", stamp, Limit::Tick).expect(&rt, "memory");
    assert!(rt; text.as_str() == TEXT);
    assert!(rt; (sign_name(Sign::Anti), kind_name(RecordKind::Ext)) == ("-", "ext"));
}

/// The replies that no case of the program has.
const REPLIES: &str = "\
refused 2 Microstep
refused 3 Tick
refused 4 OutOfMemory
refused 12 Full
stepped 0.0.0 out
";

#[test]
fn other_replies(rt: HostRuntime) -> Result<(), Fail> {
    let mut text = String::new(rt.alloc());
    for reply in [
        Reply::Refused(Refused::OverLimit(Limit::Microstep)),
        Reply::Refused(Refused::OverLimit(Limit::Tick)),
        Reply::Refused(Refused::OutOfMemory),
        Reply::Refused(Refused::Full),
        Reply::Done(Done::Stepped(Stamp::START, RecordKind::Out)),
    ] {
        push_reply(&mut text, reply)?;
    }
    assert!(rt; text.as_str() == REPLIES);
    Ok(())
}
