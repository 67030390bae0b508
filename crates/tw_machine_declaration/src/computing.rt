//! How many computations what is sent and the words make. Counts end at 262,145, one past what is allowed.
ghost use Rattle.std.specs.Prelude.{◌≡◌, ◌≤◌, ◌*◌, map, min, option_map, sum_by};
ghost use Rattle.tw_machine.specs.Limits.{computations_end};
ghost use Rattle.tw_machine_text.specs.Views.{tree};
ghost use Rattle.tw_machine_declaration.specs.Seen as plain;
ghost use Rattle.tw_machine_declaration.specs.Members.{
  value_work,
  when_work,
  each_work,
  once_work,
  sendings,
  output_work,
  shown_over,
  word_over,
  word_work,
};

use crate::declaration::{OutputText, Value};
use crate::names::{Standing, standing_at};
use crate::work::{queue_room, room_at, work};
use tw_machine::limits::{COMPUTATIONS_END, OBSERVATION_CELLS};
use tw_machine_text::SourceExpr;

/// The computations of an expression in a member, at most 262,145.
fn value_work(standings: &[Standing], written: &Value) -> usize
    ensures value { result
        ≡ min (value_work standings.now (plain.value written.now)) computations_end }
    ensures small { result ≤ computations_end }
{
    match written {
        Value::Number(_) => 1,
        Value::Text(tree) => work(standings, tree),
    }
}

/// The computations of a condition, at most 262,145.
fn when_work(standings: &[Standing], when: &Option<Value>) -> usize
    ensures value { result
        ≡ min (when_work standings.now (option_map plain.value when.now)) computations_end }
    ensures small { result ≤ computations_end }
{
    match when {
        Some(test) => value_work(standings, test),
        None => 0,
    }
}

/// The computations of a queue's name, at most 262,145.
fn each_work(standings: &[Standing], each: &Option<SourceExpr>) -> usize
    ensures value { result
        ≡ min (each_work standings.now (option_map tree each.now)) computations_end }
    ensures small { result ≤ computations_end }
{
    match each {
        Some(queue) => work(standings, queue),
        None => 0,
    }
}

/// The computations of an output that is sent once, at most 262,145.
fn once_work(standings: &[Standing], text: &OutputText) -> usize
    ensures value { result
        ≡ min (once_work standings.now (plain.output text.now)) computations_end }
    ensures small { result ≤ computations_end }
{
    let sent = value_work(standings, &text.port) + value_work(standings, &text.value);
    (sent + when_work(standings, &text.when) + each_work(standings, &text.each)).min(
        COMPUTATIONS_END,
    )
}

/// How often an output is sent at the most.
fn sendings(standings: &[Standing], each: &Option<SourceExpr>) -> usize
    ensures value { result ≡ sendings standings.now (option_map tree each.now) }
    ensures small { result ≤ 65535 }
{
    match each {
        Some(queue) => queue_room(standings, queue),
        None => 1,
    }
}

/// The computations of an output, at most 262,145.
#[tactic(auto, using(crate::proofs::Capped::capped))]
fn output_work(standings: &[Standing], text: &OutputText) -> usize
    ensures value { result
        ≡ min (output_work standings.now (plain.output text.now)) computations_end }
    ensures small { result ≤ computations_end }
{
    (sendings(standings, &text.each) * once_work(standings, text)).min(COMPUTATIONS_END)
}

/// The computations of all outputs, at most 262,145.
pub fn outputs_work(standings: &[Standing], texts: &[OutputText]) -> usize
    ensures value { result
        ≡ min (sum_by (output_work standings.now) (map plain.output texts.now)) computations_end }
    ensures small { result ≤ computations_end }
{
    let mut total = 0;
    for text in texts {
        total = (total + output_work(standings, text)).min(COMPUTATIONS_END);
    }
    total
}

/// How many numbers a name shows beside one.
fn shown_over(standing: Standing) -> usize
    ensures value { result ≡ shown_over standing }
    ensures small { result ≤ 4294967295 }
{
    match standing {
        Standing::Queue(_, room) => room as usize,
        Standing::Cells(span) => span.count as usize,
        Standing::Observation(_) => OBSERVATION_CELLS,
        _ => 0,
    }
}

/// How many numbers a text in `words` shows beside one.
fn word_over(standings: &[Standing], written: &SourceExpr) -> usize
    ensures value { result ≡ word_over standings.now (tree written.now) }
    ensures small { result ≤ 4294967295 }
{
    match written {
        SourceExpr::Name(name) => shown_over(standing_at(standings, *name)),
        SourceExpr::Indexed(name, index) => match &**index {
            SourceExpr::Number(_) => room_at(standing_at(standings, *name)),
            _ => 0,
        },
        _ => 0,
    }
}

/// The computations of an entry of `words`, at most 262,145.
fn word_work(standings: &[Standing], written: &Value) -> usize
    ensures value { result
        ≡ min (word_work standings.now (plain.value written.now)) computations_end }
    ensures small { result ≤ computations_end }
{
    match written {
        Value::Number(_) => 1,
        Value::Text(tree) => (work(standings, tree) + word_over(standings, tree)).min(
            COMPUTATIONS_END,
        ),
    }
}

/// The computations of all words, at most 262,145.
pub fn words_work(standings: &[Standing], texts: &[Value]) -> usize
    ensures value { result
        ≡ min (sum_by (word_work standings.now) (map plain.value texts.now)) computations_end }
    ensures small { result ≤ computations_end }
{
    let mut total = 0;
    for text in texts {
        total = (total + word_work(standings, text)).min(COMPUTATIONS_END);
    }
    total
}
