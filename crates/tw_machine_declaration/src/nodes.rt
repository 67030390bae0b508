//! How many nodes a machine has. Counts end at 4,097, one past what is allowed.
ghost use Rattle.std.specs.Prelude.{◌≡◌, ◌≤◌, map, min, option_map, sum_by};
ghost use Rattle.tw_machine_text.specs.Limits.{nodes_end};
ghost use Rattle.tw_machine_text.specs.Views.{tree};
ghost use Rattle.tw_machine_declaration.specs.Seen as plain;
ghost use Rattle.tw_machine_declaration.specs.Members.{
  value_nodes,
  when_nodes,
  each_nodes,
  output_nodes,
  all_nodes,
};

use crate::declaration::{Declaration, OutputText, Value};
use tw_machine_text::{NODES_END, SourceExpr, nodes, nodes_block};

/// The nodes of an expression in a member, at most 4,097.
fn value_nodes(written: &Value) -> usize
    ensures value { result ≡ min (value_nodes (plain.value written.now)) nodes_end }
    ensures small { result ≤ nodes_end }
{
    match written {
        Value::Number(_) => 1,
        Value::Text(tree) => nodes(tree),
    }
}

/// The nodes of a condition, at most 4,097.
fn when_nodes(when: &Option<Value>) -> usize
    ensures value { result ≡ min (when_nodes (option_map plain.value when.now)) nodes_end }
    ensures small { result ≤ nodes_end }
{
    match when {
        Some(test) => value_nodes(test),
        None => 0,
    }
}

/// The nodes of a queue, at most 4,097.
fn each_nodes(each: &Option<SourceExpr>) -> usize
    ensures value { result ≡ min (each_nodes (option_map tree each.now)) nodes_end }
    ensures small { result ≤ nodes_end }
{
    match each {
        Some(queue) => nodes(queue),
        None => 0,
    }
}

/// The nodes of an entry of what is sent, at most 4,097.
fn output_nodes(text: &OutputText) -> usize
    ensures value { result ≡ min (output_nodes (plain.output text.now)) nodes_end }
    ensures small { result ≤ nodes_end }
{
    let sent = value_nodes(&text.port) + value_nodes(&text.value);
    (sent + when_nodes(&text.when) + each_nodes(&text.each)).min(NODES_END)
}

/// The nodes of what is sent, at most 4,097.
fn outputs_nodes(texts: &[OutputText]) -> usize
    ensures value { result ≡ min (sum_by output_nodes (map plain.output texts.now)) nodes_end }
    ensures small { result ≤ nodes_end }
{
    let mut total = 0;
    for text in texts {
        total = (total + output_nodes(text)).min(NODES_END);
    }
    total
}

/// The nodes of the words, at most 4,097.
fn words_nodes(texts: &[Value]) -> usize
    ensures value { result ≡ min (sum_by value_nodes (map plain.value texts.now)) nodes_end }
    ensures small { result ≤ nodes_end }
{
    let mut total = 0;
    for text in texts {
        total = (total + value_nodes(text)).min(NODES_END);
    }
    total
}

/// The nodes of a machine's programs, outputs and words, at most 4,097.
pub fn all_nodes(declaration: &Declaration) -> usize
    ensures value { result ≡ min (all_nodes (plain.declaration declaration.now)) nodes_end }
{
    let programs = nodes_block(&declaration.internal) + nodes_block(&declaration.external);
    let sent = outputs_nodes(declaration.outputs.as_slice());
    let shown = words_nodes(declaration.words.as_slice());
    (programs + sent + shown).min(NODES_END)
}
