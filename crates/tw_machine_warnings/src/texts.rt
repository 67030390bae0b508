//! The texts of a machine.
ghost use Rattle.std.specs.Prelude.{◌≡◌, ◌||◌, map, option_map};
ghost use Rattle.std.specs.List.{list_any};
ghost use Rattle.tw_machine_text.specs.Views.{body, tree};
ghost use Rattle.tw_machine_declaration.specs.Seen as plain;
ghost use Rattle.tw_machine_warnings.specs.Machines.{has_timers};
ghost use Rattle.tw_machine_warnings.specs.Texts.{
  does_machine,
  has_zero,
  has_zero_output,
  has_zero_word,
  in_each,
  in_item,
  in_machine,
  in_output,
  in_text,
  in_value,
  in_when,
  is_number_past,
  is_past,
  text,
  value_is_zero,
};

use crate::deeds::{Doing, does};
use crate::sought::{Sought, in_block, in_tree, is_outside};
use tw_machine_declaration::{Declaration, OutputText, Value};
use tw_machine_text::{Block, SourceExpr};

/// A text: a program, an entry of what is sent, a word.
#[derive(Clone, Copy)]
pub(crate) enum Text<'a> {
    Program(&'a Block),
    Output(&'a OutputText),
    Word(&'a Value),
}

pub(crate) fn in_value(sought: Sought, written: &Value) -> bool
    ensures { result ≡ in_value sought (plain.value written.now) }
{
    match written {
        Value::Number(_) => false,
        Value::Text(tree) => in_tree(sought, tree),
    }
}

fn in_when(sought: Sought, when: &Option<Value>) -> bool
    ensures { result ≡ in_when sought (option_map plain.value when.now) }
{
    match when {
        Some(test) => in_value(sought, test),
        None => false,
    }
}

fn in_each(sought: Sought, each: &Option<SourceExpr>) -> bool
    ensures { result ≡ in_each sought (option_map tree each.now) }
{
    match each {
        Some(queue) => in_tree(sought, queue),
        None => false,
    }
}

/// Whether it stands in what is said of each item.
fn in_item(sought: Sought, entry: &OutputText) -> bool
    ensures { result ≡ in_item sought (plain.output entry.now) }
{
    in_value(sought, &entry.port)
        || (in_value(sought, &entry.value) || in_when(sought, &entry.when))
}

pub(crate) fn in_output(sought: Sought, entry: &OutputText) -> bool
    ensures { result ≡ in_output sought (plain.output entry.now) }
{
    in_item(sought, entry) || in_each(sought, &entry.each)
}

/// Whether it stands in a text.
pub(crate) fn in_text(sought: Sought, said: Text<'_>) -> bool
    ensures { result ≡ in_text sought (text said.entry) }
{
    match said {
        Text::Program(program) => in_block(sought, program),
        Text::Output(entry) => in_output(sought, entry),
        Text::Word(word) => in_value(sought, word),
    }
}

fn in_outputs(sought: Sought, entries: &[OutputText]) -> bool
    ensures { result ≡ list_any (in_output sought) (map plain.output entries.now) }
{
    for entry in entries {
        if in_output(sought, entry) {
            return true;
        }
    }
    false
}

fn in_words(sought: Sought, words: &[Value]) -> bool
    ensures { result ≡ list_any (in_value sought) (map plain.value words.now) }
{
    for word in words {
        if in_value(sought, word) {
            return true;
        }
    }
    false
}

/// Whether it stands in a text of a machine.
pub fn in_machine(sought: Sought, declaration: &Declaration) -> bool
    ensures { result ≡ in_machine sought (plain.declaration declaration.now) }
{
    in_block(sought, &declaration.internal)
        || (in_block(sought, &declaration.external)
            || (in_outputs(sought, &declaration.outputs) || in_words(sought, &declaration.words)))
}

/// Whether a machine does it.
pub(crate) fn does_machine(deed: Doing, declaration: &Declaration) -> bool
    ensures { result ≡ does_machine deed (plain.declaration declaration.now) }
{
    does(deed, &declaration.internal) || does(deed, &declaration.external)
}

/// Whether it is a machine with timers.
pub(crate) fn has_timers(declaration: &Declaration) -> bool
    ensures { result ≡ has_timers (plain.declaration declaration.now) }
{
    declaration.timers.is_some()
}

/// Whether `value` or `left` stands in a program that runs for no item.
pub(crate) fn has_zero(program: &Block) -> bool
    ensures { result ≡ has_zero (body program.now) }
{
    in_block(Sought::Value, program) || in_block(Sought::Left, program)
}

fn value_is_zero(entry: &OutputText) -> bool
    ensures { result
        ≡ value_is_zero (plain.output entry.now) (option_map tree entry.now.each) }
{
    match &entry.each {
        None => in_output(Sought::Value, entry),
        Some(queue) => in_tree(Sought::Value, queue),
    }
}

/// Whether `value` or `left` stands in an entry of what is sent, and is always 0 there.
pub(crate) fn has_zero_output(entry: &OutputText) -> bool
    ensures { result ≡ has_zero_output (plain.output entry.now) }
{
    in_output(Sought::Left, entry) || value_is_zero(entry)
}

pub(crate) fn has_zero_word(word: &Value) -> bool
    ensures { result ≡ has_zero_word (plain.value word.now) }
{
    in_value(Sought::Value, word) || in_value(Sought::Left, word)
}

fn is_number_past(number: i64) -> bool
    ensures { result ≡ is_number_past number }
{
    number < 0 || number >= 16
}

/// Whether a port is a number, and none of 0 to 15.
pub(crate) fn is_past(port: &Value) -> bool
    ensures { result ≡ is_past (plain.value port.now) }
{
    match port {
        Value::Number(number) => is_number_past(*number),
        Value::Text(tree) => is_outside(16, tree),
    }
}
