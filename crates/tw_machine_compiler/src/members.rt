//! The other members of a machine in its own language: values, outputs, words, and the numbers at the start.
ghost use Rattle.std.specs.Prelude.{◌≡◌, ◌≤◌, min, IfOk, map, option_map};
ghost use Rattle.tw_machine_text.specs.Views.{tree};
ghost use Rattle.tw_machine.specs.Values.{brought};
ghost use Rattle.tw_machine_declaration.specs.Seen as plain;
ghost use Rattle.tw_machine_declaration.specs.Names.{start_of};
ghost use Rattle.tw_machine.specs.Seen.{seen, seen_target, seen_output, seen_word};
ghost use Rattle.tw_machine_compiler.specs.Expressions.{number, queue};
ghost use Rattle.tw_machine_compiler.specs.Program.{
  value,
  output,
  word_named,
  word_numbered,
  word_of,
  shown_word,
  seed,
  wait,
  ticks,
};

use crate::expressions::{expression, number, queue};
use std::alloc::{AllocError, Global};
use tw_machine::language::{Expr, Leaf, Output, Span, Target, Word};
use tw_machine_declaration::{
    Constant, Given, OutputText, Standing, Value, constant, observation_span, standing_at, start_of,
};
use tw_machine_text::SourceExpr;

/// An expression in a member.
fn value(alloc: Global, standings: &[Standing], written: &Value) -> Result<Expr, AllocError>
    ensures { IfOk result (λ e. seen e ≡ value standings.now (plain.value written.now)) }
{
    match written {
        Value::Number(number) => Ok(Expr::Plain(Leaf::Number(*number))),
        Value::Text(tree) => expression(alloc, standings, tree),
    }
}

/// A condition, if there is one.
fn condition(
    alloc: Global,
    standings: &[Standing],
    when: &Option<Value>,
) -> Result<Option<Expr>, AllocError>
    ensures { IfOk result (λ test. option_map seen test
        ≡ option_map (value standings.now) (option_map plain.value when.now)) }
{
    match when {
        Some(test) => Ok(Some(value(alloc, standings, test)?)),
        None => Ok(None),
    }
}

/// A queue, if there is one.
fn gone_through(
    alloc: Global,
    standings: &[Standing],
    each: &Option<SourceExpr>,
) -> Result<Option<Target>, AllocError>
    ensures { IfOk result (λ target. option_map seen_target target
        ≡ option_map (queue standings.now) (option_map tree each.now)) }
{
    match each {
        Some(tree) => Ok(Some(queue(alloc, standings, tree)?)),
        None => Ok(None),
    }
}

/// An entry of what is sent.
fn output(alloc: Global, standings: &[Standing], text: &OutputText) -> Result<Output, AllocError>
    ensures { IfOk result (λ o. seen_output o ≡ output standings.now (plain.output text.now)) }
{
    Ok(Output {
        when: condition(alloc, standings, &text.when)?,
        each: gone_through(alloc, standings, &text.each)?,
        port: value(alloc, standings, &text.port)?,
        value: value(alloc, standings, &text.value)?,
    })
}

/// A queue, an array register or an observation by its name, or else an expression.
fn word_named(standing: Standing, shown: Expr) -> Word
    ensures { seen_word result ≡ word_named standing (seen shown) }
{
    match standing {
        Standing::Queue(place, _) => Word::Values(place),
        Standing::Cells(span) => Word::Cells(span),
        Standing::Observation(first) => Word::Cells(observation_span(first)),
        _ => Word::Number(shown),
    }
}

/// The place that a number says.
fn brought(span: Span, index: u64) -> u32
    ensures { result ≡ min (brought span (number index)) 4294967295 }
{
    let last = span.count.saturating_sub(1) as u64;
    (span.first as u64 + index.min(last)).min(4294967295) as u32
}

/// A queue of an array by its number, or else an expression.
fn word_numbered(standing: Standing, index: u64, shown: Expr) -> Word
    ensures { seen_word result ≡ word_numbered standing index (seen shown) }
{
    match standing {
        Standing::Queues(span, _) => Word::Values(brought(span, index)),
        _ => Word::Number(shown),
    }
}

/// What a text in `words` shows.
fn word_of(alloc: Global, standings: &[Standing], written: &SourceExpr) -> Result<Word, AllocError>
    ensures { IfOk result (λ word. seen_word word ≡ word_of standings.now (tree written.now)) }
{
    let shown = expression(alloc, standings, written)?;
    match written {
        SourceExpr::Name(name) => Ok(word_named(standing_at(standings, *name), shown)),
        SourceExpr::Indexed(name, index) => match &**index {
            SourceExpr::Number(place) => {
                Ok(word_numbered(standing_at(standings, *name), *place, shown))
            }
            _ => Ok(Word::Number(shown)),
        },
        _ => Ok(Word::Number(shown)),
    }
}

/// What an entry of `words` shows.
fn shown_word(alloc: Global, standings: &[Standing], written: &Value) -> Result<Word, AllocError>
    ensures { IfOk result
        (λ word. seen_word word ≡ shown_word standings.now (plain.value written.now)) }
{
    match written {
        Value::Number(number) => Ok(Word::Number(Expr::Plain(Leaf::Number(*number)))),
        Value::Text(tree) => word_of(alloc, standings, tree),
    }
}

/// What is sent. The only error is want of memory.
pub(crate) fn outputs(
    alloc: Global,
    standings: &[Standing],
    texts: &[OutputText],
) -> Result<Vec<Output>, AllocError>
    ensures { IfOk result (λ outputs. map seen_output outputs.items
        ≡ map (output standings.now) (map plain.output texts.now)) }
{
    let mut outputs = Vec::with_capacity(alloc, texts.len())?;
    for text in texts {
        outputs.push(output(alloc, standings, text)?)?;
    }
    Ok(outputs)
}

/// The numbers by which a state is written. The only error is want of memory.
pub(crate) fn words(
    alloc: Global,
    standings: &[Standing],
    texts: &[Value],
) -> Result<Vec<Word>, AllocError>
    ensures { IfOk result (λ words. map seen_word words.items
        ≡ map (shown_word standings.now) (map plain.value texts.now)) }
{
    let mut words = Vec::with_capacity(alloc, texts.len())?;
    for text in texts {
        words.push(shown_word(alloc, standings, text)?)?;
    }
    Ok(words)
}

/// A number modulo 2^64.
fn modulo(number: i64) -> u64
    ensures { result ≡ seed number }
{
    if number >= 0 {
        number as u64
    } else {
        u64::MAX - (-(number + 1)) as u64
    }
}

/// From which the random number is drawn at the start.
pub(crate) fn seed(given: &Given, random: Constant) -> u64
    ensures { result ≡ seed (start_of (plain.given given.now) random) }
{
    modulo(start_of(given, random))
}

/// A first wait; none where it is negative.
fn wait(number: i64) -> Option<u64>
    ensures { result ≡ wait number }
{
    if number >= 0 {
        Some(number as u64)
    } else {
        None
    }
}

/// A time that a constant says, if it is not negative.
pub(crate) fn ticks(given: &Given, said: Option<Constant>) -> Option<u64>
    ensures { result ≡ ticks (plain.given given.now) said }
{
    wait(constant(given, said?)?)
}
