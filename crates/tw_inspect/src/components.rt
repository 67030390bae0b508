//! The line of a component in a report. Where memory is wanting a part of it may stand there: the callers
//! give the text up.

ghost use Rattle.std.specs.Prelude.{◌≡◌, ◌++◌, IfOk, OnOk, string_bytes};
ghost use Rattle.tw_inspect.specs.Reports.{component_line, counts_part, owed_part, seen, stamps_part, words_part};

use std::alloc::{AllocError, Global};
use tw_atomic::Atomic;
use tw_msgs::Item;
use tw_process::{Cancel, Process};
use tw_texts::{push_time, push_words};

/// The line of a component, as `t line 0.0.0 next 4.0.1 due end last 0.0 steps 0 pending 1 waiting 0
/// outgoing 0 mail 1 | 0 0 0`.
pub(crate) fn add_component<M: Atomic>(
    alloc: Global,
    text: &mut String,
    name: &str,
    model: &M,
    process: &Process<M>,
    mail: &[Item],
) -> Result<(), AllocError>
    ensures { OnOk result (string_bytes text.new ≡ string_bytes text.old
        ++ component_line (seen M.meaning name.now model.now process.now.process mail.now)) }
{
    let words = words_of(alloc, model, process.state())?;
    text.push_str(name)?;
    add_stamps(text, process)?;
    add_counts(text, process)?;
    add_words(text, mail.len(), words.as_slice())
}

/// The words of a state.
fn words_of<M: Atomic>(alloc: Global, model: &M, state: &M::State) -> Result<Vec<i128>, AllocError>
    ensures { IfOk result (λ words. words.items ≡ (M.meaning model.now).words state.now) }
{
    let mut words = Vec::new(alloc);
    model.words(alloc, state, &mut words)?;
    Ok(words)
}

/// Its stamps and times.
fn add_stamps<M: Atomic>(text: &mut String, process: &Process<M>) -> Result<(), AllocError>
    ensures { OnOk result
        (string_bytes text.new ≡ string_bytes text.old ++ stamps_part process.now.process) }
{
    let line = process.line();
    let next = process.next();
    let due = process.due();
    write!(text, " line {line} next {next} due {due} last ")?;
    push_time(text, process.last())
}

/// The lengths of its lists.
fn add_counts<M: Atomic>(text: &mut String, process: &Process<M>) -> Result<(), AllocError>
    ensures { OnOk result
        (string_bytes text.new ≡ string_bytes text.old ++ counts_part process.now.process) }
{
    let steps = process.history_len();
    let lists = process.lists();
    let pending = lists.pending_len();
    let waiting = lists.waiting_len();
    let outgoing = lists.outgoing_len();
    write!(
        text,
        " steps {steps} pending {pending} waiting {waiting} outgoing {outgoing}"
    )?;
    add_owed_count(text, process.cancel(), lists.owed_len())
}

/// How many items are in its mailbox, and the words of its present state.
fn add_words(text: &mut String, mail: usize, words: &[i128]) -> Result<(), AllocError>
    ensures { OnOk result
        (string_bytes text.new ≡ string_bytes text.old ++ words_part mail words.now) }
{
    write!(text, " mail {mail} | ")?;
    push_words(text, words)?;
    text.push_str("\n")
}

/// How many messages are owed, where steps are cancelled lazily.
fn add_owed_count(text: &mut String, cancel: Cancel, count: usize) -> Result<(), AllocError>
    ensures { OnOk result
        (string_bytes text.new ≡ string_bytes text.old ++ owed_part cancel count) }
{
    match cancel {
        Cancel::Aggressive => Ok(()),
        Cancel::Lazy => write!(text, " owed {count}"),
    }
}
