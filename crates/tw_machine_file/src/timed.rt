//! What the timers of a machine do and send, and what the machine does and sends with them.
ghost use Rattle.std.specs.Prelude.{◌≡◌, ◌++◌, Ok, IfOk, OnOk, map};
ghost use Rattle.serde_json.specs.View.{view, items_view};
ghost use Rattle.std.specs.List.{list_any};
ghost use Rattle.tw_machine_text.specs.TextViews.{declarations};
ghost use Rattle.tw_machine_text.specs.Views.{body};
ghost use Rattle.tw_machine_declaration.specs.Seen.{output, value as shown};
ghost use Rattle.tw_machine_declaration.specs.Timed.{pushes};
ghost use Rattle.tw_machine_declaration.specs.TimedViews.{named, timer_output};
ghost use Rattle.tw_machine_file.specs.Answers.{Gives, FailsBy, data_of};
ghost use Rattle.tw_machine_file.specs.Seen.{texts};
ghost use Rattle.tw_machine_file.specs.Texts.{language_of};
ghost use Rattle.tw_machine_file.specs.Timed.{
  absent,
  in_core,
  is_counted,
  language_at,
  language_with,
  no_texts,
  outputs_by,
  own_name,
  text_behind,
  text_in,
  text_of,
  texts_behind,
  timed_texts,
  timers_said,
  with_text,
};
ghost use Rattle.tw_machine_file.specs.TimedViews.{timer_text, timer_texts};

use crate::fault::{MachineFault, Part, Sender, Why};
use crate::machine::Texts;
use crate::outputs::outputs_in;
use crate::procedures::procedures_said;
use crate::texts::{Language, program_in};
use crate::values::items_of;
use crate::words::words_in;
use serde_json::Value;
use std::alloc::{AllocError, Global};
use tw_machine_compiler::{OutputText, TimerOutput, Value as Said};
use tw_machine_declaration::{TimerNames, ended, internal, pushes, timed_outputs};
use tw_machine_text::{Block, Declared};

/// What a timer does and sends.
#[derive(Drop)]
pub(crate) struct TimerText {
    pub program: Block,
    pub outputs: Vec<OutputText>,
}

/// What all timers do and send, in order.
#[derive(Drop)]
pub(crate) struct TimerTexts {
    pub programs: Vec<Block>,
    pub outputs: Vec<TimerOutput>,
}

/// A member that no machine with timers has.
fn absent(part: Part, member: Option<&Value>) -> Result<(), MachineFault>
    ensures ok { OnOk result (absent part (data_of member.entry) ≡ Ok tt) }
    ensures err { FailsBy result (absent part (data_of member.entry)) }
{
    match member {
        Some(_) => Err(MachineFault::Wrong(part, Why::Unknown)),
        None => Ok(()),
    }
}

/// Whether a timer has a count.
fn is_counted(entry: &Value) -> bool
    ensures { result ≡ is_counted (view entry.now) }
{
    entry.get("count").is_some()
}

/// The name of how many timers are before the one at a place, where this has a count: `which` is told by it.
fn own_name(names: TimerNames, place: usize, counted: bool) -> Option<usize>
    ensures { result ≡ own_name (named names) place counted }
{
    if counted {
        Some(names.before(place))
    } else {
        None
    }
}

/// The language of a machine with timers: that of texts of no timer with a count.
fn language_with<'a>(declared: &'a [Declared], names: TimerNames) -> Language<'a>
    ensures { language_of result ≡ language_with (declarations declared.now) (named names) }
{
    Language {
        declared,
        timing: Some(names.timing(None)),
    }
}

/// The language of the texts of the timer at a place.
#[tactic(auto, unfolding(crate::specs::Texts::language_of))]
fn language_at<'a>(
    language: &Language<'a>,
    names: TimerNames,
    place: usize,
    counted: bool,
) -> Language<'a>
    ensures { language_of result
        ≡ language_at (named names) place counted (language_of language.now) }
{
    Language {
        declared: language.declared,
        timing: Some(names.timing(own_name(names, place, counted))),
    }
}

/// What the timer at a place does and sends, in its language, in which procedures are read anew.
fn text_in(
    alloc: Global,
    language: &Language<'_>,
    procedures: Option<&Value>,
    place: usize,
    entry: &Value,
) -> Result<TimerText, MachineFault>
    ensures ok { Gives result timer_text (text_in (language_of language.now) (data_of procedures.entry)
        place (view entry.now)) }
    ensures err { FailsBy result (text_in (language_of language.now) (data_of procedures.entry)
        place (view entry.now)) }
{
    let procedures = procedures_said(alloc, language, procedures)?;
    let part = Part::TimerProgram(place);
    let program = program_in(alloc, language, &procedures, part, entry.get("do"))?;
    let outputs = outputs_in(alloc, language, Sender::Timer(place), entry.get("output"))?;
    Ok(TimerText { program, outputs })
}

/// What the timer at a place does and sends. Procedures are read anew for it, since `which` hangs on it.
fn text_of(
    alloc: Global,
    language: &Language<'_>,
    names: TimerNames,
    procedures: Option<&Value>,
    place: usize,
    entry: &Value,
) -> Result<TimerText, MachineFault>
    ensures ok { Gives result timer_text (text_of (language_of language.now) (named names)
        (data_of procedures.entry) place (view entry.now)) }
    ensures err { FailsBy result (text_of (language_of language.now) (named names)
        (data_of procedures.entry) place (view entry.now)) }
{
    let own = language_at(language, names, place, is_counted(entry));
    text_in(alloc, &own, procedures, place, entry)
}

/// Appends the outputs of the timer at a place.
fn add_outputs(
    sent: &mut Vec<TimerOutput>,
    place: usize,
    counted: bool,
    outputs: Vec<OutputText>,
) -> Result<(), AllocError>
    ensures { OnOk result (map timer_output sent.new.items ≡ map timer_output sent.old.items
        ++ outputs_by place counted (map output outputs.items)) }
{
    for output in outputs {
        sent.push(TimerOutput {
            timer: place,
            counted,
            output,
        })?;
    }
    Ok(())
}

/// One timer more.
fn with_text(
    so_far: TimerTexts,
    place: usize,
    counted: bool,
    text: TimerText,
) -> Result<TimerTexts, AllocError>
    ensures { IfOk result (λ all. timer_texts all
        ≡ with_text (timer_texts so_far) place counted (timer_text text)) }
{
    let mut so_far = so_far;
    let TimerText { program, outputs } = text;
    so_far.programs.push(program)?;
    add_outputs(&mut so_far.outputs, place, counted, outputs)?;
    Ok(so_far)
}

/// The timer at a place, behind those before it.
fn text_behind(
    alloc: Global,
    language: &Language<'_>,
    names: TimerNames,
    procedures: Option<&Value>,
    so_far: TimerTexts,
    entry: &Value,
) -> Result<TimerTexts, MachineFault>
    ensures ok { Gives result timer_texts (text_behind (language_of language.now) (named names)
        (data_of procedures.entry) (timer_texts so_far) (view entry.now)) }
    ensures err { FailsBy result (text_behind (language_of language.now) (named names)
        (data_of procedures.entry) (timer_texts so_far) (view entry.now)) }
{
    let place = so_far.programs.len();
    let text = text_of(alloc, language, names, procedures, place, entry)?;
    Ok(with_text(so_far, place, is_counted(entry), text)?)
}

/// What the timers of these values do and send.
fn texts_behind(
    alloc: Global,
    language: &Language<'_>,
    names: TimerNames,
    procedures: Option<&Value>,
    entries: &[Value],
) -> Result<TimerTexts, MachineFault>
    ensures ok { Gives result timer_texts (texts_behind (language_of language.now) (named names)
        (data_of procedures.entry) no_texts (items_view entries.now)) }
    ensures err { FailsBy result (texts_behind (language_of language.now) (named names)
        (data_of procedures.entry) no_texts (items_view entries.now)) }
{
    let mut all = TimerTexts {
        programs: Vec::new(alloc),
        outputs: Vec::new(alloc),
    };
    for entry in entries {
        all = text_behind(alloc, language, names, procedures, all, entry)?;
    }
    Ok(all)
}

/// The timers of a machine that has them.
fn timers_said(value: &Value) -> &[Value]
    ensures { items_view result.now ≡ timers_said (view value.now) }
{
    match value.get("timers") {
        Some(member) => match items_of(member) {
            Some(entries) => entries,
            None => &[],
        },
        None => &[],
    }
}

/// Whether something is sent at any time: in one of these programs.
fn some_push(queue: usize, programs: &[Block]) -> bool
    ensures { result ≡ list_any (pushes queue) (map body programs.now) }
{
    for program in programs {
        if pushes(queue, program) {
            return true;
        }
    }
    false
}

/// What a machine with these timers does, sends and shows, in the core of the language.
fn in_core(
    alloc: Global,
    names: TimerNames,
    external: Block,
    timers: TimerTexts,
    words: Vec<Said>,
) -> Result<Texts, AllocError>
    ensures { IfOk result (λ t. texts t ≡ in_core (named names) (body external) (timer_texts timers)
        (map shown words.items)) }
{
    let TimerTexts { programs, outputs } = timers;
    let queue = names.ports();
    let sends = pushes(queue, &external) || some_push(queue, &programs);
    let internal = internal(alloc, names, sends, programs)?;
    let external = ended(alloc, names, sends, external)?;
    let outputs = timed_outputs(alloc, names, sends, outputs)?;
    Ok(Texts {
        sends,
        internal,
        external,
        outputs,
        words,
    })
}

/// What a machine with timers says, whose texts may name these.
pub(crate) fn timed_texts(
    alloc: Global,
    declared: &[Declared],
    names: TimerNames,
    value: &Value,
) -> Result<Texts, MachineFault>
    ensures ok { Gives result texts
        (timed_texts (language_with (declarations declared.now) (named names)) (named names) (view value.now)) }
    ensures err { FailsBy result
        (timed_texts (language_with (declarations declared.now) (named names)) (named names) (view value.now)) }
{
    let language = language_with(declared, names);
    let member = value.get("procedures");
    let procedures = procedures_said(alloc, &language, member)?;
    absent(Part::Internal, value.get("internal"))?;
    let external = program_in(
        alloc,
        &language,
        &procedures,
        Part::External,
        value.get("external"),
    )?;
    let entries = timers_said(value);
    let timers = texts_behind(alloc, &language, names, member, entries)?;
    absent(Part::Output(Sender::Machine), value.get("output"))?;
    let words = words_in(alloc, &language, value.get("words"))?;
    Ok(in_core(alloc, names, external, timers, words)?)
}
