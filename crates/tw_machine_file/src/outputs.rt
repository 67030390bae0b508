//! What a machine sends.
ghost use Rattle.std.specs.Prelude.{◌≡◌, Ok, IfOk, map, option_map};
ghost use Rattle.serde_json.specs.View.{view, items_view, members_view};
ghost use Rattle.tw_machine_text.specs.Views.{tree};
ghost use Rattle.tw_machine_declaration.specs.Seen.{output, value};
ghost use Rattle.tw_machine_file.specs.Answers.{Gives, FailsBy, data_of};
ghost use Rattle.tw_machine_file.specs.Outputs.{
  each_of,
  entry_of,
  few_outputs,
  output_of,
  outputs_in,
  outputs_of,
  sent_value,
  when_of,
};
ghost use Rattle.tw_machine_file.specs.Texts.{language_of};

use crate::fault::{MachineFault, Part, Sender, Why};
use crate::texts::{Language, tree_in, value_in};
use crate::values::{are_among, are_few, items_of};
use serde_json::{Map, Value};
use std::alloc::Global;
use tw_machine::limits::MAX_OUTPUTS;
use tw_machine_compiler::{OutputText, Value as Said};
use tw_machine_text::{Member, SourceExpr};

/// The members of an entry.
const MEMBERS: [&[u8]; 4] = [b"port", b"value", b"when", b"each"];

/// The members of an entry, an object of these alone.
fn entry(part: Part, written: &Value) -> Result<&Map<String, Value>, MachineFault>
    ensures ok { Gives result
        (λ ms. members_view ms.now.entries) (entry_of part (view written.now)) }
    ensures err { FailsBy result (entry_of part (view written.now)) }
{
    let Some(members) = written.as_object() else {
        return Err(MachineFault::Wrong(part, Why::Shape));
    };
    if !are_among(&MEMBERS, members) {
        return Err(MachineFault::Wrong(part, Why::Unknown));
    }
    Ok(members)
}

/// A member that must be there.
fn sent_value(
    alloc: Global,
    language: &Language<'_>,
    part: Part,
    member: Option<&Value>,
) -> Result<Said, MachineFault>
    ensures ok { IfOk result
        (λ v. sent_value (language_of language.now) part (data_of member.entry) ≡ Ok (value v)) }
    ensures err { FailsBy result (sent_value (language_of language.now) part
        (data_of member.entry)) }
{
    match member {
        Some(written) => value_in(alloc, language, part, Member::Value, written),
        None => Err(MachineFault::Wrong(part, Why::Missing)),
    }
}

fn when_of(
    alloc: Global,
    language: &Language<'_>,
    part: Part,
    member: Option<&Value>,
) -> Result<Option<Said>, MachineFault>
    ensures ok { Gives result
        (λ w. option_map value w) (when_of (language_of language.now) part
        (data_of member.entry)) }
    ensures err { FailsBy result (when_of (language_of language.now) part (data_of member.entry)) }
{
    match member {
        Some(written) => Ok(Some(value_in(alloc, language, part, Member::Value, written)?)),
        None => Ok(None),
    }
}

fn each_of(
    alloc: Global,
    language: &Language<'_>,
    part: Part,
    member: Option<&Value>,
) -> Result<Option<SourceExpr>, MachineFault>
    ensures ok { Gives result
        (λ q. option_map tree q) (each_of (language_of language.now) part (data_of member.entry)) }
    ensures err { FailsBy result (each_of (language_of language.now) part (data_of member.entry)) }
{
    match member {
        Some(written) => Ok(Some(tree_in(alloc, language, part, Member::Each, written)?)),
        None => Ok(None),
    }
}

/// An entry.
fn output_of(
    alloc: Global,
    language: &Language<'_>,
    sender: Sender,
    index: usize,
    written: &Value,
) -> Result<OutputText, MachineFault>
    ensures ok { Gives result output (output_of (language_of language.now) sender index
        (view written.now)) }
    ensures err { FailsBy result (output_of (language_of language.now) sender index
        (view written.now)) }
{
    let _ = entry(Part::Entry(sender, index), written)?;
    let port = sent_value(
        alloc,
        language,
        Part::Port(sender, index),
        written.get("port"),
    )?;
    let value = sent_value(
        alloc,
        language,
        Part::Value(sender, index),
        written.get("value"),
    )?;
    let when = when_of(
        alloc,
        language,
        Part::When(sender, index),
        written.get("when"),
    )?;
    let each = each_of(
        alloc,
        language,
        Part::Each(sender, index),
        written.get("each"),
    )?;
    Ok(OutputText {
        port,
        value,
        when,
        each,
    })
}

#[tactic(auto, using(crate::proofs::Loops::behind_none, crate::proofs::Loops::behind_more))]
fn outputs_of(
    alloc: Global,
    language: &Language<'_>,
    sender: Sender,
    values: &[Value],
) -> Result<Vec<OutputText>, MachineFault>
    ensures ok { Gives result
        (λ v. map output v.items) (outputs_of (language_of language.now) sender 0
        (items_view values.now)) }
    ensures err { FailsBy result (outputs_of (language_of language.now) sender 0
        (items_view values.now)) }
{
    let mut outputs = Vec::new(alloc);
    for (index, value) in values.iter().enumerate() {
        outputs.push(output_of(alloc, language, sender, index, value)?)?;
    }
    Ok(outputs)
}

/// An array of at most 64.
fn few_outputs(sender: Sender, written: &Value) -> Result<&[Value], MachineFault>
    ensures ok { Gives result (λ vs. items_view vs.now) (few_outputs sender (view written.now)) }
    ensures err { FailsBy result (few_outputs sender (view written.now)) }
{
    let Some(values) = items_of(written) else {
        return Err(MachineFault::Wrong(Part::Output(sender), Why::Shape));
    };
    if !are_few(MAX_OUTPUTS, values) {
        return Err(MachineFault::Wrong(Part::Output(sender), Why::Count));
    }
    Ok(values)
}

/// The member `output` of the machine or of a timer; nothing is sent where there is none.
pub(crate) fn outputs_in(
    alloc: Global,
    language: &Language<'_>,
    sender: Sender,
    member: Option<&Value>,
) -> Result<Vec<OutputText>, MachineFault>
    ensures ok { IfOk result (λ v. outputs_in (language_of language.now) sender
        (data_of member.entry) ≡ Ok (map output v.items)) }
    ensures err { FailsBy result (outputs_in (language_of language.now) sender
        (data_of member.entry)) }
{
    match member {
        Some(written) => outputs_of(alloc, language, sender, few_outputs(sender, written)?),
        None => Ok(Vec::new(alloc)),
    }
}
