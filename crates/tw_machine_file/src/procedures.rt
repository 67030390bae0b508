//! The programs of a machine's procedures.
ghost use Rattle.std.specs.Prelude.{[], map};
ghost use Rattle.serde_json.specs.View.{view, items_view};
ghost use Rattle.tw_machine_text.specs.Views.{body};
ghost use Rattle.tw_machine_file.specs.Answers.{Gives, FailsBy, data_of};
ghost use Rattle.tw_machine_file.specs.Procedures.{procedure_of, procedures_of, procedures_said};
ghost use Rattle.tw_machine_file.specs.Texts.{language_of};

use crate::fault::{MachineFault, Part, Why};
use crate::texts::{Language, program_in};
use crate::values::items_of;
use serde_json::Value;
use std::alloc::Global;
use tw_machine_text::Block;

/// The program of the procedure at this place, which may use those before it.
fn procedure_of(
    alloc: Global,
    language: &Language<'_>,
    place: usize,
    before: &[Block],
    value: &Value,
) -> Result<Block, MachineFault>
    ensures ok { Gives result body (procedure_of (language_of language.now)
        place (map body before.now) (view value.now)) }
    ensures err { FailsBy result (procedure_of (language_of language.now)
        place (map body before.now) (view value.now)) }
{
    program_in(
        alloc,
        language,
        before,
        Part::Procedure(place),
        value.get(1),
    )
}

fn procedures_of(
    alloc: Global,
    language: &Language<'_>,
    values: &[Value],
) -> Result<Vec<Block>, MachineFault>
    ensures ok { Gives result (λ ps. map body ps.items)
        (procedures_of (language_of language.now) 0 [] (items_view values.now)) }
    ensures err { FailsBy result
        (procedures_of (language_of language.now) 0 [] (items_view values.now)) }
{
    let mut procedures = Vec::new(alloc);
    for (place, value) in values.iter().enumerate() {
        let program = procedure_of(alloc, language, place, &procedures, value)?;
        procedures.push(program)?;
    }
    Ok(procedures)
}

/// The programs of the member `procedures`.
pub(crate) fn procedures_said(
    alloc: Global,
    language: &Language<'_>,
    member: Option<&Value>,
) -> Result<Vec<Block>, MachineFault>
    ensures ok { Gives result (λ ps. map body ps.items)
        (procedures_said (language_of language.now) (data_of member.entry)) }
    ensures err { FailsBy result
        (procedures_said (language_of language.now) (data_of member.entry)) }
{
    let Some(value) = member else {
        return Ok(Vec::new(alloc));
    };
    match items_of(value) {
        Some(values) => procedures_of(alloc, language, values),
        None => Err(MachineFault::Wrong(Part::Procedures, Why::Shape)),
    }
}
