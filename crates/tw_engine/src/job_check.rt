//! The job `check`: a look at a network file that simulates nothing.

ghost use Rattle.std.specs.Prelude.{◌≡◌, ℕ, List, Ok, IfErr, IfOk, OnOk, map, string_bytes};
ghost use Rattle.std.specs.Io.KnownBytes.{Appends};
ghost use Rattle.serde_json.specs.View.{view};
ghost use Rattle.tw_file_faults.specs.Lines.{HasNoLineEnd};
ghost use Rattle.tw_file_network.specs.Meaning.{json_of};
ghost use Rattle.tw_engine.specs.Checks.{IsCheck, IsTold, IsWarned, count_text};
ghost use Rattle.tw_engine.specs.declared.failed.Failed.TheVariants as failed;
ghost use Rattle.tw_machine_warnings.specs.Warning.{warning};

use crate::failed::Failed;
use serde_json::Value;
use std::alloc::{AllocError, Global};
use std::io::Write;
use tw_any_model::AnyModel;
use tw_file_faults::{explain, explain_text};
use tw_file_network::{FileRefused, json_of, network_of_value};
use tw_file_warnings::warnings_of;
use tw_machine_warnings::{Warning, lines_of};
use tw_network::Network;
use tw_vtime::Refusal;

/// Does the job `check` of [`alone`](crate::alone) on a file's bytes; [`Failed`] where the file is at fault too, and where the check is
/// strict and there is a warning. It takes no handle, and so it returns.
///
/// It fails as the table of [`alone`](crate::alone) says.
pub fn check<W: Write>(alloc: Global, bytes: &[u8], strict: bool, out: &mut W) -> Result<(), Failed>
    ensures { IsCheck bytes.now strict result (W.contents out.old) (W.contents out.new) }
{
    match json_of(alloc, bytes) {
        Ok(value) => check_value(alloc, &value, strict, out),
        Err(fault) => Err(write_fault(fault, explain_text(alloc, bytes), out)),
    }
}

/// Checks a file by its JSON value.
fn check_value<W: Write>(
    alloc: Global,
    value: &Value,
    strict: bool,
    out: &mut W,
) -> Result<(), Failed>
    ensures { (bytes : List ℕ) → json_of bytes ≡ Ok (view value.now)
        → IsCheck bytes strict result (W.contents out.old) (W.contents out.new) }
{
    match network_of_value(alloc, value) {
        Ok(network) => {
            let warnings = warnings_of(alloc, value)?;
            write_checked(alloc, &network, warnings.as_slice(), strict, out)
        }
        Err(fault) => Err(write_fault(fault, explain(alloc, value, fault), out)),
    }
}

/// Writes what a network has, and a line for each of these warnings. Where the check is strict and there is one, it is refused then (21).
fn write_checked<W: Write>(
    alloc: Global,
    network: &Network<AnyModel>,
    warnings: &[Warning],
    strict: bool,
    out: &mut W,
) -> Result<(), Failed>
    ensures { IsWarned network.now (map warning warnings.now) strict result
        (W.contents out.old) (W.contents out.new) }
{
    let lines = lines_of(alloc, warnings)?;
    write_counts(network, out)?;
    let Ok(()) = out.write_all(lines.as_bytes()) else {
        return Err(Failed::NoWrite);
    };
    if strict && !warnings.is_empty() {
        return Err(Failed::from(Refusal::BadShape));
    }
    Ok(())
}

/// Writes how many components, couplings and inputs a network has.
fn write_counts<W: Write>(network: &Network<AnyModel>, out: &mut W) -> Result<(), Failed>
    ensures ok { OnOk result
        (Appends (W.contents out.old) (W.contents out.new) (count_text network.now)) }
    ensures err { IfErr result (λ why. why ≡ failed.NoWrite) }
{
    let components = network.len();
    let couplings = network.couplings().len();
    let inputs = network.inputs().len();
    match writeln!(
        out,
        "ok: {components} components, {couplings} couplings, {inputs} inputs"
    ) {
        Ok(()) => Ok(()),
        Err(_) => Err(Failed::NoWrite),
    }
}

/// Writes the words for a file's fault, and answers how the job fails.
fn write_fault<W: Write>(
    fault: FileRefused,
    words: Result<String, AllocError>,
    out: &mut W,
) -> Failed
    requires { IfOk words (λ w. HasNoLineEnd (string_bytes w)) }
    ensures { IsTold fault result (W.contents out.old) (W.contents out.new) }
{
    if fault == FileRefused::OutOfMemory {
        return Failed::Want(Refusal::OutOfMemory);
    }
    let Ok(words) = words else {
        return Failed::Want(Refusal::OutOfMemory);
    };
    match writeln!(out, "{words}") {
        Ok(()) => Failed::Bad {
            refusal: Refusal::from(fault),
            line: None,
        },
        Err(_) => Failed::NoWrite,
    }
}
