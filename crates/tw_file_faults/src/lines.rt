//! From a refused file to a line of words.

ghost use Rattle.std.specs.Prelude.{IfOk, string_bytes};
ghost use Rattle.tw_file_faults.specs.Lines.{HasNoLineEnd};

use crate::connections::{
    bad_names, bad_ports, bad_ticks, repeated_names, repeated_routes, self_couplings, unknown_names,
};
use crate::counts::{bad_limit, too_many};
use crate::outline::Outline;
use crate::parameters::bad_parameters;
use crate::shape::bad_shape;
use crate::syntax::not_json;
use serde_json::Value;
use std::alloc::{AllocError, Global};
use tw_file_network::FileRefused;
use tw_machine_faults::Stop;
use tw_network::NetworkRefused;

/// The place and the reason of a fault that the reader has found in the JSON value of a file, in words, in which no byte
/// ends a line:
///
/// - `components[3] "q": service is 1099511627775, at most 1099511627774`: a component, by its place from 0 in the
///   file's list, and its name. One of a coupled model has the places on its way, and its flat name:
///   `components[1].components[0] "left.saw": ..`.
/// - `couplings[500]: no component is named "h1001"`, and in the same form a place in `inputs`; a coupling of a
///   coupled model has that model's place before it.
/// - `the file: micro_limit is 0, at least 1`.
/// - `fields[1] "size": has 0 bits, 1 to 62` and `constants "N": 1.5, not a whole number ..`: a field, by its place from 0
///   and its name, and a constant.
///
/// The words are those of the first place of this fault; which they are is shown by tests. For a fault that the value does
/// not have, the words are the fault's own.
///
/// Refused where a growth of memory is.
pub fn explain(alloc: Global, value: &Value, fault: FileRefused) -> Result<String, AllocError>
    ensures { IfOk result (λ words. HasNoLineEnd (string_bytes words)) }
{
    let words = words_for(alloc, value, fault)?;
    String::from_str(alloc, first_line(words.as_str()))
}

/// The place and the reason why a file's bytes are no JSON, in words, in which no byte ends a line:
/// `line 12, column 8: not JSON: expected a comma`.
///
/// Lines and columns count from 1, columns in bytes. Where the text ends too early it is the last byte's place. Which
/// words they are is shown by tests. For bytes that are JSON, the words are those of [`FileRefused::NotJson`].
///
/// Refused where a growth of memory is.
pub fn explain_text(alloc: Global, bytes: &[u8]) -> Result<String, AllocError>
    ensures { IfOk result (λ words. HasNoLineEnd (string_bytes words)) }
{
    let words = match Value::from_slice(alloc, bytes) {
        Ok(_) => format!(in alloc; "{}", FileRefused::NotJson)?,
        Err(error) if error.is_memory() => return Err(AllocError),
        Err(error) => not_json(alloc, bytes, &error)?,
    };
    String::from_str(alloc, first_line(words.as_str()))
}

/// A text up to its first line's end.
fn first_line(text: &str) -> &str
    ensures { HasNoLineEnd result.now }
{
    match text.split_once('\n') {
        Some((line, _)) => line,
        None => text,
    }
}

/// The words for a fault: those of its first place, or the fault's own.
fn words_for(alloc: Global, value: &Value, fault: FileRefused) -> Result<String, AllocError> {
    match found(alloc, value, fault) {
        Err(Stop::Fault(line)) => Ok(line),
        Err(Stop::OutOfMemory) => Err(AllocError),
        Ok(()) => format!(in alloc; "{fault}"),
    }
}

/// Looks for a fault, and stops there.
fn found(alloc: Global, value: &Value, fault: FileRefused) -> Result<(), Stop> {
    let outline = Outline::new(alloc, value)?;
    match fault {
        FileRefused::OutOfMemory | FileRefused::NotJson => Ok(()),
        FileRefused::BadShape => bad_shape(alloc, value, &outline),
        FileRefused::Parameter(_) => bad_parameters(alloc, &outline),
        FileRefused::Network(fault) => unconnected(alloc, value, &outline, fault),
    }
}

/// Looks for a fault of a network whose members and parameters are good.
fn unconnected(
    alloc: Global,
    value: &Value,
    outline: &Outline<'_>,
    fault: NetworkRefused,
) -> Result<(), Stop> {
    match fault {
        NetworkRefused::OutOfMemory => Ok(()),
        NetworkRefused::UnknownComponent => unknown_names(alloc, value, outline),
        NetworkRefused::BadPort => bad_ports(alloc, value, outline),
        NetworkRefused::SelfCoupling => self_couplings(alloc, outline),
        NetworkRefused::DuplicateRoute => repeated_routes(alloc, outline),
        NetworkRefused::TooMany => too_many(alloc, value, outline),
        NetworkRefused::BadTick => bad_ticks(alloc, value, outline),
        NetworkRefused::BadLimit => bad_limit(alloc, value),
        NetworkRefused::BadName => bad_names(alloc, outline),
        NetworkRefused::DuplicateName => repeated_names(alloc, outline),
    }
}
