//! Traces, written to any writer.

ghost use Rattle.std.specs.Prelude.{◌≡◌, [], OnOk, IfErr, Some, string_bytes};
ghost use Rattle.std.specs.Io.KnownBytes.{Appends};
ghost use Rattle.tw_texts.specs.Texts.{trace_text};
ghost use Rattle.tw_vtime.specs.Refusals.{refusal_text};
ghost use Rattle.tw_texts.specs.Refusals.{not_written_refusal};
ghost use Rattle.tw_texts.specs.Traces.{AppendsBeginning, MovesBytes};

use crate::gathered::Lines;
use crate::names::Names;
use std::alloc::Global;
use std::error::Error;
use std::fmt;
use std::io::Write;
use tw_msgs::Record;
use tw_vtime::Refusal;

/// As many bytes of lines are gathered before they go to the writer at once.
pub(crate) const PORTION: usize = 65_536;

/// Why a trace was not written to its end.
#[derive(Clone, Copy, Debug, PartialEq, Eq)]
pub enum NotWritten {
    /// A growth of memory was refused: 4.
    OutOfMemory,
    /// The writer failed: 24.
    WriteFailed,
}

impl From<NotWritten> for Refusal {
    ghost from_gives = { λ why refusal. refusal ≡ not_written_refusal why };

    fn from(why: NotWritten) -> Refusal {
        match why {
            NotWritten::OutOfMemory => Refusal::OutOfMemory,
            NotWritten::WriteFailed => Refusal::WriteFailed,
        }
    }
}

/// The number and the name of the refusal, as `24 WriteFailed`.
impl fmt::Display for NotWritten {
    ghost output = { λ why. Some (refusal_text (not_written_refusal why)) };

    fn fmt<W: fmt::Write>(&self, f: &mut fmt::Formatter<W>) -> fmt::Result {
        let refusal = Refusal::from(*self);
        write!(f, "{refusal}")
    }
}

impl Error for NotWritten {}

/// Hands a text to a writer and empties it. Refused where the writer fails (24), and then only the writer knows what it took.
pub fn write_out<W: Write>(text: &mut String, out: &mut W) -> Result<(), NotWritten>
    ensures ok { OnOk result
        (Appends (W.contents out.old) (W.contents out.new) (string_bytes text.old)) }
    ensures emptied { OnOk result (string_bytes text.new ≡ []) }
    ensures err { IfErr result (λ e. e ≡ NotWritten.WriteFailed) }
{
    let Ok(()) = out.write_all(text.as_bytes()) else {
        return Err(NotWritten::WriteFailed);
    };
    text.clear();
    Ok(())
}

/// Hands a text to a writer and empties it, once it is a portion of 65,536 bytes long. Refused as [`write_out`] is.
pub fn write_portion<W: Write>(text: &mut String, out: &mut W) -> Result<(), NotWritten>
    ensures ok { OnOk result
        (MovesBytes (W.contents out.old) (W.contents out.new) (string_bytes text.old)
        (string_bytes text.new)) }
    ensures err { IfErr result (λ e. e ≡ NotWritten.WriteFailed) }
{
    if text.len() < PORTION {
        return Ok(());
    }
    write_out(text, out)
}

/// Writes the lines of records in their order, as [`push_record`](crate::texts::push_record) gives them
/// with the names of their components.
///
/// The lines go to the writer in portions of about 65,536 bytes, so that the whole text is never in
/// memory. Refused by [`NotWritten::OutOfMemory`] (4), and the writer then has got a beginning of the
/// text; by [`NotWritten::WriteFailed`] (24) where the writer failed, and then only the writer knows
/// what it took.
pub fn write_trace<N: Names, W: Write>(
    alloc: Global,
    names: &N,
    records: &[Record],
    out: &mut W,
) -> Result<(), NotWritten>
    ensures ok { OnOk result
        (Appends (W.contents out.old) (W.contents out.new)
        (trace_text (N.name_of names.now) records.now)) }
    ensures err { IfErr result (λ e. e ≡ NotWritten.OutOfMemory
        → AppendsBeginning (W.contents out.old) (W.contents out.new) (trace_text (N.name_of names.now) records.now)) }
{
    let mut lines = Lines::new(alloc);
    let mut words = Vec::new(alloc);
    for record in records {
        let name = names.name(record.component);
        let bag = record.bag.as_slice();
        words.clear();
        let Ok(()) = record.words.append_to(&mut words) else {
            return Err(NotWritten::OutOfMemory);
        };
        let Ok(()) = lines.add(name, record.stamp, record.kind, bag, words.as_slice()) else {
            return Err(NotWritten::OutOfMemory);
        };
        lines.write_portion(out)?;
    }
    lines.write_out(out)
}
