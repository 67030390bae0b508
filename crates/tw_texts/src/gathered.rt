//! Lines of a trace that are gathered until they are written.

ghost use Rattle.std.specs.Io.KnownBytes.{Appends};
ghost use Rattle.std.specs.Prelude.{◌≡◌, ◌++◌, [], IfErr, IfSome, OnErr, OnOk, length, string_bytes};
ghost use Rattle.tw_texts.specs.Texts.{step_line, time_text};
ghost use Rattle.tw_texts.specs.Traces.{MovesBytes};

use crate::lines::add_time;
use crate::tails::{greatest_length, make_room, put_line};
use crate::traces::{NotWritten, PORTION};
use std::alloc::{AllocError, Global};
use std::io::Write;
use std::marker::Model;
use tw_msgs::RecordKind;
use tw_vtime::Stamp;

/// Lines of a trace that are gathered until they go to a writer, many at once: a text. The time of steps that follow one another at
/// one stamp is written out once.
#[derive(Drop)]
pub struct Lines {
    text: Vec<u8>,
    // Room for a line, which is written from its end.
    room: Vec<u8>,
    // The stamp of the last line, if there was one, and the text of its time.
    last: Option<Stamp>,
    time: String,
}

impl Model for Lines {
    ghost use Rattle.std.specs.Prelude.{◌≡◌, IfSome, string_bytes};
    ghost use Rattle.tw_texts.specs.Texts.{Gathered, time_text};

    ghost Value = { Gathered };

    ghost view = { λ lines. record { text = lines.text.items } };

    ghost invariant = { λ lines. IfSome lines.last (λ at. string_bytes lines.time ≡ time_text at) };
}

impl Lines {
    /// No lines.
    pub fn new(alloc: Global) -> Lines
        ensures { result.text ≡ [] }
    {
        Lines {
            text: Vec::new(alloc),
            room: Vec::new(alloc),
            last: None,
            time: String::new(alloc),
        }
    }

    /// Adds the line of a step of the component with this name: its time, the name and what was done, as
    /// [`push_record`](crate::texts::push_record) adds the line of a record.
    ///
    /// Where memory is wanting (refusal 4) a part of the line may stand at the end.
    pub fn add(
        &mut self,
        name: &str,
        at: Stamp,
        kind: RecordKind,
        bag: &[(u8, i64)],
        words: &[i128],
    ) -> Result<(), AllocError>
        ensures { OnOk result
            (self.new.text ≡ self.old.text ++ step_line name.now at kind bag.now words.now) }
    {
        keep_time(&mut self.last, &mut self.time, at)?;
        let time = self.time.as_bytes();
        let name = name.as_bytes();
        make_room(&mut self.room, greatest_length(time, name, bag, words))?;
        let start = put_line(self.room.as_mut_slice(), time, name, kind, bag, words);
        self.text.extend_from_slice(&self.room.as_slice()[start..])
    }

    /// Adds a line that is made. Where memory is wanting (refusal 4) the lines stay as they were.
    pub fn add_line(&mut self, line: &[u8]) -> Result<(), AllocError>
        ensures added { OnOk result (self.new.text ≡ self.old.text ++ line.now) }
        ensures unchanged { OnErr result (self.new.text ≡ self.old.text) }
    {
        self.text.extend_from_slice(line)
    }

    /// Adds other lines behind these; then those are none.
    ///
    /// Where memory is wanting (refusal 4) both stay as they were.
    pub fn append(&mut self, others: &mut Lines) -> Result<(), AllocError>
        ensures appended { OnOk result (self.new.text ≡ self.old.text ++ others.old.text) }
        ensures emptied { OnOk result (others.new.text ≡ []) }
        ensures unchanged { OnErr result (self.new.text ≡ self.old.text) }
        ensures kept { OnErr result (others.new.text ≡ others.old.text) }
    {
        self.text.extend_from_slice(others.text.as_slice())?;
        others.text.clear();
        Ok(())
    }

    /// How many bytes the lines have.
    pub fn len(&self) -> usize
        ensures { result ≡ length self.now.text }
    {
        self.text.len()
    }

    /// Gives the lines up: then there are none.
    pub fn clear(&mut self)
        ensures { self.new.text ≡ [] }
    {
        self.text.clear();
    }

    /// Hands the lines to a writer: then there are none. Refused as [`write_out`] is.
    pub fn write_out<W: Write>(&mut self, out: &mut W) -> Result<(), NotWritten>
        ensures ok { OnOk result (Appends (W.contents out.old) (W.contents out.new) self.old.text) }
        ensures emptied { OnOk result (self.new.text ≡ []) }
        ensures err { IfErr result (λ e. e ≡ NotWritten.WriteFailed) }
    {
        let Ok(()) = out.write_all(self.text.as_slice()) else {
            return Err(NotWritten::WriteFailed);
        };
        self.text.clear();
        Ok(())
    }

    /// Hands the lines to a writer, once they are a portion of 65,536 bytes. Refused as [`write_out`] is.
    pub fn write_portion<W: Write>(&mut self, out: &mut W) -> Result<(), NotWritten>
        ensures ok { OnOk result
            (MovesBytes (W.contents out.old) (W.contents out.new) self.old.text self.new.text) }
        ensures err { IfErr result (λ e. e ≡ NotWritten.WriteFailed) }
    {
        if self.text.len() < PORTION {
            return Ok(());
        }
        self.write_out(out)
    }
}

/// Has the text of a stamp's time at hand.
fn keep_time(last: &mut Option<Stamp>, time: &mut String, at: Stamp) -> Result<(), AllocError>
    requires { IfSome last.old (λ s. string_bytes time.old ≡ time_text s) }
    ensures still { IfSome last.new (λ s. string_bytes time.new ≡ time_text s) }
    ensures kept { OnOk result (string_bytes time.new ≡ time_text at) }
{
    if *last == Some(at) {
        return Ok(());
    }
    *last = None;
    time.clear();
    add_time(time, at)?;
    *last = Some(at);
    Ok(())
}
