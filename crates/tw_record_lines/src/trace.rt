//! The trace of a run, written after each round.

ghost use Rattle.std.specs.Prelude.{◌≡◌, ◌≤◌, OnOk, IfErr};
ghost use Rattle.std.specs.Io.KnownBytes.{Appends};
ghost use Rattle.tw_network.specs.Contents.{network_of};
ghost use Rattle.tw_texts.specs.Texts.{trace_text};
ghost use Rattle.tw_texts.specs.Traces.{AppendsBeginning};
ghost use Rattle.tw_theory.specs.Simulator.{sequential};
ghost use Rattle.tw_vtime.specs.Stamps.{max_tick};

use crate::trace_lines::TraceLines;
use std::alloc::Global;
use std::io::Write;
use tw_atomic::Atomic;
use tw_listen::{Listener, advance_telling};
use tw_network::Network;
use tw_rounds::{Advanced, begin};
use tw_texts::{Names, NotWritten};

/// Simulates a network up to the end tick `until`, and writes the lines of its records in their order, with the names of
/// their components: after each round, in portions of about 65,536 bytes. It keeps the lines of one round and one portion. After
/// each round the listener hears how far the run is.
///
/// Refused by [`NotWritten::OutOfMemory`] (4), and the writer then has got a beginning of the text; by
/// [`NotWritten::WriteFailed`] (24) where the writer failed, and then only the writer knows what it took.
pub fn write_lines<M: Atomic, N: Names, L: Listener, W: Write>(
    alloc: Global,
    network: &Network<M>,
    names: &N,
    until: u64,
    listener: &mut L,
    out: &mut W,
) -> Result<(), NotWritten>
    requires { until ≤ max_tick }
    ensures ok { let run = sequential (network_of M.meaning network.now) until in
        OnOk result (Appends (W.contents out.old) (W.contents out.new)
        (trace_text (N.name_of names.now) run.records)) }
    ensures err { let run = sequential (network_of M.meaning network.now) until in
        IfErr result (λ e. e ≡ NotWritten.OutOfMemory
        → AppendsBeginning (W.contents out.old) (W.contents out.new)
        (trace_text (N.name_of names.now) run.records)) }
{
    let Ok(mut simulation) = begin(alloc, network, until) else {
        return Err(NotWritten::OutOfMemory);
    };
    let mut outputs = TraceLines::new(alloc, names);
    let mut transitions = TraceLines::new(alloc, names);
    loop {
        let Ok(step) = advance_telling(
            alloc,
            network,
            &mut simulation,
            &mut outputs,
            &mut transitions,
            listener,
        ) else {
            return Err(NotWritten::OutOfMemory);
        };
        match step {
            Advanced::Round => {
                let Ok(()) = outputs.lines.append(&mut transitions.lines) else {
                    return Err(NotWritten::OutOfMemory);
                };
                outputs.lines.write_portion(out)?;
            }
            Advanced::End(_) => return outputs.lines.write_out(out),
        }
    }
}
