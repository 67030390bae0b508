//! The trace of a run, held as text until it is known how the run ends.

ghost use Rattle.std.specs.Prelude.{◌≡◌, ◌≤◌, IfOk, IfSome};
ghost use Rattle.tw_network.specs.Contents.{network_of};
ghost use Rattle.tw_texts.specs.Texts.{trace_text};
ghost use Rattle.tw_theory.specs.Simulator.{sequential};
ghost use Rattle.tw_vtime.specs.Stamps.{max_tick};

use crate::trace_lines::TraceLines;
use std::alloc::Global;
use tw_atomic::Atomic;
use tw_listen::{Counting, Listener, run_out};
use tw_network::Network;
use tw_rounds::{Advanced, Fault, SeqRefused, advance, begin};
use tw_texts::{Lines, Names};

/// Of how many bytes a trace or a table is held at most, but for the lines of its last round: 64 MB.
pub(crate) const MOST_HELD: usize = 67_108_864;

/// How a run ends, and its trace or its table if that was held.
#[derive(Drop)]
pub struct Held {
    /// The limit fault that ends the run, if there is one.
    pub fault: Option<Fault>,
    /// All lines, or none where they were too long to be held.
    pub lines: Option<Lines>,
}

/// Simulates a network up to the end tick `until`, and holds the lines of its records, so that nothing is written before it is known
/// how the run ends. Where they come to more than 67,108,864 bytes it lets them go, and works the end of the run out alone. After each
/// round the listener hears the stamp that is reached, with 0 records, since nothing is written yet.
///
/// Refused for want of memory (4).
pub fn hold_lines<M: Atomic, N: Names, L: Listener>(
    alloc: Global,
    network: &Network<M>,
    names: &N,
    until: u64,
    listener: &mut L,
) -> Result<Held, SeqRefused>
    requires { until ≤ max_tick }
    ensures fault { IfOk result
        (λ held. held.fault ≡ (sequential (network_of M.meaning network.now) until).fault) }
    ensures lines { let run = sequential (network_of M.meaning network.now) until in IfOk result
        (λ held. IfSome held.lines (λ lines. lines.text ≡ trace_text (N.name_of names.now) run.records)) }
{
    let mut simulation = begin(alloc, network, until)?;
    let mut outputs = TraceLines::new(alloc, names);
    let mut transitions = TraceLines::new(alloc, names);
    while outputs.lines.len() <= MOST_HELD {
        let step = advance(
            alloc,
            network,
            &mut simulation,
            &mut outputs,
            &mut transitions,
        )?;
        match step {
            Advanced::Round => outputs.lines.append(&mut transitions.lines)?,
            Advanced::End(fault) => {
                return Ok(Held {
                    fault,
                    lines: Some(outputs.into_lines()),
                });
            }
        }
        listener.hear(outputs.reached().with(transitions.reached()).unwritten());
    }
    let fault = run_out(alloc, network, simulation, listener)?;
    Ok(Held { fault, lines: None })
}
