//! The table of a run, held as text until it is known how the run ends.

ghost use Rattle.std.specs.Prelude.{◌≡◌, ◌≤◌, IfOk, IfSome, map};
ghost use Rattle.tw_network.specs.Contents.{network_of};
ghost use Rattle.tw_record_lines.specs.Fields.{field};
ghost use Rattle.tw_record_lines.specs.Tables.{listed, table_text};
ghost use Rattle.tw_theory.specs.Simulator.{sequential};
ghost use Rattle.tw_vtime.specs.Stamps.{max_tick};

use crate::held::{Held, MOST_HELD};
use crate::table_lines::{Table, TableLines, head_of};
use std::alloc::Global;
use tw_atomic::Atomic;
use tw_listen::{Counting, Listener, run_out};
use tw_network::Network;
use tw_rounds::{Advanced, SeqRefused, advance, begin};
use tw_texts::{Lines, Names};

/// Simulates a network up to the end tick `until`, and holds this table of the records of those components that it shows, so that nothing
/// is written before it is known how the run ends. Where it comes to more than 67,108,864 bytes it lets it go, and works the end of the run
/// out alone. After each round the listener hears the stamp that is reached, with 0 records, since nothing is written yet.
///
/// Refused for want of memory (4).
pub fn hold_table<M: Atomic, N: Names, L: Listener>(
    alloc: Global,
    network: &Network<M>,
    until: u64,
    table: &Table<'_, N>,
    listener: &mut L,
) -> Result<Held, SeqRefused>
    requires { until ≤ max_tick }
    ensures fault { IfOk result
        (λ held. held.fault ≡ (sequential (network_of M.meaning network.now) until).fault) }
    ensures lines { let run = sequential (network_of M.meaning network.now) until in IfOk result
        (λ held. IfSome held.lines (λ lines. lines.text ≡ table_text table.now.rows
        (map field table.now.fields.now) (N.name_of table.now.names.now)
        (listed table.now.shown.now table.now.from run.records))) }
{
    let mut simulation = begin(alloc, network, until)?;
    let first = head_of(alloc, table)?;
    let mut outputs = TableLines::new(alloc, table, first);
    let mut transitions = TableLines::new(alloc, table, Lines::new(alloc));
    while outputs.lines.len() <= MOST_HELD {
        let step = advance(
            alloc,
            network,
            &mut simulation,
            &mut outputs,
            &mut transitions,
        )?;
        match step {
            Advanced::Round => outputs.lines.append(&mut transitions.lines)?,
            Advanced::End(fault) => {
                return Ok(Held {
                    fault,
                    lines: Some(outputs.into_lines()),
                });
            }
        }
        listener.hear(outputs.reached().with(transitions.reached()).unwritten());
    }
    let fault = run_out(alloc, network, simulation, listener)?;
    Ok(Held { fault, lines: None })
}
