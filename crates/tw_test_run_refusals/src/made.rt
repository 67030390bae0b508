//! Networks, and executives and exchanges of them. What could not be made leaves nothing, and is made again.

ghost use Rattle.std.specs.Prelude.{◌≡◌, IfOk};
ghost use Rattle.tw_theory.specs.Board.{nothing_posted};

use std::alloc::{AllocError, Global};
use tw_any_model::AnyModel;
use tw_board::{Board, Publisher, Reader};
use tw_exec::Executive;
use tw_file_network::network_of_any_file;
use tw_models::{BadModel, Model};
use tw_network::{Coupling, Input, Network};
use tw_process::Cancel;
use tw_vtime::Refusal;
use tw_workers::Exchange;

/// A model, by its parameters.
#[derive(Clone, Copy)]
pub(crate) enum Made {
    /// A generator: period and value.
    Gen(u64, i64),
    /// A relay: its delay.
    Relay(u64),
    /// A queue: its service time.
    Queue(u64),
    Tally,
}

/// What a network is made of.
pub(crate) enum Net {
    /// Built-in models alone.
    BuiltIn(Parts),
    /// What a file says, which may define machines.
    File(&'static str),
}

/// Built-in models, and how they are coupled.
pub(crate) struct Parts {
    pub(crate) names: &'static [&'static str],
    pub(crate) models: &'static [Made],
    pub(crate) couplings: &'static [Coupling],
    pub(crate) inputs: &'static [Input],
    pub(crate) micro_limit: u64,
}

/// A network, the end tick, and the way of cancelling.
pub(crate) struct Run {
    pub(crate) net: Net,
    pub(crate) until: u64,
    pub(crate) cancel: Cancel,
}

/// The model.
fn model_of(made: Made) -> Result<Model, BadModel> {
    match made {
        Made::Gen(period, value) => Model::generator(period, value),
        Made::Relay(delay) => Model::relay(delay),
        Made::Queue(service) => Model::queue(service),
        Made::Tally => Model::tally(),
    }
}

/// The network of built-in models, if there is memory for it.
fn built_in(alloc: Global, parts: &Parts) -> Result<Network<AnyModel>, Refusal> {
    let mut components = Vec::new(alloc);
    for (name, made) in parts.names.iter().zip(parts.models) {
        let model = AnyModel::BuiltIn(model_of(*made)?);
        components.push((String::from_str(alloc, name)?, model))?;
    }
    let couplings = Vec::from_slice(alloc, parts.couplings)?;
    let inputs = Vec::from_slice(alloc, parts.inputs)?;
    Ok(Network::new(alloc, components, couplings, inputs, parts.micro_limit)?)
}

/// The network, if there is memory for it.
fn network_of(alloc: Global, net: &Net) -> Result<Network<AnyModel>, Refusal> {
    match net {
        Net::BuiltIn(parts) => built_in(alloc, parts),
        Net::File(text) => Ok(network_of_any_file(alloc, text.as_bytes())?),
    }
}

/// The executive, if there is memory for it.
fn begin(alloc: Global, run: &Run) -> Result<Executive<AnyModel>, Refusal> {
    let network = network_of(alloc, &run.net)?;
    match run.cancel {
        Cancel::Aggressive => Ok(Executive::new(alloc, network, run.until)?),
        Cancel::Lazy => Ok(Executive::with_cancel(alloc, network, run.until, Cancel::Lazy)?),
    }
}

/// The executive at the start of a run, at the second try where the first finds no memory.
pub(crate) fn executive_of(alloc: Global, run: &Run) -> Option<Executive<AnyModel>> {
    match begin(alloc, run) {
        Err(Refusal::OutOfMemory) => begin(alloc, run).ok(),
        made => made.ok(),
    }
}

/// A board's publisher and a reader of it, if there is memory for them.
pub(crate) fn ends_of_board(alloc: Global) -> Result<(Publisher, Reader), AllocError>
    ensures { IfOk result (λ ends. ends.0.numbers ≡ nothing_posted) }
{
    let (mut board, publisher) = Board::new(alloc)?;
    let reader = board.reader()?;
    Ok((publisher, reader))
}

/// An exchange of an executive, and a reader of its board; where there is no memory for them the executive comes back.
fn share(
    alloc: Global,
    executive: Executive<AnyModel>,
) -> Result<(Exchange<AnyModel>, Reader), Executive<AnyModel>> {
    let Ok((publisher, reader)) = ends_of_board(alloc) else {
        return Err(executive);
    };
    match Exchange::new(alloc, executive, publisher) {
        Ok(exchange) => Ok((exchange, reader)),
        Err((executive, _, _)) => Err(executive),
    }
}

/// An exchange of an executive, and a reader of its board, at the second try where the first finds no memory.
pub(crate) fn exchange_of(
    alloc: Global,
    executive: Executive<AnyModel>,
) -> Option<(Exchange<AnyModel>, Reader)> {
    match share(alloc, executive) {
        Ok(made) => Some(made),
        Err(executive) => share(alloc, executive).ok(),
    }
}
