//! What a network file says, before it is known to be a network.

ghost use Rattle.std.specs.Prelude.{◌≡◌};
ghost use Rattle.std.specs.Prelude.{Ok, IfOk};
ghost use Rattle.std.specs.Result.{result_err};
ghost use Rattle.tw_file_network.specs.Answers.{FailsBy};
ghost use Rattle.tw_file_network.specs.Components.{any_model_of, model_of};

use crate::programs::ProgramDraft;
use crate::refused::FileRefused;
use std::alloc::Global;
use tw_any_model::AnyModel;
use tw_machine::machine::Machine;
use tw_models::{BadModel, Model};
use tw_network::Nested;

/// A model with its parameters, which may still be out of range.
#[derive(Clone, Copy, Debug, PartialEq, Eq)]
pub(crate) enum ModelDraft {
    Gen { period: u64, value: i64 },
    Tally,
    Relay { delay: u64 },
    Queue { service: u64 },
    Hop { seed: u64, ports: u64, spread: u64 },
}

impl ModelDraft {
    /// The model, where its parameters are in range.
    pub fn model(self) -> Result<Model, BadModel>
        ensures { result ≡ model_of self }
    {
        match self {
            ModelDraft::Gen { period, value } => Model::generator(period, value),
            ModelDraft::Tally => Model::tally(),
            ModelDraft::Relay { delay } => Model::relay(delay),
            ModelDraft::Queue { service } => Model::queue(service),
            ModelDraft::Hop {
                seed,
                ports,
                spread,
            } => Model::hop(seed, ports, spread),
        }
    }
}

/// What a component is to be: one of the five models with its parameters, or a machine whose program can be made.
#[derive(Drop)]
pub(crate) enum AnyDraft<'m> {
    BuiltIn(ModelDraft),
    Machine(ProgramDraft<'m>),
}

impl<'m> AnyDraft<'m> {
    /// The model, where its parameters are in range.
    pub fn model(&self, alloc: Global) -> Result<AnyModel, FileRefused>
        ensures ok { IfOk result (λ m. any_model_of self.now ≡ Ok m) }
        ensures err { FailsBy result (any_model_of self.now) }
    {
        match self {
            AnyDraft::BuiltIn(draft) => Ok(AnyModel::BuiltIn(draft.model()?)),
            AnyDraft::Machine(program) => Ok(AnyModel::Machine(Machine {
                program: program.made(alloc)?,
            })),
        }
    }

    /// The parameter that is out of range, if one is.
    pub fn fault(&self) -> Option<FileRefused>
        ensures { result ≡ result_err (any_model_of self.now) }
    {
        match self {
            AnyDraft::BuiltIn(draft) => match draft.model() {
                Ok(_) => None,
                Err(bad) => Some(FileRefused::Parameter(bad)),
            },
            AnyDraft::Machine(_) => None,
        }
    }
}

/// A component of a file, its name lent by the file's value.
#[derive(Drop)]
pub(crate) struct ComponentDraft<'a> {
    pub name: &'a str,
    pub model: AnyDraft<'a>,
}

/// A coupling of a file, with the names of its ends.
#[derive(Clone, Copy, Debug)]
pub(crate) struct CouplingDraft<'a> {
    pub source: &'a str,
    pub source_port: u64,
    pub destination: &'a str,
    pub destination_port: u64,
}

/// An input of a file, with the name of its component.
#[derive(Clone, Copy, Debug)]
pub(crate) struct InputDraft<'a> {
    pub tick: u64,
    pub to: &'a str,
    pub port: u64,
    pub value: i64,
}

/// A network file, each of whose members has its type.
#[derive(Drop)]
pub(crate) struct Draft<'a> {
    pub micro_limit: u64,
    pub components: Vec<ComponentDraft<'a>>,
    pub couplings: Vec<CouplingDraft<'a>>,
    pub inputs: Vec<InputDraft<'a>>,
}

/// A network file of format `tw-2`, each of whose members has its type; inputs name atoms by their names from
/// the root on.
#[derive(Drop)]
pub(crate) struct TreeDraft<'a> {
    pub micro_limit: u64,
    pub root: Nested<AnyDraft<'a>>,
    pub inputs: Vec<InputDraft<'a>>,
}
