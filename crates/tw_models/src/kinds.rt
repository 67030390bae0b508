//! The kinds of built-in models: what a file calls them, and the parameters that it gives.
ghost use Rattle.std.specs.Prelude.{◌≡◌, map};
ghost use Rattle.tw_models.specs.Kinds.{is_among, is_kind_name, kind_name};

use crate::hop::{MAX_PORTS, MAX_SPREAD};
use crate::model::Model;
use tw_vtime::MAX_TICK;

/// The name of a generator in a file.
pub const GEN: &str = "gen";

/// The name of a tally in a file.
pub const TALLY: &str = "tally";

/// The name of a relay in a file.
pub const RELAY: &str = "relay";

/// The name of a queue in a file.
pub const QUEUE: &str = "queue";

/// The name of a hop in a file.
pub const HOP: &str = "hop";

/// The numbers that a parameter may be.
#[derive(Clone, Copy)]
pub enum Numbers {
    /// Whole numbers without sign, from the least to the greatest.
    Counts { least: u64, most: u64 },
    /// All whole numbers of 64 bits with sign.
    Values,
}

/// A parameter: its name in a file, and the numbers that it may be.
#[derive(Clone, Copy)]
pub struct Parameter {
    pub name: &'static str,
    pub numbers: Numbers,
}

/// A kind of built-in models: its name in a file, and its parameters.
#[derive(Clone, Copy)]
pub struct Kind {
    pub name: &'static str,
    pub parameters: &'static [Parameter],
}

/// The kinds of built-in models. Of the parameters of one model the first out of range, in this order, is the fault of a file.
pub const KINDS: [Kind; 5] = [
    Kind {
        name: GEN,
        parameters: &[
            Parameter {
                name: "period",
                numbers: Numbers::Counts {
                    least: 1,
                    most: MAX_TICK,
                },
            },
            Parameter {
                name: "value",
                numbers: Numbers::Values,
            },
        ],
    },
    Kind {
        name: TALLY,
        parameters: &[],
    },
    Kind {
        name: RELAY,
        parameters: &[Parameter {
            name: "delay",
            numbers: Numbers::Counts {
                least: 0,
                most: MAX_TICK,
            },
        }],
    },
    Kind {
        name: QUEUE,
        parameters: &[Parameter {
            name: "service",
            numbers: Numbers::Counts {
                least: 0,
                most: MAX_TICK,
            },
        }],
    },
    Kind {
        name: HOP,
        parameters: &[
            Parameter {
                name: "seed",
                numbers: Numbers::Counts {
                    least: 0,
                    most: u64::MAX,
                },
            },
            Parameter {
                name: "ports",
                numbers: Numbers::Counts {
                    least: 1,
                    most: MAX_PORTS,
                },
            },
            Parameter {
                name: "spread",
                numbers: Numbers::Counts {
                    least: 1,
                    most: MAX_SPREAD,
                },
            },
        ],
    },
];

/// Whether a text is the name of one of these kinds.
fn is_among(kinds: &[Kind], text: &[u8]) -> bool
    ensures { result ≡ is_among (map (λ k. k.name.now) kinds.now) text.now }
{
    for kind in kinds {
        if kind.name.as_bytes() == text {
            return true;
        }
    }
    false
}

/// Whether a text is the name of a kind of built-in models: no machine of a file may have it.
pub fn is_kind_name(text: &[u8]) -> bool
    ensures { result ≡ is_kind_name text.now }
{
    is_among(&KINDS, text)
}

impl Model {
    /// What a file calls a model of its kind.
    pub fn kind_name(&self) -> &'static str
        ensures { result.now ≡ kind_name self.now }
    {
        match self {
            Model::Gen(_) => GEN,
            Model::Tally => TALLY,
            Model::Relay(_) => RELAY,
            Model::Queue(_) => QUEUE,
            Model::Hop(_) => HOP,
        }
    }
}
