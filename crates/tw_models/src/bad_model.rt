//! What the makers of models refuse.
ghost use Rattle.std.specs.Prelude.{◌≡◌};
ghost use Rattle.tw_models.specs.BadModel.{bad_model_refusal};

use thiserror::Error;
use tw_vtime::Refusal;

/// A model's parameter is out of range.
#[derive(Clone, Copy, Debug, Error, PartialEq, Eq)]
pub enum BadModel {
    /// A number of ports that is not 1 to 16: refusal 6.
    #[error("the number of ports is not 1 to 16")]
    BadPort,
    /// A period, delay, service or spread out of range: refusal 10.
    #[error("a period, delay, service or spread is out of range")]
    BadTick,
}

impl From<BadModel> for Refusal {
    ghost from_gives = { λ bad refusal. refusal ≡ bad_model_refusal bad };

    fn from(bad: BadModel) -> Refusal {
        match bad {
            BadModel::BadPort => Refusal::BadPort,
            BadModel::BadTick => Refusal::BadTick,
        }
    }
}
