//! The remaining time of a model, in ticks.
ghost use Rattle.std.specs.Prelude.{◌≡◌};
ghost use Rattle.tw_models.specs.Left.{minus, plus, IsWithin};

/// What is left after some time.
pub(crate) fn minus(left: Option<u64>, elapsed: u64) -> Option<u64>
    requires { IsWithin elapsed left }
    ensures { result ≡ minus left elapsed }
{
    match left {
        None => None,
        Some(left) => Some(left - elapsed),
    }
}

/// What was left before some time.
pub(crate) fn plus(left: Option<u64>, elapsed: u64) -> Option<u64>
    ensures { result ≡ plus left elapsed }
{
    match left {
        None => None,
        Some(left) => Some(left.wrapping_add(elapsed)),
    }
}
