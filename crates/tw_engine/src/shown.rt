//! The components that a view shows.

ghost use Rattle.std.specs.Prelude.{◌≡◌, MatchResult, Some, option_map};
ghost use Rattle.tw_engine.specs.Views.{HasNoneShown};
ghost use Rattle.tw_figures.specs.Shown.{shown_of};

use crate::failed::Failed;
use std::alloc::Global;
use tw_any_model::AnyModel;
use tw_figures::shown_of;
use tw_network::Network;
use tw_vtime::Refusal;

/// Whether each component of a network is shown: each, or those of these names, which are parted by commas.
///
/// It fails where memory is wanting (4), and where no component has one of the names (15).
pub(crate) fn shown_in(
    alloc: Global,
    network: &Network<AnyModel>,
    only: Option<&str>,
) -> Result<Vec<bool>, Failed>
    ensures { let names = option_map (λ o. o.now) only.entry in
        MatchResult result (λ shown. shown_of network.now.names names ≡ Some shown.items)
        (HasNoneShown network.now names) }
{
    match shown_of(alloc, network, only)? {
        Some(shown) => Ok(shown),
        None => Err(Failed::from(Refusal::NoSuch)),
    }
}
