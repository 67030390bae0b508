//! The names of a network's components, for texts.

ghost use Rattle.std.specs.Prelude.{◌≡◌};
ghost use Rattle.tw_engine.specs.Runs.{name_in};

use tw_any_model::AnyModel;
use tw_network::Network;
use tw_texts::Names;

/// The components of a network, by name. A number that no component has gets the empty text.
#[derive(Drop)]
pub(crate) struct NetworkNames<'a> {
    pub(crate) network: &'a Network<AnyModel>,
}

impl Names for NetworkNames<'_> {
    ghost name_of = { λ names component. name_in names.network.now.names component };

    fn name(&self, component: usize) -> &str {
        if component < self.network.len() {
            self.network.name(component)
        } else {
            self.network.facts();
            ""
        }
    }
}
