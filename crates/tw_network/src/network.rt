//! The network, its maker and its readers.

ghost use Rattle.std.specs.Prelude.{◌≡◌, ◌↔◌, ◌<◌, ◌≤◌, [], Contains, IsTrue, IsErrOf, IfOk, IfSome, OnOk, IfNone, None, Some, length, slice_get};
ghost use Rattle.std.specs.List.{AllByRecursion as Each};
ghost use Rattle.tw_network.specs.Contents.{handed_in, made_of, network_of, IsPlace, IsWhole};
ghost use Rattle.tw_network.specs.Faults.{counts_fault, fault_of, first_fault, limit_fault, FailsBy, IfRefused};
ghost use Rattle.tw_network.specs.FlatTrees.{IsFlattened, IsSameNetwork, IfFlat};
ghost use Rattle.tw_nested.specs.Tree.{flat_names, models_in, tree_of, links_of};
ghost use Rattle.tw_nested.specs.Whole.{AreCouplings};
ghost use Rattle.tw_network.specs.declared.refused.NetworkRefused.TheVariants.{TooMany, BadLimit};
ghost use Rattle.tw_theory.specs.Network.{routes};
ghost use Rattle.tw_network.specs.TreeFaults.{inputs_fault_of, tree_fault_of, tree_count_fault_of, IsTreeFaultOf};

use crate::checks::{check_counts, check_inputs, checked_limit, checked_routes, take_components};
use crate::naming::name_set;
use crate::refused::NetworkRefused;
use crate::routes::Routes;
use crate::tree_checks::checked_tree;
use crate::wiring::{Coupling, Input, Place};
use indexmap::IndexSet;
use std::alloc::Global;
use std::marker::Model;
use tw_atomic::Atomic;
use tw_nested::{Flat, Nested, PORTS, dismantle, flatten};

/// A flat Parallel DEVS network (Chow and Zeigler 1994).
///
/// It has at most 1,024 components, each with a name of its own and a model, 8,192 couplings and 65,536
/// inputs. Components are numbered from 0, in the order in which they were handed in, or depth first where a
/// tree was; ports are 0 to 15.
pub struct Network<M: Atomic> {
    names: IndexSet<String>,
    models: Vec<M>,
    couplings: Vec<Coupling>,
    inputs: Vec<Input>,
    micro_limit: u32,
    routes: Routes,
}

// Written out, since a derived one is spelt field by field, and proved, wherever one is let go.
impl<M: Atomic> Drop for Network<M> {
    fn drop(self) {
        let Network {
            names: _,
            models: _,
            couplings: _,
            inputs: _,
            micro_limit: _,
            routes: _,
        } = self;
    }
}

impl<M: Atomic> Model for Network<M> {
    ghost use Rattle.std.specs.Prelude.{length};
    ghost use Rattle.tw_network.specs.Contents.{Contents, IsWhole, contents_of};
    ghost use Rattle.tw_network.specs.RouteIndex.{IsRouteIndex};

    ghost Value = { Contents M };

    ghost view = { λ n. contents_of
        n.names.keys n.models.items n.couplings.items n.inputs.items n.micro_limit };

    ghost invariant = { λ n. IsWhole M.meaning (contents_of
        n.names.keys n.models.items n.couplings.items n.inputs.items n.micro_limit)
        × IsRouteIndex n.couplings.items (length n.models.items)
        n.routes.places.items n.routes.starts.items };
}

impl<M: Atomic> Network<M> {
    /// The network of these components (name and model), couplings and inputs, with this greatest microstep.
    ///
    /// The first fault in this order is answered: more than 1,024 components, 8,192 couplings or 65,536
    /// inputs (9); `micro_limit` not 1 to 8,388,607 (11); for each component in order, a name that is not 1
    /// to 32 of ASCII letters, digits, `_` and `-` (17), a name that stood before (18), a start state whose
    /// time advance is above the last tick (10); for each coupling in order, an unknown component at either
    /// end (5), a port above 15 (6), a component coupled to itself (7), a coupling that stood before (8); for
    /// each input in order, an unknown component (5), a port above 15 (6), a tick above the last one (10).
    /// Want of memory (4) may come after the counts and the greatest microstep instead. After any of them nothing
    /// is left.
    pub fn new(
        alloc: Global,
        components: Vec<(String, M)>,
        couplings: Vec<Coupling>,
        inputs: Vec<Input>,
        micro_limit: u64,
    ) -> Result<Network<M>, NetworkRefused>
        ensures as_handed_in { IfOk result
            (λ n. n ≡ made_of components couplings inputs micro_limit) }
        ensures no_fault { OnOk result
            (fault_of M.meaning components couplings inputs micro_limit ≡ None) }
        ensures first_fault { FailsBy result
            (fault_of M.meaning components couplings inputs micro_limit) }
        ensures counts { counts_fault components couplings inputs ≡ Some TooMany
            → IsErrOf result TooMany }
        ensures limit { counts_fault components couplings inputs ≡ None
            → limit_fault micro_limit ≡ Some BadLimit → IsErrOf result BadLimit }
    {
        check_counts(components.len(), couplings.len(), inputs.len())?;
        let micro_limit = checked_limit(micro_limit)?;
        let (names, models) = take_components(alloc, components)?;
        let routes = checked_routes(alloc, models.len(), couplings.as_slice(), inputs.as_slice())?;
        Ok(Network {
            names,
            models,
            couplings,
            inputs,
            micro_limit,
            routes,
        })
    }

    /// The flat network of a tree of coupled models, with these inputs and this greatest microstep.
    ///
    /// Its components are the tree's atoms, numbered from 0, depth first, in the order of parts; inputs name them
    /// by these numbers. The name of each is the names on its way from the root, joined by `.`. Two ports of
    /// atoms are coupled where a path of the tree's couplings leads from one to the other, however many do; the
    /// couplings stand by source, port, destination and port.
    ///
    /// The first fault in this order is answered: more than 16 levels (the root's parts are at level 1), 1,024
    /// atoms, 1,024 coupled parts, 8,192 couplings over all models or 65,536 inputs (9); `micro_limit` not 1 to
    /// 8,388,607 (11); for each model, depth first and before the models in it, its parts in order and then its
    /// couplings in order, with the faults of [`Network::new`], where [`End::Here`] is no end at the root (5)
    /// and a coupling from `Here` to `Here` leads from a component to itself (7); more than 8,192 couplings of
    /// atoms (9); then the inputs in order (5, 6, 10). Want of memory (4) may come after the counts and the
    /// greatest microstep instead. After any of them nothing is left, and a tree of any depth is let go.
    pub fn nested(
        alloc: Global,
        root: Nested<M>,
        inputs: Vec<Input>,
        micro_limit: u64,
    ) -> Result<Network<M>, NetworkRefused>
        ensures names { IfOk result (λ n. n.names ≡ flat_names [] (tree_of root)) }
        ensures models { IfOk result (λ n. n.models ≡ models_in (tree_of root)) }
        ensures couplings { IfOk result
            (λ n. AreCouplings (tree_of root) (links_of root) n.couplings) }
        ensures inputs { IfOk result (λ n. n.inputs ≡ inputs.items) }
        ensures micro_limit { IfOk result (λ n. n.micro_limit ≡ micro_limit) }
        ensures tree_sound { OnOk result
            (tree_fault_of M.meaning root inputs.items micro_limit ≡ None) }
        ensures inputs_sound { OnOk result (inputs_fault_of root inputs.items ≡ None) }
        ensures first_fault { IfRefused result
            (IsTreeFaultOf M.meaning root inputs.items micro_limit) }
        ensures counts { tree_count_fault_of root (length inputs.items) ≡ Some TooMany
            → IsErrOf result TooMany }
        ensures made_as_new { IfFlat root (λ components couplings.
            let same = handed_in components couplings inputs.items micro_limit in
            IfOk result (λ n. IsSameNetwork n same)) }
        ensures sound_as_new { IfFlat root (λ components couplings.
            let fault = first_fault M.meaning components couplings inputs.items micro_limit in
            OnOk result (fault ≡ None)) }
        ensures refused_as_new { IfFlat root (λ components couplings.
            FailsBy result (first_fault M.meaning components couplings inputs.items micro_limit)) }
        ensures limit { tree_count_fault_of root (length inputs.items) ≡ None
            → limit_fault micro_limit ≡ Some BadLimit → IsErrOf result BadLimit }
    {
        match checked_tree(alloc, &root, inputs.as_slice(), micro_limit) {
            Ok(micro_limit) => Network::of_sound_tree(alloc, root, inputs, micro_limit),
            Err(refused) => {
                dismantle(root);
                Err(refused)
            }
        }
    }

    /// The flat network of a tree that is not at fault, with these inputs.
    fn of_sound_tree(
        alloc: Global,
        root: Nested<M>,
        inputs: Vec<Input>,
        micro_limit: u32,
    ) -> Result<Network<M>, NetworkRefused>
        requires sound { tree_fault_of M.meaning root inputs.items micro_limit ≡ None }
        ensures flattened { IfOk result
            (IsFlattened (tree_of root) (links_of root) inputs.items micro_limit) }
        ensures inputs_sound { OnOk result (inputs_fault_of root inputs.items ≡ None) }
        ensures first_fault { IfRefused result
            (IsTreeFaultOf M.meaning root inputs.items micro_limit) }
    {
        let Flat {
            names,
            models,
            couplings,
        } = flatten(alloc, root)?;
        let count = models.len();
        check_inputs(count, inputs.as_slice())?;
        let names = name_set(alloc, names)?;
        let routes = Routes::new(alloc, count, couplings.as_slice())?;
        Ok(Network {
            names,
            models,
            couplings,
            inputs,
            micro_limit,
            routes,
        })
    }

    /// How many components there are.
    pub fn len(&self) -> usize
        ensures { result ≡ length self.now.models }
    {
        self.models.len()
    }

    /// Whether there is no component.
    pub fn is_empty(&self) -> bool
        ensures { IsTrue result ↔ (self.now.models ≡ []) }
    {
        self.models.is_empty()
    }

    /// The name of a component.
    pub fn name(&self, component: usize) -> &str
        requires { component < length self.now.models }
        ensures { slice_get self.now.names component ≡ Some result.now }
    {
        self.names[component].as_str()
    }

    /// The component that has a name, found without a scan.
    pub fn find(&self, name: &str) -> Option<usize>
        ensures found { IfSome result
            (λ component. slice_get self.now.names component ≡ Some name.now) }
        ensures known { IfSome result (λ component. component < length self.now.models) }
        ensures absent { IfNone result (¬ Contains self.now.names name.now) }
    {
        self.names.get_index_of(name)
    }

    /// The model of a component.
    pub fn model(&self, component: usize) -> &M
        requires { component < length self.now.models }
        ensures { slice_get self.now.models component ≡ Some result.now }
    {
        &self.models[component]
    }

    /// The greatest microstep, 1 to 8,388,607.
    pub fn micro_limit(&self) -> u32
        ensures { result ≡ self.now.micro_limit }
    {
        self.micro_limit
    }

    /// The couplings, in the order in which they were handed in; of a tree by source, port, destination and port.
    pub fn couplings(&self) -> &[Coupling]
        ensures { result.now ≡ self.now.couplings }
    {
        self.couplings.as_slice()
    }

    /// The network inputs, in the order in which they were handed in.
    pub fn inputs(&self) -> &[Input]
        ensures { result.now ≡ self.now.inputs }
    {
        self.inputs.as_slice()
    }

    /// The places to which the output of a component on a port goes, by component and then port; none for
    /// a port above 15.
    pub fn routes(&self, component: usize, port: u8) -> &[Place]
        requires { component < length self.now.models }
        ensures routes { result.now ≡ routes (network_of M.meaning self.now) component port }
        ensures few { length result.now ≤ length self.now.couplings }
        ensures places { Each (IsPlace (length self.now.models)) result.now }
    {
        let routes = &self.routes;
        if usize::from(port) >= PORTS {
            return &[];
        }
        routes.part(PORTS * component + usize::from(port))
    }

    /// What is true of every network. It does nothing.
    pub fn facts(&self)
        ensures { IsWhole M.meaning self.now }
    {
        let _ = &self.models;
    }
}
