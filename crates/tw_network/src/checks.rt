//! The faults of what is handed in: counts and the greatest microstep, components, couplings and inputs.

ghost use Rattle.std.specs.Prelude.{◌≡◌, ◌++◌, ◌∷◌, ◌≤◌, [], IfOk, OnOk, None};
ghost use Rattle.std.specs.List.{list_all};
ghost use Rattle.std.specs.Result.{result_err};
ghost use Rattle.tw_network.specs.Contents.{is_name_byte, named, names_of, models_of, texts_of};
ghost use Rattle.tw_network.specs.Faults.{count_fault, limit_fault, name_fault, starts_in_time, components_fault, end_fault, coupling_fault, couplings_fault, input_fault, inputs_fault, FailsBy, component_fault_of, ends_fault};
ghost use Rattle.tw_network.specs.RouteIndex.{IsRouteIndex};

use crate::limits::{MAX_COMPONENTS, MAX_INPUTS, MAX_NAME, MAX_PORT};
use crate::refused::NetworkRefused;
use crate::routes::Routes;
use crate::wiring::{Coupling, Input};
use indexmap::IndexSet;
use std::alloc::{AllocError, Global};
use tw_atomic::Atomic;
use tw_nested::MAX_COUPLINGS;
use tw_vtime::{MAX_MICROSTEP, MAX_TICK};

/// Refuses too many of anything.
pub(crate) fn check_counts(
    components: usize,
    couplings: usize,
    inputs: usize,
) -> Result<(), NetworkRefused>
    ensures { result_err result ≡ count_fault components couplings inputs }
{
    if components > MAX_COMPONENTS || couplings > MAX_COUPLINGS || inputs > MAX_INPUTS {
        return Err(NetworkRefused::TooMany);
    }
    Ok(())
}

/// The greatest microstep, where it is one.
pub(crate) fn checked_limit(micro_limit: u64) -> Result<u32, NetworkRefused>
    ensures same { IfOk result (λ limit. limit ≡ micro_limit) }
    ensures fault { result_err result ≡ limit_fault micro_limit }
{
    if micro_limit == 0 || micro_limit > u64::from(MAX_MICROSTEP) {
        return Err(NetworkRefused::BadLimit);
    }
    Ok(micro_limit as u32)
}

fn is_byte_of_name(b: u8) -> bool
    ensures { result ≡ is_name_byte b }
{
    b.is_ascii_alphanumeric() || b == b'_' || b == b'-'
}

fn has_bytes_of_name(text: &str) -> bool
    ensures { result ≡ list_all is_name_byte text.now }
{
    text.bytes().all(is_byte_of_name)
}

/// Refuses a text that is not one to 32 of ASCII letters, digits, `_` and `-`.
pub(crate) fn check_name(text: &str) -> Result<(), NetworkRefused>
    ensures { result_err result ≡ name_fault text.now }
{
    if text.is_empty() || text.len() > MAX_NAME || !has_bytes_of_name(text) {
        return Err(NetworkRefused::BadName);
    }
    Ok(())
}

/// Whether the start state is passive, or its time advance no later than the last tick.
pub(crate) fn has_start_in_time<M: Atomic>(alloc: Global, model: &M) -> Result<bool, AllocError>
    ensures { IfOk result (λ in_time. in_time ≡ starts_in_time (M.meaning model.now)) }
{
    let start = model.start(alloc)?;
    Ok(match model.ta(&start) {
        Some(ta) => ta <= MAX_TICK,
        None => true,
    })
}

/// Adds the name of a component that is not at fault.
#[tactic(auto, using(crate::proofs::Names::has_name_of_keys))]
fn take_name<M: Atomic>(
    alloc: Global,
    names: &mut IndexSet<String>,
    name: String,
    model: &M,
) -> Result<(), NetworkRefused>
    ensures names { OnOk result (names.new.keys ≡ names.old.keys ++ name ∷ []) }
    ensures ok { OnOk result (component_fault_of M.meaning names.old.keys name model.now ≡ None) }
    ensures err { FailsBy result (component_fault_of M.meaning names.old.keys name model.now) }
{
    check_name(name.as_str())?;
    let (_, is_new) = names.insert_full(name)?;
    if !is_new {
        return Err(NetworkRefused::DuplicateName);
    }
    if !has_start_in_time(alloc, model)? {
        return Err(NetworkRefused::BadTick);
    }
    Ok(())
}

/// The names and the models of the components, in order, where none of them is at fault.
pub(crate) fn take_components<M: Atomic>(
    alloc: Global,
    components: Vec<(String, M)>,
) -> Result<(IndexSet<String>, Vec<M>), NetworkRefused>
    ensures names { IfOk result
        (λ taken. texts_of taken.0.keys ≡ names_of (named components.items)) }
    ensures models { IfOk result (λ taken. taken.1.items ≡ models_of (named components.items)) }
    ensures ok { OnOk result (components_fault M.meaning (named components.items) ≡ None) }
    ensures err { FailsBy result (components_fault M.meaning (named components.items)) }
{
    let mut models = Vec::with_capacity(alloc, components.len())?;
    let mut names = IndexSet::new(alloc);
    for component in components {
        take_component(alloc, &mut names, &mut models, component)?;
    }
    Ok((names, models))
}

/// Adds the name and the model of a component that is not at fault.
fn take_component<M: Atomic>(
    alloc: Global,
    names: &mut IndexSet<String>,
    models: &mut Vec<M>,
    component: (String, M),
) -> Result<(), NetworkRefused>
    ensures names { OnOk result (names.new.keys ≡ names.old.keys ++ component.0 ∷ []) }
    ensures models { OnOk result (models.new.items ≡ models.old.items ++ component.1 ∷ []) }
    ensures ok { let fault = component_fault_of M.meaning names.old.keys component.0 component.1 in
        OnOk result (fault ≡ None) }
    ensures err { FailsBy result
        (component_fault_of M.meaning names.old.keys component.0 component.1) }
{
    let (name, model) = component;
    take_name(alloc, names, name, &model)?;
    models.push(model)?;
    Ok(())
}

/// Refuses a coupling that is at fault alone.
fn check_ends(count: usize, coupling: Coupling) -> Result<(), NetworkRefused>
    ensures { result_err result ≡ end_fault count coupling }
{
    let (source, from, destination, to) = coupling;
    if source >= count || destination >= count {
        return Err(NetworkRefused::UnknownComponent);
    }
    if from > MAX_PORT || to > MAX_PORT {
        return Err(NetworkRefused::BadPort);
    }
    if source == destination {
        return Err(NetworkRefused::SelfCoupling);
    }
    Ok(())
}

/// Adds a coupling that is not at fault.
fn take_coupling(
    seen: &mut IndexSet<Coupling>,
    count: usize,
    coupling: Coupling,
) -> Result<(), NetworkRefused>
    ensures seen { OnOk result (seen.new.keys ≡ seen.old.keys ++ coupling ∷ []) }
    ensures ok { OnOk result (coupling_fault count seen.old.keys coupling ≡ None) }
    ensures err { FailsBy result (coupling_fault count seen.old.keys coupling) }
{
    check_ends(count, coupling)?;
    let (_, is_new) = seen.insert_full(coupling)?;
    if !is_new {
        return Err(NetworkRefused::DuplicateRoute);
    }
    Ok(())
}

/// Refuses couplings of which one is at fault, alone or beside those before it.
fn check_couplings(
    alloc: Global,
    count: usize,
    couplings: &[Coupling],
) -> Result<(), NetworkRefused>
    ensures ok { OnOk result (couplings_fault count couplings.now ≡ None) }
    ensures err { FailsBy result (couplings_fault count couplings.now) }
{
    let mut seen = IndexSet::new(alloc);
    for coupling in couplings {
        take_coupling(&mut seen, count, *coupling)?;
    }
    Ok(())
}

/// Refuses an input that is at fault.
fn check_input(count: usize, input: Input) -> Result<(), NetworkRefused>
    ensures { result_err result ≡ input_fault count input }
{
    let (tick, to, port, _) = input;
    if to >= count {
        return Err(NetworkRefused::UnknownComponent);
    }
    if port > MAX_PORT {
        return Err(NetworkRefused::BadPort);
    }
    if tick > MAX_TICK {
        return Err(NetworkRefused::BadTick);
    }
    Ok(())
}

/// Refuses inputs of which one is at fault.
pub(crate) fn check_inputs(count: usize, inputs: &[Input]) -> Result<(), NetworkRefused>
    ensures { result_err result ≡ inputs_fault count inputs.now }
{
    for input in inputs {
        check_input(count, *input)?;
    }
    Ok(())
}

/// Where each output of `count` components goes, where no coupling and no input is at fault.
pub(crate) fn checked_routes(
    alloc: Global,
    count: usize,
    couplings: &[Coupling],
    inputs: &[Input],
) -> Result<Routes, NetworkRefused>
    requires few { count ≤ 1024 }
    ensures routes { IfOk result
        (λ r. IsRouteIndex couplings.now count r.places.items r.starts.items) }
    ensures couplings { OnOk result (couplings_fault count couplings.now ≡ None) }
    ensures inputs { OnOk result (inputs_fault count inputs.now ≡ None) }
    ensures err { FailsBy result (ends_fault count couplings.now inputs.now) }
{
    check_couplings(alloc, count, couplings)?;
    check_inputs(count, inputs)?;
    Ok(Routes::new(alloc, count, couplings)?)
}
