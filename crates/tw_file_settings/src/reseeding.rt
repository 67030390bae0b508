//! The seeds of a replication.

ghost use Rattle.std.specs.Prelude.{◌≡◌, OnOk, option_and_then, option_map};
ghost use Rattle.serde_json.specs.View.{view, items_view};
ghost use Rattle.tw_file_settings.specs.Reseeded.{component_reseeded, first_named, hop_reseeded, is_among, items_map, next_seed, next_signed, own_reseeded, parameter_reseeded, reseeded, seeding_parameter};
ghost use Rattle.tw_file_settings.specs.Seeding.{IsSeeding};

use crate::members::{is_named, items_at, put_components, put_member, take_components, text_at};
use rand_core::{Rng, SeedableRng};
use rand_xoshiro::SplitMix64;
use serde_json::{Number, Value};
use std::alloc::{AllocError, Global};

/// What SplitMix64 adds to its state before each number.
const GAMMA: u64 = 0x9e37_79b9_7f4a_7c15;

/// More levels than a JSON text of 127 levels can have.
const ROOM: usize = 64;

/// The seed of a replication: the number of this place, from 1 on, that SplitMix64 gives from a seed (Steele, Lea and Flood 2014); 0 is
/// the seed itself.
fn next_seed(seed: u64, replication: u64) -> u64
    ensures { result ≡ next_seed replication seed }
{
    let Some(behind) = replication.checked_sub(1) else {
        return seed;
    };
    let state = seed.wrapping_add(behind.wrapping_mul(GAMMA));
    SplitMix64::seed_from_u64(state).next_u64()
}

/// The same of a seed with sign.
fn next_signed(seed: i64, replication: u64) -> i64
    ensures { result ≡ next_signed replication seed }
{
    next_seed(seed.cast_unsigned(), replication).cast_signed()
}

/// Gives a hop its seed.
fn reseed_hop(alloc: Global, component: &mut Value, replication: u64) -> Result<(), AllocError>
    ensures { OnOk result (view component.new ≡ hop_reseeded replication (view component.old)) }
{
    let Some(seed) = component.get("seed").and_then(Value::as_u64) else {
        return Ok(());
    };
    let seed = Value::Number(Number::from(next_seed(seed, replication)));
    put_member(alloc, component, "seed", seed)
}

/// Gives a machine's component the seed that is its parameter of this name.
fn reseed_parameter(
    alloc: Global,
    component: &mut Value,
    name: &str,
    replication: u64,
) -> Result<(), AllocError>
    ensures { OnOk result
        (view component.new ≡ parameter_reseeded replication name.now (view component.old)) }
{
    let Some(seed) = component.get(name).and_then(Value::as_i64) else {
        return Ok(());
    };
    let seed = Value::Number(Number::from(next_signed(seed, replication)));
    put_member(alloc, component, name, seed)
}

/// Whether a text is among these.
fn is_among(name: &str, texts: &[Value]) -> bool
    ensures { result ≡ is_among name.now (items_view texts.now) }
{
    for text in texts {
        if text.as_str() == Some(name) {
            return true;
        }
    }
    false
}

/// The first machine of a name.
fn first_named<'m>(name: &str, machines: &'m [Value]) -> Option<&'m Value>
    ensures { option_map (λ m. view m.now) result ≡ first_named name.now (items_view machines.now) }
{
    for machine in machines {
        if is_named(machine, name) {
            return Some(machine);
        }
    }
    None
}

/// The parameter that seeds a machine, if one does.
fn seeding_parameter<'m>(machine: &'m Value) -> Option<&'m str>
    ensures { option_map (λ t. t.now) result ≡ seeding_parameter (view machine.now) }
{
    let name = text_at(machine, "random")?;
    if !is_among(name, items_at(machine, "parameters")) {
        return None;
    }
    Some(name)
}

/// The parameter that seeds the machine of a name, if one does.
fn seeding_of<'m>(models: &'m [Value], model: &str) -> Option<&'m str>
    ensures { option_map (λ t. t.now) result
        ≡ option_and_then seeding_parameter (first_named model.now (items_view models.now)) }
{
    seeding_parameter(first_named(model, models)?)
}

/// What seeds a component, by its model.
#[derive(Clone, Copy)]
enum Seeding<'m> {
    /// Nothing.
    Nothing,
    /// It is a hop.
    Hop,
    /// A parameter of its machine.
    Parameter(&'m str),
}

/// What seeds a component in a file that declares these machines.
fn seeding_in<'m>(models: &'m [Value], component: &Value) -> Seeding<'m>
    ensures { IsSeeding (items_view models.now) (view component.now) result }
{
    match text_at(component, "model") {
        None => Seeding::Nothing,
        Some("hop") => Seeding::Hop,
        Some(model) => match seeding_of(models, model) {
            None => Seeding::Nothing,
            Some(name) => Seeding::Parameter(name),
        },
    }
}

/// Gives a component its own seed, if it has one.
fn reseed_own(
    alloc: Global,
    models: &[Value],
    component: &mut Value,
    replication: u64,
) -> Result<(), AllocError>
    ensures { OnOk result (view component.new
        ≡ own_reseeded (items_view models.now) replication (view component.old)) }
{
    match seeding_in(models, component) {
        Seeding::Nothing => Ok(()),
        Seeding::Hop => reseed_hop(alloc, component, replication),
        Seeding::Parameter(name) => reseed_parameter(alloc, component, name, replication),
    }
}

/// Gives a component, and those in it, their seeds, of no more levels than there is room for.
#[cycle(reseed)]
fn reseed_component(
    alloc: Global,
    models: &[Value],
    component: &mut Value,
    replication: u64,
    room: usize,
) -> Result<(), AllocError>
    ensures { OnOk result (view component.new
        ≡ component_reseeded (items_view models.now) replication room (view component.old)) }
{
    reseed_own(alloc, models, component, replication)?;
    if room == 0 {
        return Ok(());
    }
    let Some(mut parts) = take_components(alloc, component)? else {
        return Ok(());
    };
    reseed_each(alloc, models, parts.as_mut_slice(), replication, room - 1)?;
    put_components(alloc, component, parts)?;
    Ok(())
}

/// Gives each component its seeds.
#[cycle(reseed)]
fn reseed_each(
    alloc: Global,
    models: &[Value],
    components: &mut [Value],
    replication: u64,
    room: usize,
) -> Result<(), AllocError>
    ensures { OnOk result (items_view components.new ≡ items_map
        (component_reseeded (items_view models.now) replication room) (items_view components.old)) }
{
    for component in components.iter_mut() {
        reseed_component(alloc, models, component, replication, room)?;
    }
    Ok(())
}

/// Gives all components of a file the seeds of a replication; of replication 0 they stay.
pub(crate) fn reseed(alloc: Global, file: &mut Value, replication: u64) -> Result<(), AllocError>
    ensures { OnOk result (view file.new ≡ reseeded replication (view file.old)) }
{
    if replication == 0 {
        return Ok(());
    }
    let Some(mut components) = take_components(alloc, file)? else {
        return Ok(());
    };
    let models = items_at(file, "models");
    reseed_each(
        alloc,
        models,
        components.as_mut_slice(),
        replication,
        ROOM - 1,
    )?;
    put_components(alloc, file, components)?;
    Ok(())
}
