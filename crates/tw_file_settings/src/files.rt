//! The bytes of a network's file with other numbers.

ghost use Rattle.std.specs.Prelude.{◌≡◌, IfErr, IfOk, option_map};
ghost use Rattle.std.specs.Option.{option_map_or};
ghost use Rattle.serde_json.specs.View.{view};
ghost use Rattle.tw_file_settings.specs.Files.{HasNoFile, HasOneValue, IsFileWith, json_in};
ghost use Rattle.tw_file_settings.specs.declared.settings.Settings.{Settings as TheSettings};
ghost use Rattle.tw_file_settings.specs.declared.refused.SettingRefused.TheVariants as refused;

use crate::refused::SettingRefused;
use crate::settings::Settings;
use serde_json::Value;
use std::alloc::{AllocError, Global};

/// The JSON value that bytes write; none where they are not UTF-8, not JSON or nested deeper than 127 levels.
fn json_in(alloc: Global, bytes: &[u8]) -> Result<Option<Value>, AllocError>
    ensures { IfOk result (λ o. option_map view o ≡ json_in bytes.now) }
{
    match Value::from_slice(alloc, bytes) {
        Ok(value) => Ok(Some(value)),
        Err(error) if error.is_memory() => Err(AllocError),
        Err(_) => Ok(None),
    }
}

/// The bytes of a network's file with these settings: they write the JSON value of the file, in which the settings stand. None where the
/// bytes of the file itself do: where nothing is set, and where they are no JSON (20), which a reader of the file says.
///
/// The value is changed so: first each assignment puts its number in the place of its parameter's. A target is a component's path and a
/// parameter. On the way from the root each name is that of the first component that has it. The last of them has to have a `model` and
/// that parameter: a member that is no array, and none of `name`, `model`, `components` and `couplings`; else it is refused as
/// [`SettingRefused::NoParameter`] (23). Then come the seeds. Replication 0 leaves them. Replication S gives each hop's `seed`, and each
/// parameter that is `random` of the component's machine, the S-th number that SplitMix64 makes of it (Steele, Lea and Flood 2014); a seed
/// that is no whole number of its range stays. All else stays too.
///
/// Want of memory ([`SettingRefused::OutOfMemory`], 4) may come at any point.
pub fn file_with(
    alloc: Global,
    bytes: &[u8],
    settings: &Settings<'_>,
) -> Result<Option<Vec<u8>>, SettingRefused>
    ensures ok { IfOk result (λ file.
        IsFileWith settings.now bytes.now (option_map_or (λ v. v.items) file bytes.now)) }
    ensures err { IfErr result (λ e. e ≡ refused.NoParameter → HasNoFile settings.now bytes.now) }
{
    if settings.is_empty() {
        return Ok(None);
    }
    let Some(mut value) = json_in(alloc, bytes)? else {
        return Ok(None);
    };
    settings.put_into(alloc, &mut value)?;
    let file = value.to_vec(alloc)?;
    Ok(Some(file))
}

/// Two files of the same bytes and settings write the same JSON value: what a network's file means follows from the file and the line. It
/// does nothing.
pub fn one_file_law()
    ensures { (settings : TheSettings) → HasOneValue settings }
{}
