//! Parts of a JSON value.
ghost use Rattle.std.specs.Prelude.{◌≡◌, ◌==◌, map, nat_le, option_map};
ghost use Rattle.serde_json.specs.Events.{items_len};
ghost use Rattle.serde_json.specs.Find.{as_array};
ghost use Rattle.serde_json.specs.View.{view, items_view, members_view};
ghost use Rattle.tw_machine_file.specs.Values.{are_among, is_long};

use crate::names::is_among;
use serde_json::{Map, Value};

/// The items of an array.
pub(crate) fn items_of(value: &Value) -> Option<&[Value]>
    ensures { option_map (λ vs. items_view vs.now) result ≡ as_array (view value.now) }
{
    Some(value.as_array()?.as_slice())
}

/// Whether there are as many.
pub(crate) fn has_items(count: usize, values: &[Value]) -> bool
    ensures { result ≡ (items_len (items_view values.now) == count) }
{
    values.len() == count
}

/// Whether there are 1 to so many.
pub(crate) fn is_long(most: usize, values: &[Value]) -> bool
    ensures { result ≡ is_long most (items_view values.now) }
{
    values.len() >= 1 && values.len() <= most
}

/// Whether there are at most so many.
pub(crate) fn are_few(most: usize, values: &[Value]) -> bool
    ensures { result ≡ nat_le (items_len (items_view values.now)) most }
{
    values.len() <= most
}

/// Whether each member has one of these names.
pub(crate) fn are_among(names: &[&[u8]], members: &Map<String, Value>) -> bool
    ensures { result ≡ are_among (map (λ n. n.now) names.now) (members_view members.now.entries) }
{
    for (name, _) in members.iter() {
        if !is_among(names, name.as_str().as_bytes()) {
            return false;
        }
    }
    true
}
