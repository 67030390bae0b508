//! Parts of a JSON value, each looked up with its type.

ghost use Rattle.std.specs.Prelude.{◌≡◌, option_and_then, option_map};
ghost use Rattle.serde_json.specs.Find.{as_array, get};
ghost use Rattle.serde_json.specs.View.{view, items_view};
ghost use Rattle.tw_file_members.specs.Members.{
  count_at,
  has_format,
  has_items,
  has_members,
  is_file,
  text_at,
  value_at,
  items_in,
  text_in,
};

use serde_json::Value;

/// Whether the value is an object with so many members.
pub fn has_members(value: &Value, count: usize) -> bool
    ensures { result ≡ has_members count (view value.now) }
{
    match value.as_object() {
        Some(members) => members.len() == count,
        None => false,
    }
}

/// Whether the value is an array with so many items.
pub fn has_items(value: &Value, count: usize) -> bool
    ensures { result ≡ has_items count (view value.now) }
{
    match value.as_array() {
        Some(items) => items.as_slice().len() == count,
        None => false,
    }
}

/// Whether the value says that it is that of a file of this format.
pub fn has_format(value: &Value, format: &str) -> bool
    ensures { result ≡ has_format format.now (view value.now) }
{
    match text_at(value, "format") {
        Some(said) => said == format,
        None => false,
    }
}

/// Whether the value has so many members, as a file of this format has, and says that it is one.
pub fn is_file(value: &Value, count: usize, format: &str) -> bool
    ensures { result ≡ is_file count format.now (view value.now) }
{
    has_members(value, count) && has_format(value, format)
}

/// The items of a member that is an array.
pub fn items_at<'a>(value: &'a Value, name: &str) -> Option<&'a [Value]>
    ensures { option_map (λ vs. items_view vs.now) result
        ≡ option_and_then as_array (get name.now (view value.now)) }
{
    Some(value.get(name)?.as_array()?.as_slice())
}

/// The items of a member that is an array; none where it is not.
pub fn items_in<'a>(value: &'a Value, name: &str) -> &'a [Value]
    ensures { items_view result.now ≡ items_in name.now (view value.now) }
{
    items_at(value, name).unwrap_or(&[])
}

/// A member that is a text.
pub fn text_at<'a>(value: &'a Value, name: &str) -> Option<&'a str>
    ensures { option_map (λ t. t.now) result ≡ text_at name.now (view value.now) }
{
    value.get(name)?.as_str()
}

/// A member that is a text; the empty text where it is not.
pub fn text_in<'a>(value: &'a Value, name: &str) -> &'a str
    ensures { result.now ≡ text_in name.now (view value.now) }
{
    text_at(value, name).unwrap_or("")
}

/// A member that is a number without a fraction, an exponent or a sign, and fits 64 bits.
pub fn count_at(value: &Value, name: &str) -> Option<u64>
    ensures { result ≡ count_at name.now (view value.now) }
{
    value.get(name)?.as_u64()
}

/// A member that is a number without a fraction or an exponent, and fits 64 bits with a sign.
pub fn value_at(value: &Value, name: &str) -> Option<i64>
    ensures { result ≡ value_at name.now (view value.now) }
{
    value.get(name)?.as_i64()
}
