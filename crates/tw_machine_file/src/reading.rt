//! Reading what a file says once for all its machines: its fields and its constants.
ghost use Rattle.std.specs.Prelude.{◌≡◌, ◌≤◌, ◌+◌, [], IfOk, map};
ghost use Rattle.serde_json.specs.Find.{as_array};
ghost use Rattle.serde_json.specs.View.{view, items_view, members_view};
ghost use Rattle.tw_machine_text.specs.Letters.{functions};
ghost use Rattle.tw_machine_file.specs.Answers.{Gives, FailsBy, data_of};
ghost use Rattle.tw_machine_file.specs.Constants.{file_constant};
ghost use Rattle.tw_machine_file.specs.Names.{is_among};
ghost use Rattle.tw_machine_file.specs.Shared.{
  constant_named,
  constants_behind,
  constants_in,
  field_above,
  field_bits,
  field_count,
  field_pair,
  field_text,
  field_texts,
  fields_above,
  fields_in,
  fields_said,
  file_field,
  is_field_name,
  most_bits,
  new_field_name,
  nothing_shared,
  shared,
  shared_in,
};

use crate::fault::{MachineFault, Part, Why};
use crate::names::{is_among, is_name};
use crate::shared::{FileConstant, FileField, MAX_BITS, SharedNames};
use crate::values::{has_items, items_of};
use serde_json::{Map, Value};
use std::alloc::{AllocError, Global};
use tw_machine_text::{FUNCTIONS, same_text};

impl SharedNames {
    /// Nothing.
    pub fn nothing(alloc: Global) -> SharedNames
        ensures { shared result ≡ nothing_shared }
    {
        SharedNames {
            fields: Vec::new(alloc),
            constants: Vec::new(alloc),
        }
    }
}

/// The words that are one where a machine has no such name.
const OTHER_WORDS: [&[u8]; 3] = [b"observe", b"clear", b"do"];

/// Whether a text is one of these names.
fn is_name_in(names: &[&str], text: &[u8]) -> bool
    ensures { result ≡ is_among (map (λ n. n.now) names.now) text.now }
{
    for name in names {
        if same_text(name.as_bytes(), text) {
            return true;
        }
    }
    false
}

/// Whether a text is the name of a function.
fn is_function(text: &[u8]) -> bool
    ensures { result ≡ is_among functions text.now }
{
    is_name_in(&FUNCTIONS, text)
}

/// Whether it may be the name of a field.
fn is_field_name(text: &[u8]) -> bool
    ensures { result ≡ is_field_name text.now }
{
    is_name(true, text) && !is_function(text) && !is_among(&OTHER_WORDS, text)
}

/// Whether a field of this name has come before.
fn is_said(fields: &[FileField], text: &[u8]) -> bool
    ensures { result ≡ is_among (field_texts (map file_field fields.now)) text.now }
{
    for field in fields {
        if same_text(field.name.as_bytes(), text) {
            return true;
        }
    }
    false
}

/// Looks at the name of a field: whether it may be one, and has not come before.
fn new_field_name(before: &[FileField], text: &str) -> Result<(), MachineFault>
    ensures ok { Gives result (λ _. text.now) (new_field_name (map file_field before.now) text.now) }
    ensures err { FailsBy result (new_field_name (map file_field before.now) text.now) }
{
    if !is_field_name(text.as_bytes()) {
        return Err(MachineFault::Wrong(Part::Fields, Why::Name));
    }
    if is_said(before, text.as_bytes()) {
        return Err(MachineFault::Wrong(Part::Fields, Why::Twice));
    }
    Ok(())
}

/// Looks at an array of two.
fn field_pair(value: &Value) -> Result<(), MachineFault>
    ensures ok { Gives result (λ _. view value.now) (field_pair (view value.now) (as_array (view value.now))) }
    ensures err { FailsBy result (field_pair (view value.now) (as_array (view value.now))) }
{
    match items_of(value) {
        Some(values) if has_items(2, values) => Ok(()),
        _ => Err(MachineFault::Wrong(Part::Fields, Why::Shape)),
    }
}

fn field_text(value: &Value) -> Result<&str, MachineFault>
    ensures ok { Gives result (λ t. t.now) (field_text (view value.now)) }
    ensures err { FailsBy result (field_text (view value.now)) }
{
    let Some(name) = value.get(0) else {
        return Err(MachineFault::Wrong(Part::Fields, Why::Shape));
    };
    match name.as_str() {
        Some(text) => Ok(text),
        None => Err(MachineFault::Wrong(Part::Fields, Why::Shape)),
    }
}

fn field_count(value: &Value) -> Result<u64, MachineFault>
    ensures ok { Gives result (λ n. n) (field_count (view value.now)) }
    ensures err { FailsBy result (field_count (view value.now)) }
{
    let Some(bits) = value.get(1) else {
        return Err(MachineFault::Wrong(Part::Fields, Why::Shape));
    };
    match bits.as_u64() {
        Some(bits) => Ok(bits),
        None => Err(MachineFault::Wrong(Part::Fields, Why::Shape)),
    }
}

/// How many bits a field has above so many.
fn field_bits(taken: u32, value: &Value) -> Result<u32, MachineFault>
    ensures ok { Gives result (λ n. n) (field_bits taken (view value.now)) }
    ensures err { FailsBy result (field_bits taken (view value.now)) }
    ensures within { IfOk result (λ bits. taken + bits ≤ most_bits) }
{
    let bits = field_count(value)?;
    if bits >= 1 && bits <= 62 && taken as u64 + bits <= MAX_BITS {
        Ok(bits as u32)
    } else {
        Err(MachineFault::Wrong(Part::Fields, Why::Count))
    }
}

/// A field above these, which take so many bits.
fn field_above(
    alloc: Global,
    low: u32,
    below: &[FileField],
    value: &Value,
) -> Result<FileField, MachineFault>
    ensures ok { Gives result file_field (field_above low (map file_field below.now) (view value.now)) }
    ensures err { FailsBy result (field_above low (map file_field below.now) (view value.now)) }
{
    field_pair(value)?;
    let text = field_text(value)?;
    new_field_name(below, text)?;
    let bits = field_bits(low, value)?;
    let name = String::from_str(alloc, text)?;
    Ok(FileField { name, low, bits })
}

fn fields_read(alloc: Global, values: &[Value]) -> Result<Vec<FileField>, MachineFault>
    ensures ok { Gives result (λ fs. map file_field fs.items) (fields_above 0 [] (items_view values.now)) }
    ensures err { FailsBy result (fields_above 0 [] (items_view values.now)) }
{
    let mut fields = Vec::new(alloc);
    let mut low = 0;
    for value in values {
        let field = field_above(alloc, low, &fields, value)?;
        low = field.low + field.bits;
        fields.push(field)?;
    }
    Ok(fields)
}

fn fields_in(alloc: Global, member: Option<&Value>) -> Result<Vec<FileField>, MachineFault>
    ensures ok { Gives result (λ fs. map file_field fs.items) (fields_in (data_of member.entry)) }
    ensures err { FailsBy result (fields_in (data_of member.entry)) }
{
    let Some(value) = member else {
        return Ok(Vec::new(alloc));
    };
    match items_of(value) {
        Some(values) => fields_read(alloc, values),
        None => Err(MachineFault::Wrong(Part::Fields, Why::Shape)),
    }
}

/// The fields of a file. Of a file that is refused for them there are none. The only error is want of memory.
pub fn fields_of(alloc: Global, file: &Value) -> Result<Vec<FileField>, AllocError>
    ensures { IfOk result (λ fs. map file_field fs.items ≡ fields_said (view file.now)) }
{
    match fields_in(alloc, file.get("fields")) {
        Ok(fields) => Ok(fields),
        Err(MachineFault::OutOfMemory) => Err(AllocError),
        Err(_) => Ok(Vec::new(alloc)),
    }
}

fn constant_named(alloc: Global, text: &str, value: &Value) -> Result<FileConstant, MachineFault>
    ensures ok { Gives result file_constant (constant_named text.now (view value.now)) }
    ensures err { FailsBy result (constant_named text.now (view value.now)) }
{
    if !is_name(true, text.as_bytes()) {
        return Err(MachineFault::Wrong(Part::Constants, Why::Name));
    }
    let Some(number) = value.as_i64() else {
        return Err(MachineFault::Wrong(Part::Constants, Why::Shape));
    };
    let name = String::from_str(alloc, text)?;
    Ok(FileConstant { name, number })
}

fn constants_of(
    alloc: Global,
    members: &Map<String, Value>,
) -> Result<Vec<FileConstant>, MachineFault>
    ensures ok { Gives result (λ cs. map file_constant cs.items)
        (constants_behind [] (members_view members.now.entries)) }
    ensures err { FailsBy result (constants_behind [] (members_view members.now.entries)) }
{
    let mut constants = Vec::new(alloc);
    for (name, value) in members.iter() {
        constants.push(constant_named(alloc, name.as_str(), value)?)?;
    }
    Ok(constants)
}

fn constants_in(alloc: Global, member: Option<&Value>) -> Result<Vec<FileConstant>, MachineFault>
    ensures ok { Gives result (λ cs. map file_constant cs.items) (constants_in (data_of member.entry)) }
    ensures err { FailsBy result (constants_in (data_of member.entry)) }
{
    let Some(value) = member else {
        return Ok(Vec::new(alloc));
    };
    match value.as_object() {
        Some(members) => constants_of(alloc, members),
        None => Err(MachineFault::Wrong(Part::Constants, Why::Shape)),
    }
}

/// What the members `fields` and `constants` of a file say.
///
/// The first fault is answered ([`MachineFault`], refusal 21): `fields` is no array of arrays of a name and a count of bits;
/// of each, in order, its name may be none or has come before, or it has not 1 to 62 bits, or more than 63 with those before
/// it; then `constants` is no object, or of each, in the order of the value's names, its name may be none, or it is no whole
/// number of 64 bits with a sign. Want of memory (4) may come at any point instead. After any of them nothing is left.
pub fn shared_in(alloc: Global, file: &Value) -> Result<SharedNames, MachineFault>
    ensures ok { Gives result shared (shared_in (view file.now)) }
    ensures err { FailsBy result (shared_in (view file.now)) }
{
    let fields = fields_in(alloc, file.get("fields"))?;
    let constants = constants_in(alloc, file.get("constants"))?;
    Ok(SharedNames { fields, constants })
}
