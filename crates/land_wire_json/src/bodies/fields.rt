//! Reads request bodies as JSON, and the fields of JSON objects.
ghost use Rattle.std.specs.Prelude.{◌≡◌, ◌&&◌, codes, map, string_bytes, bytes_eq, length, nat_le};
ghost use Rattle.std.specs.List.{list_all, list_any};
ghost use Rattle.std.specs.BTreeMap.{keys};
ghost use Rattle.land_core.specs.Numbers.{is_number};
ghost use Rattle.land_core.specs.Texts.{are_words, is_label, is_name, is_reference, is_title};
ghost use Rattle.land_wire_json.specs.Bodies.Fields.{field_at, has_only, is_listed_name, item_count};
ghost use Rattle.land_wire_json.specs.Bodies.Fields.{items_at};
ghost use Rattle.land_wire_json.specs.Bodies.Fields.{require_text, require_text_at, number_at, number_in};
ghost use Rattle.land_wire_json.specs.Bodies.Fields.{object_with};
ghost use Rattle.land_wire_json.specs.Bodies.Fields.{text_at, text_value, bool_at, value_in};
ghost use Rattle.land_wire_json.specs.Bodies.WireFaults.{Returns, map_ok};
ghost use Rattle.serde_json.specs.Find.{get};
ghost use Rattle.serde_json.specs.View.{view, members_view, items_view};

use crate::bodies::wire_fault::WireFault;
use land_core::limits::{is_label, is_name, is_number};
use land_core::text::Text;
use serde_json::{Map, Value};
use std::alloc::Global;

/// Parses bytes as JSON. Errors: 130 if they are not JSON; 501 if out of memory.
pub fn read_value(alloc: Global, bytes: &[u8]) -> Result<Value, WireFault>
    ensures { Returns (λ value. view value) result (value_in bytes.now) }
{
    match Value::from_slice(alloc, bytes) {
        Ok(value) => Ok(value),
        Err(error) => {
            if error.is_memory() {
                Err(WireFault::NoMemory)
            } else {
                Err(WireFault::Json)
            }
        }
    }
}

/// Parses a text as JSON. Errors: 130 if it is not JSON; 501 if out of memory.
pub fn read_text(alloc: Global, text: &str) -> Result<Value, WireFault>
    ensures { Returns (λ value. view value) result (text_value text.now) }
{
    match Value::from_str(alloc, text) {
        Ok(value) => Ok(value),
        Err(error) => {
            if error.is_memory() {
                Err(WireFault::NoMemory)
            } else {
                Err(WireFault::Json)
            }
        }
    }
}

/// Checks that the value is an object that has only these keys. Errors: 131 if it is not.
#[tactic(auto, unfolding(crate::specs::Bodies::Fields::object_with))]
pub fn check_keys(value: &Value, names: &[&str]) -> Result<(), WireFault>
    ensures { result ≡ object_with (map (λ name. name.now) names.now) (view value.now) }
{
    match value.as_object() {
        Some(members) if has_only(members, names) => Ok(()),
        _ => Err(WireFault::Field),
    }
}

fn has_only(members: &Map<String, Value>, names: &[&str]) -> bool
    ensures { result ≡ has_only (map (λ name. name.now) names.now) (members_view members.now.entries) }
{
    has_keys_among(members, names)
}

fn has_keys_among(members: &Map<String, Value>, names: &[&str]) -> bool
    ensures { result ≡ list_all (λ key. is_listed_name (map (λ name. name.now) names.now) (string_bytes key))
        (keys members.now) }
{
    members.keys().all(|key| is_among(key.as_str(), names))
}

fn is_among(key: &str, names: &[&str]) -> bool
    ensures { result ≡ is_listed_name (map (λ name. name.now) names.now) key.now }
{
    is_one_of(key, names)
}

fn is_one_of(key: &str, names: &[&str]) -> bool
    ensures { result ≡ list_any (λ name. bytes_eq name.now key.now) names.now }
{
    names.iter().any(|name| *name == key)
}

/// Returns the value of a key. Errors: 131 if the key is missing.
#[tactic(auto, unfolding(crate::specs::Bodies::Fields::field_at))]
pub fn field_at<'v>(value: &'v Value, key: &str) -> Result<&'v Value, WireFault>
    ensures { map_ok (λ found. view found.now) result ≡ field_at key.now (view value.now) }
{
    match value.get(key) {
        Some(found) => Ok(found),
        None => Err(WireFault::Field),
    }
}

/// Returns the text of a key. Errors: 131 if it is missing or not a string.
#[tactic(auto, unfolding(crate::specs::Bodies::Fields::text_at))]
pub fn text_at<'v>(value: &'v Value, key: &str) -> Result<&'v str, WireFault>
    ensures { map_ok (λ text. text.now) result ≡ text_at key.now (view value.now) }
{
    match field_at(value, key)?.as_str() {
        Some(text) => Ok(text),
        None => Err(WireFault::Field),
    }
}

/// Returns the boolean of a key. Errors: 131 if it is missing or not a boolean.
#[tactic(auto, unfolding(crate::specs::Bodies::Fields::bool_at))]
pub fn bool_at(value: &Value, key: &str) -> Result<bool, WireFault>
    ensures { result ≡ bool_at key.now (view value.now) }
{
    match field_at(value, key)?.as_bool() {
        Some(truth) => Ok(truth),
        None => Err(WireFault::Field),
    }
}

/// Reads a name: 1 to 200 characters without ASCII control characters.
///
/// Errors: 131 if it is missing or not a string; 133 if it is not within these limits; 501 if out of memory.
pub fn name_at(alloc: Global, value: &Value, key: &str) -> Result<Text, WireFault>
    ensures { Returns (λ text. text) result (require_text_at is_name key.now (view value.now)) }
{
    name_of(alloc, text_at(value, key)?)
}

/// Copies a text of 1 to 200 characters. Errors: 133 for any other text; 501 if out of memory.
pub fn name_of(alloc: Global, text: &str) -> Result<Text, WireFault>
    ensures { Returns (λ text. text) result (require_text is_name text.now) }
{
    if is_name(text) {
        Ok(Text::new(String::from_str(alloc, text)?))
    } else {
        Err(WireFault::Text)
    }
}

/// Reads the title of a document, with the limits and errors of a name.
pub fn title_at(alloc: Global, value: &Value, key: &str) -> Result<Text, WireFault>
    ensures { Returns (λ text. text) result (require_text_at is_title key.now (view value.now)) }
{
    name_at(alloc, value, key)
}

/// Reads the words of a burden, with the limits and errors of a name.
pub fn words_at(alloc: Global, value: &Value, key: &str) -> Result<Text, WireFault>
    ensures { Returns (λ text. text) result (require_text_at are_words key.now (view value.now)) }
{
    name_at(alloc, value, key)
}

/// Reads a label: 1 to 40 characters without ASCII control characters. Errors: as for a name.
pub fn label_at(alloc: Global, value: &Value, key: &str) -> Result<Text, WireFault>
    ensures { Returns (λ text. text) result (require_text_at is_label key.now (view value.now)) }
{
    label_of(alloc, text_at(value, key)?)
}

/// Reads the reference of a lodging, with the limits and errors of a label.
pub fn reference_at(alloc: Global, value: &Value, key: &str) -> Result<Text, WireFault>
    ensures { Returns (λ text. text) result (require_text_at is_reference key.now (view value.now)) }
{
    label_at(alloc, value, key)
}

/// Copies a text of 1 to 40 characters. Errors: 133 for any other text; 501 if out of memory.
pub fn label_of(alloc: Global, text: &str) -> Result<Text, WireFault>
    ensures { Returns (λ text. text) result (require_text is_label text.now) }
{
    if is_label(text) {
        Ok(Text::new(String::from_str(alloc, text)?))
    } else {
        Err(WireFault::Text)
    }
}

/// Reads the number of an object, 1 to 1_000_000_000.
///
/// Errors: 131 if it is missing or not a number; 132 if it has a sign, a point or an exponent, or is out of
/// range.
#[tactic(auto, unfolding(crate::specs::Bodies::Fields::number_at))]
pub fn number_at(value: &Value, key: &str) -> Result<u64, WireFault>
    ensures { result ≡ number_at key.now (view value.now) }
{
    number_in(field_at(value, key)?)
}

/// Likewise for a value without a key.
#[tactic(auto, unfolding(crate::specs::Bodies::Fields::number_in))]
pub fn number_in(value: &Value) -> Result<u64, WireFault>
    ensures { result ≡ number_in (view value.now) }
{
    match value.as_number() {
        Some(number) => match number.as_u64() {
            Some(n) if is_number(n) => Ok(n),
            _ => Err(WireFault::Number),
        },
        None => Err(WireFault::Field),
    }
}

/// Returns an array of `least` to `most` items of any kind. Errors: 131 if it is missing, not an array, or
/// has another length.
#[tactic(auto, unfolding(crate::specs::Bodies::Fields::items_at))]
pub fn items_at<'v>(
    value: &'v Value,
    key: &str,
    least: usize,
    most: usize,
) -> Result<&'v Vec<Value>, WireFault>
    ensures { map_ok (λ found. items_view found.now.items) result
        ≡ items_at least most key.now (view value.now) }
{
    match field_at(value, key)?.as_array() {
        Some(items) if least <= items.len() && items.len() <= most => Ok(items),
        _ => Err(WireFault::Field),
    }
}
