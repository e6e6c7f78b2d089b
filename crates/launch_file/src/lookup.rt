//! Looking into JSON values.

ghost use Rattle.std.specs.Prelude.{◌≡◌, IfOk, option_map};
ghost use Rattle.serde_json.specs.Find.{get};
ghost use Rattle.serde_json.specs.View.{view, items_view};
ghost use Rattle.launch_file.specs.Json.{object_at, pair_at, pair_in, whole_at, word_in, words_in};

use lift_tree::program::Identifier;
use serde_json::Value;
use std::alloc::{AllocError, Global};
use std::str;

/// The value at a name. A name that isn't UTF-8 is no object's key.
#[tactic(auto, using(crate::proofs::Names::no_such_key))]
pub fn named<'v>(value: &'v Value, name: &Identifier) -> Option<&'v Value>
    ensures { option_map (λ v. view v.now) result ≡ get name.now (view value.now) }
{
    let Value::Object(_) = value else {
        return None;
    };
    match str::from_utf8(name.bytes()) {
        Ok(name) => value.get(name),
        Err(_) => None,
    }
}

/// The whole number at a key.
pub fn whole_at(value: &Value, key: &str) -> Option<u64>
    ensures { result ≡ whole_at key.now (view value.now) }
{
    value.get(key).and_then(Value::as_u64)
}

#[tactic(auto, using(crate::proofs::ReadValues::read_pairs))]
// The two whole numbers that a value is: a number with 1, or a list of two.
fn pair(value: &Value) -> Option<(u64, u64)>
    ensures { result ≡ pair_in (view value.now) }
{
    let Some(values) = value.as_array() else {
        return Some((value.as_u64()?, 1));
    };
    let [first, second] = values.as_slice() else {
        return None;
    };
    Some((first.as_u64()?, second.as_u64()?))
}

/// The two whole numbers at a key.
pub fn pair_at(value: &Value, key: &str) -> Option<(u64, u64)>
    ensures { result ≡ pair_at key.now (view value.now) }
{
    value.get(key).and_then(pair)
}

/// The object at a key.
pub fn object_at<'v>(value: &'v Value, key: &str) -> Option<&'v Value>
    ensures { option_map (λ v. view v.now) result ≡ object_at key.now (view value.now) }
{
    let found = value.get(key)?;
    if found.is_object() { Some(found) } else { None }
}

/// The whole number below 2^32 that a value is.
pub fn word(value: &Value) -> Option<u32>
    ensures { result ≡ word_in (view value.now) }
{
    u32::try_from(value.as_u64()?).ok()
}

/// The numbers of a list, where all are whole and below 2^32.
pub fn words(alloc: Global, values: &[Value]) -> Result<Option<Vec<u32>>, AllocError>
    ensures { IfOk result (λ o. option_map (λ v. v.items) o ≡ words_in (items_view values.now)) }
{
    let mut numbers = Vec::with_capacity(alloc, values.len())?;
    for value in values {
        let Some(number) = word(value) else {
            return Ok(None);
        };
        numbers.push_reserved(number);
    }
    Ok(Some(numbers))
}

/// Frees a value. Numbers, of which lists have most, own nothing, so none of them is a call.
pub fn discard(value: Value) {
    match value {
        Value::Array(members) => {
            for member in members {
                match member {
                    Value::Number(_) => {}
                    member => discard(member),
                }
            }
        }
        Value::Object(members) => {
            for (_, member) in members {
                discard(member);
            }
        }
        Value::Null | Value::Bool(_) | Value::Number(_) | Value::String(_) => {}
    }
}
