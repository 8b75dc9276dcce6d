//! Looking into JSON: fields of objects, and lists of things.
ghost use Rattle.std.specs.Prelude.{◌≡◌, ◌≤◌, IfOk, Option, option_map};
ghost use Rattle.serde_json.specs.Data.{Data};
ghost use Rattle.serde_json.specs.Find.{as_str, as_array};
ghost use Rattle.serde_json.specs.View.{view, items_view};
ghost use Rattle.json_fields.specs.Json as spec;

use serde_json::Value as Json;
use std::alloc::Global;
use value_types::NoMemory;

/// A thing that a field may hold.
pub trait FromJson: Drop {
    /// The thing that a JSON value stands for, or none.
    ghost meaning: { Data → Option Self };

    fn from_json(alloc: Global, json: &Json) -> Result<Option<Self>, NoMemory>
    where
        Self: Sized,
        ensures { IfOk result (λ found. found ≡ meaning (view json.now)) };
}

/// Whether it is an object with so many members. Where each of so many fields is read, there is no other.
pub fn has_members(json: &Json, count: usize) -> bool
    ensures { result ≡ spec.has_members count (view json.now) }
{
    match json.as_object() {
        Some(members) => members.len() == count,
        None => false,
    }
}

/// The text that a field holds, or none where the field is missing or holds no text.
pub fn text_field<'v>(json: &'v Json, name: &str) -> Option<&'v str>
    ensures { option_map (λ text. text.now) result ≡ spec.field as_str name.now (view json.now) }
{
    match json.get(name) {
        Some(value) => value.as_str(),
        None => None,
    }
}

/// The list that a field holds, or none where the field is missing or holds no list.
pub fn list_field<'v>(json: &'v Json, name: &str) -> Option<&'v [Json]>
    ensures { option_map (λ list. items_view list.now) result
        ≡ spec.field as_array name.now (view json.now) }
{
    match json.get(name).and_then(Json::as_array) {
        Some(list) => Some(list.as_slice()),
        None => None,
    }
}

/// The thing that a field holds, or none where the field is missing or holds no such thing.
pub fn field<T: FromJson>(alloc: Global, json: &Json, name: &str) -> Result<Option<T>, NoMemory>
    ensures { IfOk result (λ found. found ≡ spec.field T.meaning name.now (view json.now)) }
{
    match json.get(name) {
        Some(value) => T::from_json(alloc, value),
        None => Ok(None),
    }
}

/// One where an object has a field, else zero.
pub fn counted(json: &Json, name: &str) -> usize
    ensures value { result ≡ spec.counted name.now (view json.now) }
    ensures bound { result ≤ 1 }
{
    if json.get(name).is_some() { 1 } else { 0 }
}

/// The thing that a field holds, or what stands where it is missing; none where it holds no such thing.
pub fn field_or<T: FromJson>(
    alloc: Global,
    json: &Json,
    name: &str,
    missing: T,
) -> Result<Option<T>, NoMemory>
    ensures { IfOk result (λ found.
        found ≡ spec.field_or T.meaning missing name.now (view json.now)) }
{
    match json.get(name) {
        Some(value) => T::from_json(alloc, value),
        None => Ok(Some(missing)),
    }
}

/// The items of a list in order, if each of them is such a thing.
pub fn all_of<T: FromJson>(alloc: Global, list: &[Json]) -> Result<Option<Vec<T>>, NoMemory>
    ensures { IfOk result (λ found.
        option_map (λ v. v.items) found ≡ spec.all_of T.meaning (items_view list.now)) }
{
    let mut found = Vec::new(alloc);
    for json in list {
        match T::from_json(alloc, json)? {
            Some(value) => found.push(value)?,
            None => return Ok(None),
        }
    }
    Ok(Some(found))
}
