//! The lists of spreadsheet commands in JSON: names of columns that are kept, and columns to sort by.
ghost use Rattle.std.specs.Prelude.{◌≡◌, IfOk};
ghost use Rattle.serde_json.specs.View.{view, items_view};
ghost use Rattle.json_fields.specs.Lists as spec;

use crate::from_json::{FromJson, all_of};
use serde_json::Value as Json;
use sheet_commands::{DistinctNames, SortName, SortNames};
use std::alloc::Global;
use value_types::{ListOf, Name, Names, NoMemory};

// Names of which none comes twice.
fn distinct(names: Names) -> Option<DistinctNames>
    ensures { result ≡ spec.distinct_names names }
{
    DistinctNames::of(names)
}

// 1 to 32 of them.
fn kept(names: Names) -> Option<DistinctNames>
    ensures { result ≡ spec.are_kept names }
{
    if 1 <= names.len() && names.len() <= 32 {
        distinct(names)
    } else {
        None
    }
}

impl FromJson for DistinctNames {
    ghost meaning = { spec.kept_in };

    fn from_json(alloc: Global, json: &Json) -> Result<Option<DistinctNames>, NoMemory> {
        let Some(list) = json.as_array() else {
            return Ok(None);
        };
        match all_of(alloc, list)? {
            Some(names) => Ok(kept(ListOf::from_vec(alloc, names)?)),
            None => Ok(None),
        }
    }
}

fn order_named(word: &str) -> Option<bool>
    ensures { result ≡ spec.order_named word.now }
{
    match word {
        "asc" => Some(false),
        "desc" => Some(true),
        _ => None,
    }
}

fn order_in(json: &Json) -> Option<bool>
    ensures { result ≡ spec.order_in (view json.now) }
{
    match json.as_str() {
        Some(word) => order_named(word),
        None => None,
    }
}

fn sort_name_from(alloc: Global, list: &[Json]) -> Result<Option<SortName>, NoMemory>
    ensures { IfOk result (λ found. found ≡ spec.sort_name_from (items_view list.now)) }
{
    let Some((first, rest)) = list.split_first() else {
        return Ok(None);
    };
    let Some((second, rest)) = rest.split_first() else {
        return Ok(None);
    };
    if rest.len() > 0 {
        return Ok(None);
    }
    let Some(name) = Name::from_json(alloc, first)? else {
        return Ok(None);
    };
    match order_in(second) {
        Some(descending) => Ok(Some(SortName { name, descending })),
        None => Ok(None),
    }
}

impl FromJson for SortName {
    ghost meaning = { spec.sort_name_in };

    fn from_json(alloc: Global, json: &Json) -> Result<Option<SortName>, NoMemory> {
        match json.as_array() {
            Some(list) => sort_name_from(alloc, list),
            None => Ok(None),
        }
    }
}

// 1 to 32 of them.
fn sorted_by(by: SortNames) -> Option<SortNames>
    ensures { result ≡ spec.are_sorted_by by }
{
    if 1 <= by.len() && by.len() <= 32 {
        Some(by)
    } else {
        None
    }
}

impl FromJson for SortNames {
    ghost meaning = { spec.by_in };

    fn from_json(alloc: Global, json: &Json) -> Result<Option<SortNames>, NoMemory> {
        let Some(list) = json.as_array() else {
            return Ok(None);
        };
        match all_of(alloc, list)? {
            Some(by) => Ok(sorted_by(ListOf::from_vec(alloc, by)?)),
            None => Ok(None),
        }
    }
}
