//! The picks of a file.
ghost use Rattle.std.specs.Prelude.{◌≡◌, IfOk};
ghost use Rattle.serde_json.specs.Find.{as_bool};
ghost use Rattle.serde_json.specs.View.{view};
ghost use Rattle.json_fields.specs.Json as fields;
ghost use Rattle.edit_wire.specs.PicksFile as spec;
ghost use Rattle.edit_wire.specs.declared.picks.PicksFault.TheVariants.{NoMemory as Starves};

use dataset_types::{Choice, Pick, Picks, Site};
use json_fields::{has_members, position_field, value_field};
use json_glance::json_of;
use line_reader::{is_blank, split_line};
use serde_json::Value as Json;
use std::alloc::Global;
use thiserror::Error;
use value_types::NoMemory;

/// The bytes of a line without its line feed, at most.
const LINE_LIMIT: usize = 65_536;

/// Why a file gives no picks.
#[derive(Clone, Copy, Debug, PartialEq, Eq, Error)]
pub enum PicksFault {
    /// The first line that is neither blank nor a pick.
    #[error("line {0} is no pick")]
    BadLine(u32),
    #[error("out of memory")]
    NoMemory,
}

impl From<NoMemory> for PicksFault {
    ghost from_gives = { λ _ e. e ≡ Starves };

    fn from(_: NoMemory) -> PicksFault {
        PicksFault::NoMemory
    }
}

/// The whole number from 1 on that a field is.
fn count_field(json: &Json, name: &str) -> Option<u32>
    ensures { result ≡ fields.field spec.count_in name.now (view json.now) }
{
    match position_field(json, name) {
        Some(number) if 1 <= number => Some(number),
        _ => None,
    }
}

fn field_site(json: &Json) -> Option<Site>
    ensures { result ≡ spec.field_site (view json.now) }
{
    let Some(number) = count_field(json, "record") else {
        return None;
    };
    match count_field(json, "column") {
        Some(column) => Some(Site::Field { number, column }),
        None => None,
    }
}

fn record_site(json: &Json) -> Option<Site>
    ensures { result ≡ spec.record_site (view json.now) }
{
    match count_field(json, "record") {
        Some(number) => Some(Site::Record { number }),
        None => None,
    }
}

fn call_site(json: &Json) -> Option<Site>
    ensures { result ≡ spec.call_site (view json.now) }
{
    match count_field(json, "call") {
        Some(call) => Some(Site::Call { call }),
        None => None,
    }
}

fn value_choice(alloc: Global, json: &Json) -> Result<Option<Choice>, NoMemory>
    ensures { IfOk result (λ found. found ≡ spec.value_choice (view json.now)) }
{
    match value_field(alloc, json, "value")? {
        Some(value) => Ok(Some(Choice::Value(value))),
        None => Ok(None),
    }
}

fn keep_choice(json: &Json) -> Option<Choice>
    ensures { result ≡ spec.keep_choice (view json.now) }
{
    match json.get("keep") {
        Some(value) => value.as_bool().map(Choice::Keep),
        None => None,
    }
}

/// The pick at a site of the field `cell`, of an object with so many fields.
fn pick_at(json: &Json, count: usize, at: Option<Site>, chosen: Option<Choice>) -> Option<Pick>
    ensures { result ≡ spec.pick_at count at chosen (view json.now) }
{
    if !has_members(json, count) {
        return None;
    }
    let Some(cell) = count_field(json, "cell") else {
        return None;
    };
    match (at, chosen) {
        (Some(site), Some(choice)) => Some(Pick { cell, site, choice }),
        _ => None,
    }
}

fn field_pick(alloc: Global, json: &Json) -> Result<Option<Pick>, NoMemory>
    ensures { IfOk result (λ found. found ≡ spec.field_pick (view json.now)) }
{
    let choice = value_choice(alloc, json)?;
    Ok(pick_at(json, 4, field_site(json), choice))
}

fn record_pick(json: &Json) -> Option<Pick>
    ensures { result ≡ spec.record_pick (view json.now) }
{
    pick_at(json, 3, record_site(json), keep_choice(json))
}

fn call_pick(alloc: Global, json: &Json) -> Result<Option<Pick>, NoMemory>
    ensures { IfOk result (λ found. found ≡ spec.call_pick (view json.now)) }
{
    let choice = value_choice(alloc, json)?;
    Ok(pick_at(json, 3, call_site(json), choice))
}

/// The pick that a value is.
fn pick_in(alloc: Global, json: &Json) -> Result<Option<Pick>, NoMemory>
    ensures { IfOk result (λ found. found ≡ spec.pick_in (view json.now)) }
{
    if let Some(pick) = field_pick(alloc, json)? {
        return Ok(Some(pick));
    }
    match record_pick(json) {
        Some(pick) => Ok(Some(pick)),
        None => call_pick(alloc, json),
    }
}

/// The pick that a line is.
#[tactic(auto, unfolding(crate::specs::PicksFile::pick_on))]
fn pick_on(alloc: Global, line: &[u8]) -> Result<Option<Pick>, NoMemory>
    ensures { IfOk result (λ found. found ≡ spec.pick_on line.now) }
{
    if line.len() > LINE_LIMIT {
        return Ok(None);
    }
    match json_of(alloc, line)? {
        Some(json) => pick_in(alloc, &json),
        None => Ok(None),
    }
}

/// What a line says: nothing where it is blank, else a pick; none where it is neither.
fn line_pick(alloc: Global, line: &[u8]) -> Result<Option<Option<Pick>>, NoMemory>
    ensures { IfOk result (λ found. found ≡ spec.line_pick line.now) }
{
    if is_blank(line) {
        return Ok(Some(None));
    }
    match pick_on(alloc, line)? {
        Some(pick) => Ok(Some(Some(pick))),
        None => Ok(None),
    }
}

/// The number of a line as far as it can be said.
fn said_number(number: usize) -> u32
    ensures { result ≡ spec.said_number number }
{
    number.min(4_294_967_295) as u32
}

/// The picks of a file.
///
/// - Shape: the file's bytes; lines count from 1.
/// - Error: `BadLine` exactly at the first line that is neither blank nor a pick.
/// - Source: docs/FORMATS.md, "Picks".
#[tactic(auto, using(crate::proofs::PicksLemmas::before_none, crate::proofs::PicksLemmas::after_pick, crate::proofs::PicksLemmas::after_blank, crate::proofs::PicksLemmas::at_bad, crate::proofs::PicksLemmas::at_end))]
pub fn picks_of(alloc: Global, bytes: &[u8]) -> Result<Picks, PicksFault>
    ensures { spec.GivesPicks result (spec.picks_of bytes.now) }
{
    let mut picks = Picks::new(alloc)?;
    let mut number: usize = 0;
    let mut rest = bytes;
    while let Some((line, more)) = split_line(rest) {
        number += 1;
        match line_pick(alloc, line)? {
            Some(Some(pick)) => picks.push(alloc, pick.cell, pick.site, pick.choice)?,
            Some(None) => {}
            None => return Err(PicksFault::BadLine(said_number(number))),
        }
        rest = more;
    }
    Ok(picks)
}
