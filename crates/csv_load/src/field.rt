//! The values of fields, and what stands for those that can't be read.
ghost use Rattle.std.specs.Prelude.{◌≡◌, IfOk, option_and_then, option_copied};
ghost use Rattle.value_types.specs.declared.value.ColumnType.TheVariants as kind_of;
ghost use Rattle.dataset_types.specs.declared.picks.Site.TheVariants as site_of;
ghost use Rattle.dataset_types.specs.Picks.{choice_of};
ghost use Rattle.csv_load.specs.Guess.{read};
ghost use Rattle.csv_load.specs.Fields as spec;
ghost use Rattle.csv_load.specs.Rows.{drops};

use crate::strip::stripped;
use dataset_types::{Choice, Marked, Picks, Repair, Site, fitted};
use std::alloc::Global;
use std::str;
use value_types::{ColumnType, NoMemory, Value, Words, read_bool, read_fixed, read_int};

/// How the sites of a load are settled: the default, and the picks of a cell.
#[derive(Clone, Copy)]
pub(crate) struct Repairs<'a> {
    pub(crate) repair: Repair,
    pub(crate) picks: &'a Picks,
    pub(crate) cell: u32,
}

fn text_value(alloc: Global, text: &str) -> Result<Value, NoMemory>
    ensures { IfOk result (λ v. v ≡ Value.Text text.now) }
{
    let mut words = Words::new(alloc)?;
    words.push_text(alloc, text)?;
    Ok(Value::Text(words))
}

/// A field that is UTF-8, as a Text.
fn text_of(alloc: Global, field: &[u8]) -> Result<Option<Value>, NoMemory>
    ensures { IfOk result (λ found. found ≡ read kind_of.Text field.now) }
{
    match str::from_utf8(field) {
        Ok(text) => Ok(Some(text_value(alloc, text)?)),
        Err(_) => Ok(None),
    }
}

fn bool_of(text: &[u8]) -> Option<Value>
    ensures { result ≡ spec.read_stripped kind_of.Bool text.now }
{
    if text.is_empty() {
        return Some(Value::Null);
    }
    read_bool(text).map(Value::Bool)
}

fn int_of(text: &[u8]) -> Option<Value>
    ensures { result ≡ spec.read_stripped kind_of.Int text.now }
{
    if text.is_empty() {
        return Some(Value::Null);
    }
    read_int(text).map(Value::Int)
}

fn fixed_of(text: &[u8]) -> Option<Value>
    ensures { result ≡ spec.read_stripped kind_of.Fixed text.now }
{
    if text.is_empty() {
        return Some(Value::Null);
    }
    read_fixed(text).map(Value::Fixed)
}

/// The value of a field, where it is readable.
fn own_value(alloc: Global, kind: ColumnType, field: &[u8]) -> Result<Option<Value>, NoMemory>
    ensures { IfOk result (λ found. found ≡ spec.own_value kind field.now) }
{
    match kind {
        ColumnType::Bool => Ok(bool_of(stripped(field))),
        ColumnType::Int => Ok(int_of(stripped(field))),
        ColumnType::Fixed => Ok(fixed_of(stripped(field))),
        ColumnType::Text => text_of(alloc, field),
    }
}

/// The same of a field that may be missing.
fn value_in(
    alloc: Global,
    kind: ColumnType,
    field: Option<&[u8]>,
) -> Result<Option<Value>, NoMemory>
    ensures { IfOk result (λ found. found ≡ spec.value_in kind (option_copied field.entry)) }
{
    match field {
        Some(field) => own_value(alloc, kind, field),
        None => Ok(None),
    }
}

fn zero_of(alloc: Global, kind: ColumnType) -> Result<Value, NoMemory>
    ensures { IfOk result (λ v. v ≡ spec.zero_of kind) }
{
    match kind {
        ColumnType::Bool => Ok(Value::Bool(false)),
        ColumnType::Int => Ok(Value::Int(0)),
        ColumnType::Fixed => Ok(Value::Fixed(0)),
        ColumnType::Text => Ok(Value::Text(Words::new(alloc)?)),
    }
}

fn default_of(alloc: Global, repair: Repair, kind: ColumnType) -> Result<Value, NoMemory>
    ensures { IfOk result (λ v. v ≡ spec.default_of repair kind) }
{
    match repair {
        Repair::Null => Ok(Value::Null),
        Repair::Zero => zero_of(alloc, kind),
    }
}

fn chosen(alloc: Global, kind: ColumnType, choice: &Choice) -> Result<Option<Value>, NoMemory>
    ensures { IfOk result (λ found. found ≡ spec.chosen kind choice.now) }
{
    match choice {
        Choice::Value(value) => Ok(fitted(kind, value.copy(alloc)?)),
        Choice::Keep(_) => Ok(None),
    }
}

impl Repairs<'_> {
    ghost use Rattle.csv_load.specs.Calls.{repairs_of};

    /// The pick of a field, where there is one that fits.
    fn picked(
        &self,
        alloc: Global,
        kind: ColumnType,
        site: &Site,
    ) -> Result<Option<Value>, NoMemory>
        ensures { IfOk result (λ found.
            found ≡ option_and_then (spec.chosen kind)
            (choice_of self.now.picks.now self.now.cell site.now)) }
    {
        match self.picks.choice(self.cell, site) {
            Some(choice) => chosen(alloc, kind, choice),
            None => Ok(None),
        }
    }

    /// The value at a site.
    fn site_value(&self, alloc: Global, kind: ColumnType, site: &Site) -> Result<Value, NoMemory>
        ensures { IfOk result (λ v. v ≡ spec.site_value (repairs_of self.now) kind site.now) }
    {
        match self.picked(alloc, kind, site)? {
            Some(value) => Ok(value),
            None => default_of(alloc, self.repair, kind),
        }
    }

    /// The value of a field, marked at a site.
    pub(crate) fn marked_value(
        &self,
        alloc: Global,
        kind: ColumnType,
        site: Site,
        field: Option<&[u8]>,
    ) -> Result<Marked, NoMemory>
        ensures { IfOk result (λ m.
            m ≡ spec.marked_value (repairs_of self.now) kind site (option_copied field.entry)) }
    {
        match value_in(alloc, kind, field)? {
            Some(value) => Ok(Marked {
                value,
                marked: false,
            }),
            None => Ok(Marked {
                value: self.site_value(alloc, kind, &site)?,
                marked: true,
            }),
        }
    }

    /// Whether the pick says that a surplus record isn't kept.
    pub(crate) fn drops(&self, number: u32) -> bool
        ensures { result
            ≡ drops (choice_of self.now.picks.now self.now.cell (site_of.Record number)) }
    {
        match self.picks.choice(self.cell, &Site::Record { number }) {
            Some(Choice::Keep(keep)) => !*keep,
            _ => false,
        }
    }
}
