//! Layouts: the columns of a result, and where the values of each come from.
ghost use Rattle.std.specs.Prelude.{◌≡◌, ◌↔◌, IfOk, IsTrue, map};
ghost use Rattle.column_edits.specs.Layout as spec;
ghost use Rattle.column_edits.specs.Layout.{laid};
ghost use Rattle.column_edits.specs.Changes as change;

use dataset_types::{Column, Columns, Marked, MarkedValues, Row, Rows};
use std::alloc::Global;
use value_types::{ListOf, NoMemory, Value};

/// A column of a result.
#[derive(Drop)]
pub(crate) struct LaidColumn {
    pub column: Column,
    /// The place, counted from 0, of the column whose values it has. None where each row gives it a new value.
    pub source: Option<usize>,
}

/// The columns of a result, in order.
pub(crate) type Layout = ListOf<LaidColumn>;

impl LaidColumn {
    /// An equal column.
    pub(crate) fn copy(&self, alloc: Global) -> Result<LaidColumn, NoMemory>
        ensures { IfOk result (λ c. c ≡ self.now) }
    {
        Ok(LaidColumn {
            column: self.column.copy(alloc)?,
            source: self.source,
        })
    }
}

impl PartialEq for LaidColumn {
    ghost use Rattle.std.specs.Cmp.{partial_equiv_from_equiv};
    ghost use Rattle.column_edits.specs.Same.{same_laid, laid_equiv};

    ghost eq = { same_laid };

    ghost laws = { partial_equiv_from_equiv laid_equiv };

    fn eq(&self, other: &LaidColumn) -> bool {
        self.column == other.column && self.source == other.source
    }
}

impl Eq for LaidColumn {
    ghost use Rattle.column_edits.specs.Same.{laid_equiv};

    ghost laws = { laid_equiv };
}

/// The columns as they stand, each with its own values.
pub(crate) fn as_they_stand(alloc: Global, columns: &[Column]) -> Result<Layout, NoMemory>
    ensures { IfOk result (λ l. l ≡ spec.as_they_stand columns.now) }
{
    let mut all = Layout::new(alloc)?;
    for (place, column) in columns.iter().enumerate() {
        let column = column.copy(alloc)?;
        all.push(
            alloc,
            LaidColumn {
                column,
                source: Some(place),
            },
        )?;
    }
    Ok(all)
}

#[tactic(auto, using(crate::specs::Same::layout_decides))]
fn same_layout(a: &Layout, b: &Layout) -> bool
    ensures { IsTrue result ↔ (a.now ≡ b.now) }
{
    a == b
}

/// Whether a layout leaves the columns as they stand.
pub(crate) fn is_standing(
    alloc: Global,
    layout: &Layout,
    columns: &[Column],
) -> Result<bool, NoMemory>
    ensures { IfOk result (λ b. IsTrue b ↔ (layout.now ≡ spec.as_they_stand columns.now)) }
{
    let standing = as_they_stand(alloc, columns)?;
    Ok(same_layout(layout, &standing))
}

/// The columns of a layout.
pub(crate) fn columns_of(alloc: Global, layout: &[LaidColumn]) -> Result<Columns, NoMemory>
    ensures { IfOk result (λ c. c ≡ spec.columns_of layout.now) }
{
    let mut all = Columns::new(alloc)?;
    for laid in layout {
        let column = laid.column.copy(alloc)?;
        all.push(alloc, column)?;
    }
    Ok(all)
}

// The value at a source, or the new value where a column has none.
fn value_from<'a>(new: &'a Marked, values: &'a [Marked], source: Option<usize>) -> &'a Marked
    ensures { result.now ≡ spec.value_from new.now values.now source }
{
    match source {
        Some(place) if place < values.len() => &values[place],
        _ => new,
    }
}

/// The values of a row under a layout, with this value in the columns without a source.
pub(crate) fn laid_values(
    alloc: Global,
    layout: &[LaidColumn],
    new: &Marked,
    values: &[Marked],
) -> Result<MarkedValues, NoMemory>
    ensures { IfOk result (λ v. v ≡ laid new.now layout.now values.now) }
{
    let mut all = MarkedValues::new(alloc)?;
    for laid in layout {
        let value = value_from(new, values, laid.source).copy(alloc)?;
        all.push(alloc, value)?;
    }
    Ok(all)
}

/// A row under a layout, with this value in the columns without a source.
pub(crate) fn laid_row(
    alloc: Global,
    layout: &[LaidColumn],
    new: &Marked,
    row: &Row,
) -> Result<Row, NoMemory>
    ensures { IfOk result (λ r. r ≡ change.laid_row layout.now new.now row.now) }
{
    Ok(Row {
        id: row.id.copy(alloc)?,
        sure: row.sure,
        values: laid_values(alloc, layout, new, row.values.as_slice())?,
    })
}

fn blank() -> Marked
    ensures { result ≡ change.blank }
{
    Marked {
        value: Value::Null,
        marked: false,
    }
}

/// Rows under a layout, with NULL in the columns without a source.
pub(crate) fn laid_rows(
    alloc: Global,
    layout: &[LaidColumn],
    rows: &[Row],
) -> Result<Rows, NoMemory>
    ensures { IfOk result (λ r. r ≡ map (change.laid_row layout.now change.blank) rows.now) }
{
    let blank = blank();
    let mut all = Rows::new(alloc)?;
    for row in rows {
        let laid = laid_row(alloc, layout, &blank, row)?;
        all.push(alloc, laid)?;
    }
    Ok(all)
}
