//! Rows by the texts of their ids.
ghost use Rattle.std.specs.Prelude.{◌≡◌, ◌≤◌, IfOk, length};
ghost use Rattle.row_edits.specs.ByText as spec;
ghost use Rattle.row_edits.specs.ByText.{only, without};
ghost use Rattle.row_edits.specs.Insert as insert;
ghost use Rattle.row_edits.specs.Ids.{row_id};

use dataset_types::{Row, Rows};
use std::alloc::Global;
use value_types::{NoMemory, RowId, Words, id_weight, push_id};

/// Whether an id has this text.
#[tactic(auto, using(crate::proofs::Lengths::other_length))]
pub(crate) fn is_text(alloc: Global, text: &Words, id: &RowId) -> Result<bool, NoMemory>
    ensures { IfOk result (λ b. b ≡ spec.is_text text.now id.now) }
{
    // An id whose text has another length is told without writing that text.
    if id_weight(id) != text.len() as u64 {
        return Ok(false);
    }
    let mut own = Words::new(alloc)?;
    push_id(alloc, &mut own, id)?;
    Ok(own.as_text() == text.as_text())
}

fn count_of(alloc: Global, text: &Words, rows: &[Row]) -> Result<usize, NoMemory>
    ensures { IfOk result (λ n. n ≡ length (only row_id text.now rows.now)) }
{
    let mut count = 0;
    for row in rows {
        if is_text(alloc, text, &row.id)? {
            count += 1;
        }
    }
    Ok(count)
}

/// Whether the row of a text is there.
pub(crate) fn is_there(alloc: Global, text: &Words, rows: &[Row]) -> Result<bool, NoMemory>
    ensures { IfOk result (λ b. b ≡ spec.is_there row_id text.now rows.now) }
{
    Ok(count_of(alloc, text, rows)? == 1)
}

/// Whether the row that is named is there, if one is named.
pub(crate) fn is_place(alloc: Global, place: &Option<Words>, rows: &[Row]) -> Result<bool, NoMemory>
    ensures { IfOk result (λ b. b ≡ spec.is_place row_id place.now rows.now) }
{
    match place {
        None => Ok(true),
        Some(text) => is_there(alloc, text, rows),
    }
}

fn any_unsure(alloc: Global, text: &Words, rows: &[Row]) -> Result<bool, NoMemory>
    ensures { IfOk result (λ b. b ≡ insert.any_unsure (only row_id text.now rows.now)) }
{
    for row in rows {
        if !row.sure && is_text(alloc, text, &row.id)? {
            return Ok(true);
        }
    }
    Ok(false)
}

/// Whether the row that is named is unsure.
pub(crate) fn is_unsure(
    alloc: Global,
    place: &Option<Words>,
    rows: &[Row],
) -> Result<bool, NoMemory>
    ensures { IfOk result (λ b. b ≡ insert.is_unsure place.now rows.now) }
{
    match place {
        None => Ok(false),
        Some(text) => any_unsure(alloc, text, rows),
    }
}

/// How many rows there are up to the first of a text, or in all where there is none.
pub(crate) fn up_to(alloc: Global, text: &Words, rows: &[Row]) -> Result<usize, NoMemory>
    ensures value { IfOk result (λ n. n ≡ spec.up_to row_id text.now rows.now) }
    ensures within { IfOk result (λ n. n ≤ length rows.now) }
{
    for i in 0..rows.len() {
        if is_text(alloc, text, &rows[i].id)? {
            return Ok(i + 1);
        }
    }
    Ok(rows.len())
}

/// How many rows come before a place.
pub(crate) fn place_of(
    alloc: Global,
    place: &Option<Words>,
    rows: &[Row],
) -> Result<usize, NoMemory>
    ensures value { IfOk result (λ n. n ≡ spec.place_of row_id place.now rows.now) }
    ensures within { IfOk result (λ n. n ≤ length rows.now) }
{
    match place {
        None => Ok(0),
        Some(text) => up_to(alloc, text, rows),
    }
}

/// More rows put after the row that is named, or first where none is.
pub(crate) fn put_after(
    alloc: Global,
    place: &Option<Words>,
    more: Rows,
    rows: Rows,
) -> Result<Rows, NoMemory>
    ensures { IfOk result (λ all. all ≡ spec.after row_id place.now more rows) }
{
    let at = place_of(alloc, place, rows.as_slice())?;
    let mut rows = rows.into_vec();
    let rest = rows.split_off(at)?;
    let mut all = Rows::from_vec(alloc, rows)?;
    all.append(alloc, more)?;
    all.append(alloc, Rows::from_vec(alloc, rest)?)?;
    Ok(all)
}

/// A row that was taken out, and the others.
#[derive(Drop)]
pub(crate) struct TakenOut {
    pub taken: Rows,
    pub others: Rows,
}

/// The row of a text, taken out.
pub(crate) fn take_out(alloc: Global, text: &Words, rows: Rows) -> Result<TakenOut, NoMemory>
    ensures taken { IfOk result (λ out. out.taken ≡ only row_id text.now rows) }
    ensures others { IfOk result (λ out. out.others ≡ without row_id text.now rows) }
{
    let mut taken = Rows::new(alloc)?;
    let mut others = Rows::new(alloc)?;
    for row in rows.into_vec() {
        if is_text(alloc, text, &row.id)? {
            taken.push(alloc, row)?;
        } else {
            others.push(alloc, row)?;
        }
    }
    Ok(TakenOut { taken, others })
}
