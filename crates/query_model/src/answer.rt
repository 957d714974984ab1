//! What a query answers, by its definition: slow, and for comparison.
ghost use Rattle.std.specs.Prelude.{◌≡◌, map, IfOk};
ghost use Rattle.std.specs.List.{range_with_len};
ghost use Rattle.query_model.specs.Answer as spec;

use crate::cell::Cell;
use crate::cells::Cells;
use crate::filter::meeting;
use crate::keys::keys_of;
use crate::output::Output;
use crate::plan::Plan;
use crate::sums::sum_of;
use crate::text::Text;
use std::alloc::{AllocError, Global};

/// The rows that a query answers, by its definition. A sum that passes 128 bits is answered as want of memory.
pub fn answer_of(alloc: Global, plan: &Plan, rows: &[Cells]) -> Result<Vec<Cells>, AllocError>
    ensures value { IfOk result (λ answer. answer.items ≡ spec.answer_of plan.now rows.now) }
{
    let met = meeting(alloc, plan.tests.as_slice(), rows)?;
    match &plan.output {
        Output::Select(picks) => select(alloc, picks.as_slice(), &met),
        Output::Group { key, sums } => groups_of(alloc, *key, sums.as_slice(), &met),
    }
}

/// Answers of parts, one after the other, as the answer of the whole, by the definition. A sum that passes 128 bits is answered as
/// want of memory.
pub fn merged(alloc: Global, output: &Output, answers: Vec<Cells>) -> Result<Vec<Cells>, AllocError>
    ensures value { IfOk result (λ merged. merged.items ≡ spec.merged output.now answers.items) }
{
    match output {
        Output::Select(_) => Ok(answers),
        Output::Group { key: _, sums } => {
            let columns = columns_from_one(alloc, sums.as_slice().len())?;
            groups_of(alloc, 0, &columns, &answers)
        }
    }
}

// So many numbers, from 1 on.
fn columns_from_one(alloc: Global, count: usize) -> Result<Vec<u32>, AllocError>
    ensures { IfOk result (λ columns. columns.items ≡ range_with_len 1 count) }
{
    let mut columns = Vec::new(alloc);
    for place in 0..count {
        match u32::try_from(place + 1) {
            Ok(column) => columns.push(column)?,
            Err(_) => return Err(AllocError),
        }
    }
    Ok(columns)
}

// The picked cells of each row.
fn select(alloc: Global, picks: &[u32], rows: &[Cells]) -> Result<Vec<Cells>, AllocError>
    ensures { IfOk result (λ answer. answer.items ≡ map (spec.picked picks.now) rows.now) }
{
    let mut answer = Vec::new(alloc);
    for row in rows {
        answer.push(picked(alloc, picks, row)?)?;
    }
    Ok(answer)
}

// The picked cells of a row.
fn picked(alloc: Global, picks: &[u32], row: &Cells) -> Result<Cells, AllocError>
    ensures { IfOk result (λ cells. cells ≡ spec.picked picks.now row.now) }
{
    let mut cells = Vec::new(alloc);
    for pick in picks {
        cells.push(row.cell_at(alloc, *pick as usize)?)?;
    }
    Ok(Cells::new(cells))
}

/// A row for each key in a column, with the sums of others, by the definition. A sum that passes 128 bits is answered as want of
/// memory.
pub fn groups_of(
    alloc: Global,
    column: u32,
    sums: &[u32],
    rows: &[Cells],
) -> Result<Vec<Cells>, AllocError>
    ensures value { IfOk result (λ groups. groups.items ≡ spec.groups_of column sums.now rows.now) }
{
    let keys = keys_of(alloc, column as usize, rows)?;
    rows_of_keys(alloc, column as usize, sums, rows, &keys)
}

// A row for each of some keys.
fn rows_of_keys(
    alloc: Global,
    column: usize,
    sums: &[u32],
    rows: &[Cells],
    keys: &[Text],
) -> Result<Vec<Cells>, AllocError>
    ensures { IfOk result (λ groups. groups.items ≡ map (spec.group_of column sums.now rows.now) keys.now) }
{
    let mut groups = Vec::new(alloc);
    for key in keys {
        groups.push(group_of(alloc, column, sums, rows, key)?)?;
    }
    Ok(groups)
}

// The row of a key: the key, and its rows' sums.
fn group_of(
    alloc: Global,
    column: usize,
    sums: &[u32],
    rows: &[Cells],
    key: &Text,
) -> Result<Cells, AllocError>
    ensures { IfOk result (λ group. group ≡ spec.group_of column sums.now rows.now key.now) }
{
    let mut cells = Vec::new(alloc);
    cells.push(Cell::Text(Text::new(alloc, key.as_str())?))?;
    for sum in sums {
        cells.push(sum_of(alloc, column, key, rows, *sum as usize)?)?;
    }
    Ok(Cells::new(cells))
}
