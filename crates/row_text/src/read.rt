//! Bytes are read as a table.
ghost use Rattle.std.specs.Prelude.{◌≡◌, ◌↔◌, ℕ, IfOk, IsTrue};
ghost use Rattle.csv.specs.Records.{fields_of};
ghost use Rattle.row_text.specs.Table.{IsFirstBad, IsTable, kinds_of, names_of};
ghost use Rattle.row_text.specs.Rows.{AreLong, TakesRecord, cells_in, kinds_in};

use crate::cell_column::CellColumn;
use crate::lines::read_lines;
use crate::records::{open, take_next};
use crate::refused::RowsRefused;
use crate::rows::Rows;
use csv::ByteRecord;
use query_model::{Column, MOST_ROWS};
use std::alloc::{AllocError, Global};

/// Reads a table: its first record is the columns' names, and the others are rows, each cell by its column's kind. No memory is
/// taken for a row or a cell by itself. A table with a column of sums has no rows to read. Where a line is empty or a row is
/// bad in a table without quotes and carriage returns, the rows before it are read twice.
pub fn read_rows(alloc: Global, columns: &[Column], bytes: &[u8]) -> Result<Rows, RowsRefused>
    ensures read { IfOk result (λ table. IsTable columns.now bytes.now table.rows) }
    ensures kinds { IfOk result (λ table. table.kinds ≡ kinds_of columns.now) }

    // A refusal names the first row that breaks a rule.
    ensures bad { (row : ℕ) → result ≡ Err (RowsRefused.Bad row) → IsFirstBad columns.now bytes.now row }
{
    let mut reader = open(alloc, bytes);
    let mut fields = ByteRecord::new(alloc);
    if !take_next(&mut reader, &mut fields)? {
        return Err(RowsRefused::Bad { row: 0 });
    }
    if !is_header(columns, &fields) {
        return Err(RowsRefused::Bad { row: 0 });
    }
    if let Some(rows) = read_lines(alloc, columns, bytes)? {
        return Ok(rows);
    }
    let mut cells = empty_columns(alloc, columns)?;
    let mut count = 0usize;
    'records: loop {
        if !take_next(&mut reader, &mut fields)? {
            return Ok(Rows::from_columns(cells, count));
        }
        let row = count as u64 + 1;
        if row > MOST_ROWS {
            return Err(RowsRefused::Bad { row });
        }
        if !push_record(&mut cells, &fields)? {
            return Err(RowsRefused::Bad { row });
        }
        count += 1;
    }
}

// Whether a record is the columns' names.
fn is_header(columns: &[Column], fields: &ByteRecord) -> bool
    ensures { IsTrue result ↔ (fields_of fields.now ≡ names_of columns.now) }
{
    if fields.len() != columns.len() {
        return false;
    }
    'columns: for (i, column) in columns.iter().enumerate() {
        let Some(field) = fields.get(i) else {
            return false;
        };
        if !column.name.is(field) {
            return false;
        }
    }
    true
}

/// A column without cells for each column of a table.
pub(crate) fn empty_columns(
    alloc: Global,
    columns: &[Column],
) -> Result<Vec<CellColumn>, AllocError>
    ensures kinds { IfOk result (λ made. kinds_in made.items ≡ kinds_of columns.now) }
    ensures cells { IfOk result (λ made. AreLong 0 (cells_in made.items)) }
{
    let mut made = Vec::new(alloc);
    'columns: for column in columns {
        made.push(CellColumn::new(alloc, column.kind))?;
    }
    Ok(made)
}

// Reads a record's fields into columns, and says whether it is a row.
fn push_record(columns: &mut [CellColumn], fields: &ByteRecord) -> Result<bool, AllocError>
    ensures { IfOk result (TakesRecord columns.old columns.new (fields_of fields.now)) }
{
    if fields.len() != columns.len() {
        return Ok(false);
    }
    'columns: for i in 0..columns.len() {
        let column = &mut columns[i];
        let Some(field) = fields.get(i) else {
            return Ok(false);
        };
        if !column.push_field(field)? {
            return Ok(false);
        }
    }
    Ok(true)
}

#[cfg(test)]
mod tests;
