//! Tables without quotes, carriage returns and empty lines, which are read where they lie: a record ends at a line feed, a field at a
//! comma, and no field is copied before it goes into its column. Any other table is left to `csv`, from its first row on.
ghost use Rattle.std.specs.Prelude.{◌≡◌, ◌<◌, ◌∷◌, [], ℕ, List, false, length, get_or, IfOk, IfSome};
ghost use Rattle.csv.specs.Reading.{strip_bom};
ghost use Rattle.row_text.specs.Lines.{AreEnds, IsFirstRecord, fields_between};
ghost use Rattle.row_text.specs.Rows.{TakesRecord};
ghost use Rattle.row_text.specs.Table.{IsTable, kinds_of, names_of, records_of};

use crate::cell_column::CellColumn;
use crate::read::empty_columns;
use crate::rows::Rows;
use memchr::memchr2;
use query_model::{Column, MOST_ROWS};
use std::alloc::{AllocError, Global};

// Finds where the fields of a text's first record end, and how many bytes it takes. None where the text begins with an empty line,
// or the record has a quote or a carriage return: such a record is read by its rules, and not here.
fn cut_record(text: &[u8], ends: &mut Vec<usize>) -> Result<Option<usize>, AllocError>
    ensures { IfOk result (λ found. IfSome found (λ size. IsFirstRecord text.now ends.new.items size)) }
{
    ends.clear();
    if text.is_empty() {
        return Ok(None);
    }
    if text[0] == b'\n' {
        return Ok(None);
    }
    if text[0] == b'\r' {
        return Ok(None);
    }
    'bytes: for i in 0..text.len() {
        let byte = text[i];
        if byte == b',' {
            ends.push(i)?;
        } else if byte == b'\n' {
            ends.push(i)?;
            return Ok(Some(i + 1));
        } else if byte == b'"' {
            return Ok(None);
        } else if byte == b'\r' {
            return Ok(None);
        }
    }
    ends.push(text.len())?;
    Ok(Some(text.len()))
}

/// Reads a table that has no quote, no carriage return and no empty line. None where it has one, or may begin with a byte order mark, or
/// has a bad row. Quotes and carriage returns are looked for before anything is read.
pub(crate) fn read_lines(
    alloc: Global,
    columns: &[Column],
    bytes: &[u8],
) -> Result<Option<Rows>, AllocError>
    requires header { (body : List (List (List ℕ))) × (records_of bytes.now ≡ names_of columns.now ∷ body) }
    ensures read { IfOk result (λ found. IfSome found (λ table. IsTable columns.now bytes.now table.rows)) }
    ensures kinds { IfOk result (λ found. IfSome found (λ table. table.kinds ≡ kinds_of columns.now)) }
{
    if memchr2(b'"', b'\r', bytes).is_some() {
        return Ok(None);
    }
    if may_be_marked(bytes) {
        return Ok(None);
    }
    let mut ends = Vec::new(alloc);
    let Some(header) = cut_record(bytes, &mut ends)? else {
        return Ok(None);
    };
    let mut cells = empty_columns(alloc, columns)?;
    let mut at = header;
    let mut count = 0usize;
    'records: loop {
        if at == bytes.len() {
            return Ok(Some(Rows::from_columns(cells, count)));
        }
        let left = &bytes[at..];
        let Some(size) = cut_record(left, &mut ends)? else {
            return Ok(None);
        };
        if count as u64 >= MOST_ROWS {
            return Ok(None);
        }
        if !push_fields(&mut cells, left, ends.as_slice())? {
            return Ok(None);
        }
        at += size;
        count += 1;
    }
}

// Whether a text may begin with a byte order mark.
fn may_be_marked(bytes: &[u8]) -> bool
    ensures { result ≡ false → strip_bom bytes.now ≡ bytes.now }
{
    if bytes.is_empty() {
        return false;
    }
    bytes[0] == 0xEF
}

// Reads the fields that end at these places of a text into columns, and says whether they are a row.
fn push_fields(columns: &mut [CellColumn], text: &[u8], ends: &[usize]) -> Result<bool, AllocError>
    requires { AreEnds 0 ends.now (length text.now) }
    ensures { IfOk result (TakesRecord columns.old columns.new (fields_between 0 ends.now text.now)) }
{
    if ends.len() != columns.len() {
        return Ok(false);
    }
    'columns: for i in 0..columns.len() {
        let column = &mut columns[i];
        if !column.push_field(field_of(text, ends, i))? {
            return Ok(false);
        }
    }
    Ok(true)
}

// The field of a place.
fn field_of<'a>(text: &'a [u8], ends: &[usize], place: usize) -> &'a [u8]
    requires places { AreEnds 0 ends.now (length text.now) }
    requires within { place < length ends.now }
    ensures { result.now ≡ get_or (fields_between 0 ends.now text.now) place [] }
{
    let end = ends[place];
    if place == 0 {
        return &text[..end];
    }
    &text[ends[place - 1] + 1..end]
}
