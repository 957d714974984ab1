//! Rows are written as the text of a table.
ghost use Rattle.std.specs.Prelude.{◌≡◌, ◌++◌, [], List, ℕ, Some, length, IfOk, OnErr, OnOk};
ghost use Rattle.csv.specs.Records.{fields_of};
ghost use Rattle.csv.specs.Writing as csv;
ghost use Rattle.row_text.specs.Answer.{rows_text, table_text};
ghost use Rattle.row_text.specs.Written.{HasWritten};

use crate::rows_slice::RowsSlice;
use csv::{ByteRecord, Writer};
use mem_num::NoMemory;
use query_model::Text;
use std::alloc::{AllocError, Global};

/// Appends the text of a table: a record of the header's names, and then one of each row. No memory is taken for a row or a cell by
/// itself.
pub fn answer_text(
    alloc: Global,
    header: &[Text],
    rows: &RowsSlice,
    out: &mut Vec<u8>,
) -> Result<(), NoMemory>
    requires width { length header.now ≡ length rows.now.kinds }
    ensures text { OnOk result (out.new.items ≡ out.old.items ++ table_text header.now rows.now.rows) }
    ensures err { OnErr result (out.new.items ≡ out.old.items) }
{
    append(text_of(alloc, header, rows), out)
}

/// Appends the text of a header alone. The rows of a table that stands in several batches follow it by `rows_text`, batch after batch.
pub fn header_text(alloc: Global, header: &[Text], out: &mut Vec<u8>) -> Result<(), NoMemory>
    ensures text { OnOk result (out.new.items ≡ out.old.items ++ table_text header.now []) }
    ensures err { OnErr result (out.new.items ≡ out.old.items) }
{
    append(text_of_header(alloc, header), out)
}

/// Appends a record of each row, with no header. No memory is taken for a row or a cell by itself.
pub fn rows_text(alloc: Global, rows: &RowsSlice, out: &mut Vec<u8>) -> Result<(), NoMemory>
    ensures text { OnOk result (out.new.items ≡ out.old.items ++ rows_text rows.now.rows) }
    ensures err { OnErr result (out.new.items ≡ out.old.items) }
{
    append(text_of_rows(alloc, rows), out)
}

// Appends a text, if there was memory for it.
fn append(text: Result<Vec<u8>, AllocError>, out: &mut Vec<u8>) -> Result<(), NoMemory>
    ensures text { (bytes : List ℕ) → IfOk text (λ made. made.items ≡ bytes)
        → OnOk result (out.new.items ≡ out.old.items ++ bytes) }
    ensures err { OnErr result (out.new.items ≡ out.old.items) }
{
    let Ok(bytes) = text else {
        return Err(NoMemory);
    };
    match out.extend_from_slice(bytes.as_slice()) {
        Ok(()) => Ok(()),
        Err(AllocError) => Err(NoMemory),
    }
}

// The text of a table.
fn text_of(alloc: Global, header: &[Text], rows: &RowsSlice) -> Result<Vec<u8>, AllocError>
    ensures { IfOk result (λ text. text.items ≡ table_text header.now rows.now.rows) }
{
    let mut writer = Writer::from_writer(Vec::new(alloc));
    let mut fields = ByteRecord::new(alloc);
    write_header(&mut writer, &mut fields, header)?;
    write_rows(&mut writer, &mut fields, rows)?;
    close(writer)
}

// The text of a header.
fn text_of_header(alloc: Global, header: &[Text]) -> Result<Vec<u8>, AllocError>
    ensures { IfOk result (λ text. text.items ≡ table_text header.now []) }
{
    let mut writer = Writer::from_writer(Vec::new(alloc));
    let mut fields = ByteRecord::new(alloc);
    write_header(&mut writer, &mut fields, header)?;
    close(writer)
}

// The text of rows.
fn text_of_rows(alloc: Global, rows: &RowsSlice) -> Result<Vec<u8>, AllocError>
    ensures { IfOk result (λ text. text.items ≡ rows_text rows.now.rows) }
{
    let mut writer = Writer::from_writer(Vec::new(alloc));
    let mut fields = ByteRecord::new(alloc);
    write_rows(&mut writer, &mut fields, rows)?;
    close(writer)
}

// What a writer has written.
fn close(writer: Writer<Vec<u8>>) -> Result<Vec<u8>, AllocError>
    ensures { (whole : List ℕ) → HasWritten (λ v. Some v.items) writer whole → IfOk result (λ text. text.items ≡ whole) }
{
    match writer.into_inner() {
        Ok(text) => Ok(text),
        Err(_) => Err(AllocError),
    }
}

// Writes the record of a header.
fn write_header(
    writer: &mut Writer<Vec<u8>>,
    fields: &mut ByteRecord,
    header: &[Text],
) -> Result<(), AllocError>
    ensures { HasWritten (λ v. Some v.items) writer.old []
        → OnOk result (HasWritten (λ v. Some v.items) writer.new (table_text header.now [])) }
{
    set_header(fields, header)?;
    write(writer, fields)
}

// Writes the records of rows behind those before them.
fn write_rows(
    writer: &mut Writer<Vec<u8>>,
    fields: &mut ByteRecord,
    rows: &RowsSlice,
) -> Result<(), AllocError>
    ensures { (before : List ℕ) → HasWritten (λ v. Some v.items) writer.old before
        → OnOk result (HasWritten (λ v. Some v.items) writer.new (before ++ rows_text rows.now.rows)) }
{
    'rows: for row in 0..rows.len() {
        rows.read_row(row, fields)?;
        write(writer, fields)?;
    }
    Ok(())
}

// Makes a record of a header's names.
fn set_header(fields: &mut ByteRecord, header: &[Text]) -> Result<(), AllocError>
    ensures { OnOk result (fields_of fields.new ≡ header.now) }
{
    fields.clear();
    'names: for name in header {
        fields.push_field(name.as_str().as_bytes())?;
    }
    Ok(())
}

// Writes a record behind those before it.
fn write(writer: &mut Writer<Vec<u8>>, fields: &ByteRecord) -> Result<(), AllocError>
    ensures { (before : List ℕ) → HasWritten (λ v. Some v.items) writer.old before
        → OnOk result (HasWritten (λ v. Some v.items) writer.new (before ++ csv.row_text csv.default_writer (fields_of fields.now))) }
{
    match writer.write_byte_record(fields) {
        Ok(()) => Ok(()),
        Err(_) => Err(AllocError),
    }
}

#[cfg(test)]
mod tests;
