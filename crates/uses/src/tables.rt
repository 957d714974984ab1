//! Tables: bytes are read as rows, and what is written of rows is read as the same rows.
ghost use Rattle.std.specs.Prelude.{◌≡◌, ◌++◌, ℕ, List, IfOk, OnOk, OnErr};
ghost use Rattle.query_model.specs.declared.cell.Cell.{Cell};
ghost use Rattle.row_text.specs.Answer.{BeginsPlain, table_text};
ghost use Rattle.row_text.specs.Table.{IsFirstBad, IsTable, kinds_of, names_of};

use mem_num::NoMemory;
use row_text::{
    Column, Rows, RowsRefused, Text, answer_text, read_rows, written_rows_are_read_back,
};
use std::alloc::{AllocError, Global};

/// Reads a table and writes it anew: with quotes only where they are needed, a line feed behind each row, and no leading zeros.
///
/// Shows `read`, `kinds` and `bad` of `read_rows`, and `text` and `err` of `answer_text`.
pub fn write_anew(
    alloc: Global,
    columns: &[Column],
    bytes: &[u8],
    out: &mut Vec<u8>,
) -> Result<(), RowsRefused>
    ensures text { OnOk result ((rows : List (List Cell)) × IsTable columns.now bytes.now rows
        × (out.new.items ≡ out.old.items ++ table_text (names_of columns.now) rows)) }
    ensures bad { (row : ℕ) → result ≡ Err (RowsRefused.Bad row) → IsFirstBad columns.now bytes.now row }
    ensures err { OnErr result (out.new.items ≡ out.old.items) }
{
    let rows = read_rows(alloc, columns, bytes)?;
    let names = names_of(alloc, columns)?;
    match answer_text(alloc, names.as_slice(), &rows.as_slice(), out) {
        Ok(()) => Ok(()),
        Err(NoMemory) => Err(RowsRefused::NoMemory),
    }
}

/// Writes rows and reads them again: they are the same rows.
///
/// Shows `same` of `written_rows_are_read_back`, and `typed` of `Rows::len`.
pub fn read_again(alloc: Global, columns: &[Column], rows: &Rows) -> Result<Rows, RowsRefused>
    requires plain { BeginsPlain (names_of columns.now) }
    requires kinds { rows.now.kinds ≡ kinds_of columns.now }
    ensures same { IfOk result (λ again. again ≡ rows.now) }
{
    written_rows_are_read_back();
    let _count = rows.len();
    let names = names_of(alloc, columns)?;
    let mut text = Vec::new(alloc);
    match answer_text(alloc, names.as_slice(), &rows.as_slice(), &mut text) {
        Ok(()) => read_rows(alloc, columns, text.as_slice()),
        Err(NoMemory) => Err(RowsRefused::NoMemory),
    }
}

// The names of columns, for a header.
fn names_of(alloc: Global, columns: &[Column]) -> Result<Vec<Text>, AllocError>
    ensures value { IfOk result (λ names. names.items ≡ names_of columns.now) }
{
    let mut names = Vec::new(alloc);
    'columns: for column in columns {
        names.push(Text::new(alloc, column.name.as_str())?)?;
    }
    Ok(names)
}

#[cfg(test)]
mod tests {
    use super::*;
    use row_text::Kind;
    use std::alloc::AllocGlobal;
    use std::test::Fail;

    fn columns(rt: &impl AllocGlobal) -> Result<[Column; 2], Fail> {
        let city = Text::new(rt.alloc(), "city")?;
        let mm = Text::new(rt.alloc(), "mm")?;
        Ok([
            Column {
                name: city,
                kind: Kind::Text,
            },
            Column {
                name: mm,
                kind: Kind::Int,
            },
        ])
    }

    #[test]
    fn a_table_is_written_anew(rt: HostRuntime) -> Result<(), Fail> {
        let columns = columns(&rt)?;
        let table = b"city,mm\r\n\"oslo\",03\r\n\r\nbergen,\n\"as, vest\",-7";
        let mut out = b"> ".to_vec(rt.alloc())?;
        assert_eq!(rt; write_anew(rt.alloc(), &columns, table, &mut out), Ok(()));
        let anew = b"> city,mm\noslo,3\nbergen,\n\"as, vest\",-7\n";
        assert_eq!(rt; out.as_slice(), anew.as_slice());
        Ok(())
    }

    #[test]
    fn a_bad_row_is_named_and_nothing_is_written(rt: HostRuntime) -> Result<(), Fail> {
        let columns = columns(&rt)?;
        let mut out = b"> ".to_vec(rt.alloc())?;
        for (table, row) in [
            (b"city,mm\noslo,3\nbergen,x7\n".as_slice(), 2),
            (b"town,mm\n", 0),
            (b"", 0),
        ] {
            let bad = Err(RowsRefused::Bad { row });
            assert_eq!(rt; write_anew(rt.alloc(), &columns, table, &mut out), bad);
        }
        assert_eq!(rt; out.as_slice(), b"> ".as_slice());
        Ok(())
    }
}
