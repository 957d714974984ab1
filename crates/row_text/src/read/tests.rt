use super::read_rows;
use crate::column_slice::ColumnSlice;
use crate::refused::RowsRefused;
use query_model::{Cell, Column, Kind, Text};
use std::alloc::{AllocError, Global};
use std::test::Fail;

// The columns city:text and mm:int.
fn columns(alloc: Global) -> Result<Vec<Column>, AllocError> {
    let mut made = Vec::new(alloc);
    made.push(Column {
        name: Text::new(alloc, "city")?,
        kind: Kind::Text,
    })?;
    made.push(Column {
        name: Text::new(alloc, "mm")?,
        kind: Kind::Int,
    })?;
    Ok(made)
}

// How many rows a table of these columns has, or the first bad one.
fn count(alloc: Global, bytes: &[u8]) -> Result<Result<usize, RowsRefused>, AllocError> {
    let columns = columns(alloc)?;
    match read_rows(alloc, columns.as_slice(), bytes) {
        Ok(rows) => Ok(Ok(rows.len())),
        Err(refused) => Ok(Err(refused)),
    }
}

#[test]
fn rows_lie_column_by_column(rt: HostRuntime) -> Result<(), Fail> {
    let a = rt.alloc();
    let columns = columns(a)?;
    let table = b"city,mm\noslo,3\nbergen,\noslo,-1\nbergen,7\noslo,2\n";
    let rows = read_rows(a, columns.as_slice(), table).expect(&rt, "a table");
    assert_eq!(rt; rows.len(), 5);
    let Some(ColumnSlice::Ints { values, known }) = rows.as_slice().column(1) else {
        panic!(rt; "a column of numbers");
    };
    assert_eq!(rt; values, [3, 0, -1, 7, 2].as_slice());
    assert_eq!(rt; known, [true, false, true, true, true].as_slice());
    let Some(ColumnSlice::Texts { start, ends, bytes }) = rows.as_slice().column(0) else {
        panic!(rt; "a column of texts");
    };
    assert_eq!(rt; start, 0);
    assert_eq!(rt; ends, [4, 10, 14, 20, 24].as_slice());
    assert_eq!(rt; bytes, b"oslobergenoslobergenoslo".as_slice());
    assert!(rt; rows.as_slice().column(2).is_none());
    let row = rows.as_slice().row(a, 1).expect(&rt, "a row");
    match row.cells.as_slice() {
        [Cell::Text(city), Cell::Null] => assert!(rt; city.is(b"bergen")),
        _ => panic!(rt; "a text and a null"),
    }
    Ok(())
}

#[test]
fn a_part_has_the_rows_between_two_places(rt: HostRuntime) -> Result<(), Fail> {
    let a = rt.alloc();
    let columns = columns(a)?;
    let table = b"city,mm\noslo,3\nbergen,\noslo,-1\n";
    let rows = read_rows(a, columns.as_slice(), table).expect(&rt, "a table");
    assert_eq!(rt; rows.len(), 3);
    let part = rows.part(1, 3);
    assert_eq!(rt; part.len(), 2);
    let Some(ColumnSlice::Ints { values, known }) = part.column(1) else {
        panic!(rt; "a column of numbers");
    };
    assert_eq!(rt; values, [0, -1].as_slice());
    assert_eq!(rt; known, [false, true].as_slice());
    let Some(ColumnSlice::Texts { start, ends, bytes }) = part.column(0) else {
        panic!(rt; "a column of texts");
    };
    assert_eq!(rt; start, 4);
    assert_eq!(rt; ends, [10, 14].as_slice());
    assert_eq!(rt; bytes, b"oslobergenoslo".as_slice());
    Ok(())
}

#[test]
fn the_first_bad_row_is_named(rt: HostRuntime) -> Result<(), Fail> {
    let a = rt.alloc();
    let tables: [(&[u8], u64); 18] = [
        // The fourth row, and a header that isn't there.
        (b"city,mm\noslo,3\nbergen,\noslo,-1\nbergen,x7\noslo,2\n", 4),
        (b"", 0),
        // Other names, another order, fewer and more of them.
        (b"city,m\noslo,3\n", 0),
        (b"mm,city\n3,oslo\n", 0),
        (b"city\noslo\n", 0),
        (b"city,mm,\noslo,3,\n", 0),
        // Too few fields and too many.
        (b"city,mm\noslo\n", 1),
        (b"city,mm\noslo,3\noslo,3,\n", 2),
        // A byte that isn't UTF-8, in a text and in a number.
        (b"city,mm\nos\xfflo,3\n", 1),
        (b"city,mm\noslo,\xff\n", 1),
        // Numbers out of form and out of range.
        (b"city,mm\noslo,+1\n", 1),
        (b"city,mm\noslo, 1\n", 1),
        (b"city,mm\noslo,1 \n", 1),
        (b"city,mm\noslo,-\n", 1),
        (b"city,mm\noslo,9223372036854775808\n", 1),
        (b"city,mm\noslo,-9223372036854775809\n", 1),
        // A quote that is never closed, and empty lines, which aren't counted.
        (b"city,mm\n\"os\nlo\",3\noslo,\"4\n", 2),
        (b"city,mm\n\n\noslo,3\n\nbergen,x\n", 2),
    ];
    for (table, row) in tables {
        assert_eq!(rt; count(a, table)?, Err(RowsRefused::Bad { row }));
    }
    Ok(())
}

#[test]
fn records_and_numbers_are_read_in_each_form(rt: HostRuntime) -> Result<(), Fail> {
    let a = rt.alloc();
    let tables: [(&[u8], usize); 10] = [
        (b"city,mm\n", 0),
        (b"city,mm", 0),
        // No last line feed, and a quote behind rows without one.
        (b"city,mm\noslo,3\nbergen,4", 2),
        (b"city,mm\noslo,3\n\"bergen\",4\n", 2),
        // A byte order mark, a carriage return before each line feed, empty lines, no last line feed.
        (b"\xef\xbb\xbfcity,mm\r\noslo,3\r\n\r\n\nbergen,4", 2),
        // A quote that is never closed ends with the file.
        (b"city,mm\n3,\"4", 1),
        (b"city,mm\n\"a\"\"b\",\"\"\n", 1),
        (
            b"city,mm\na,9223372036854775807\nb,-9223372036854775808\n",
            2,
        ),
        (b"city,mm\na,-0000000000000000000000007\nb,-0\n", 2),
        (b"city,mm\nB\xc3\xa5stad,\n", 1),
    ];
    for (table, rows) in tables {
        assert_eq!(rt; count(a, table)?, Ok(rows));
    }
    Ok(())
}

#[test]
fn the_row_past_the_most_is_refused(rt: HostRuntime) -> Result<(), Fail> {
    let a = rt.alloc();
    let row = b",\n,\n,\n,\n,\n,\n,\n,\n,\n,\n";
    let mut table = Vec::from_slice(a, b"city,mm\n,\n")?;
    for _ten in 0..400_000u32 {
        table.extend_from_slice(row)?;
    }
    assert_eq!(rt;
        count(a, table.as_slice())?,
        Err(RowsRefused::Bad { row: 4_000_001 })
    );
    Ok(())
}
