use super::{answer_text, header_text, rows_text};
use crate::read::read_rows;
use query_model::{Column, Kind, Text};
use std::alloc::{AllocError, Global};
use std::test::Fail;

// The text that is written of a table of two columns, city:text and mm:int.
fn again(alloc: Global, bytes: &[u8]) -> Result<Vec<u8>, AllocError> {
    let city = Column {
        name: Text::new(alloc, "city")?,
        kind: Kind::Text,
    };
    let number = Column {
        name: Text::new(alloc, "mm")?,
        kind: Kind::Int,
    };
    let header = [Text::new(alloc, "city")?, Text::new(alloc, "mm")?];
    let Ok(rows) = read_rows(alloc, &[city, number], bytes) else {
        return Err(AllocError);
    };
    let mut text = Vec::new(alloc);
    match answer_text(alloc, &header, &rows.as_slice(), &mut text) {
        Ok(()) => Ok(text),
        Err(_) => Err(AllocError),
    }
}

#[test]
fn rows_are_written_as_csv_writes_records(rt: HostRuntime) -> Result<(), Fail> {
    let a = rt.alloc();
    let tables: [(&[u8], &[u8]); 4] = [
        (b"city,mm\noslo,3\nbergen,\n", b"city,mm\noslo,3\nbergen,\n"),
        (
            b"city,mm\r\n\"oslo\",-007\r\n,-0",
            b"city,mm\noslo,-7\n,0\n",
        ),
        (b"city,mm\n\"a,\"\"b\",\n", b"city,mm\n\"a,\"\"b\",\n"),
        (b"city,mm\n", b"city,mm\n"),
    ];
    for (table, text) in tables {
        assert_eq!(rt; again(a, table)?.as_slice(), text);
    }
    Ok(())
}

#[test]
fn an_answer_is_appended(rt: HostRuntime) -> Result<(), Fail> {
    let a = rt.alloc();
    let columns = [Column {
        name: Text::new(a, "city")?,
        kind: Kind::Text,
    }];
    let header = [Text::new(a, "town")?];
    let rows = read_rows(a, &columns, b"city\n\"\"\noslo\n").expect(&rt, "a table");
    let mut out = Vec::from_slice(a, b"answer\n")?;
    assert_eq!(rt; answer_text(a, &header, &rows.as_slice(), &mut out), Ok(()));
    assert_eq!(rt; out.as_slice(), b"answer\ntown\n\"\"\noslo\n".as_slice());
    Ok(())
}

#[test]
fn an_answer_is_written_batch_after_batch(rt: HostRuntime) -> Result<(), Fail> {
    let a = rt.alloc();
    let city = Column {
        name: Text::new(a, "city")?,
        kind: Kind::Text,
    };
    let number = Column {
        name: Text::new(a, "mm")?,
        kind: Kind::Int,
    };
    let header = [Text::new(a, "city")?, Text::new(a, "mm")?];
    let table = b"city,mm\n\"a,b\",3\n\"\",\nbergen,-7\n".as_slice();
    let rows = read_rows(a, &[city, number], table).expect(&rt, "a table");
    assert_eq!(rt; rows.len(), 3);
    let mut whole = Vec::new(a);
    assert_eq!(rt;
        answer_text(a, &header, &rows.as_slice(), &mut whole),
        Ok(())
    );
    let mut out = Vec::new(a);
    assert_eq!(rt; header_text(a, &header, &mut out), Ok(()));
    assert_eq!(rt; out.as_slice(), b"city,mm\n".as_slice());
    assert_eq!(rt; rows_text(a, &rows.part(0, 1), &mut out), Ok(()));
    assert_eq!(rt; rows_text(a, &rows.part(1, 3), &mut out), Ok(()));
    assert_eq!(rt;
        out.as_slice(),
        b"city,mm\n\"a,b\",3\n,\nbergen,-7\n".as_slice()
    );
    assert_eq!(rt; out.as_slice(), whole.as_slice());
    Ok(())
}
