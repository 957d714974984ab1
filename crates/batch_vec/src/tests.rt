//! Rows in buffers of a listed memory: the worked columns of the format, and a refusal in their midst.

use super::*;
use crate::numbers::sum_bytes;
use mem_buf::ListedAnswer::{Done, Full as IsFull};
use mem_buf::{ArrowBuf, Listed, ListedAnswer, ListedMemory, give_back};
use mem_num::{AllocId, Full, NoMemory, Ref};
use query_model::{Column, Kind, Text};
use row_text::{Rows, RowsSlice, answer_text, read_rows};
use std::alloc::AllocGlobal;
use std::process::Abort;
use std::test::Fail;

const SCAN: AllocId = AllocId(1);

/// A level of 16 bytes that was asked for 2 more.
const FULL: Full = Full {
    node: SCAN,
    held: 16,
    amount: 2,
    limit: 16,
    local: true,
};

/// A token that pins the scan.
fn listed(rt: &impl AllocGlobal, answers: &[ListedAnswer]) -> Result<Listed, Fail> {
    Ok(Listed {
        answers: answers.to_vec(rt.alloc())?,
        taken: 0,
        pinned: Vec::new(rt.alloc()),
        allocators: 1,
        chunks: 0,
    })
}

// Stores rows of a few columns at the scan, which the token pins from then on.
fn store(
    rt: &impl AllocGlobal,
    token: &mut Listed,
    rows: &RowsSlice<'_>,
) -> Result<Batch<Ref>, OpRefused> {
    if token.pinned.push(SCAN).is_err() || rows.width() > 8 || !buffers_fit(rows) {
        return Err(OpRefused::NoMemory);
    }
    store_rows(rt.alloc(), &ListedMemory, token, SCAN, rows)
}

fn columns(rt: &impl AllocGlobal) -> Result<[Column; 2], Fail> {
    let city = Text::new(rt.alloc(), "city")?;
    let mm = Text::new(rt.alloc(), "mm")?;
    Ok([
        Column {
            name: city,
            kind: Kind::Text,
        },
        Column {
            name: mm,
            kind: Kind::Int,
        },
    ])
}

fn read(rt: &(impl Abort + AllocGlobal), table: &[u8]) -> Result<Rows, Fail> {
    match read_rows(rt.alloc(), &columns(rt)?, table) {
        Ok(rows) => Ok(rows),
        Err(_) => panic!(rt; "no table"),
    }
}

/// The rows of a batch as a table, under its header.
fn printed<H>(rt: &(impl Abort + AllocGlobal), batch: &Batch<H>) -> Result<Vec<u8>, Fail> {
    let header = [Text::new(rt.alloc(), "city")?, Text::new(rt.alloc(), "mm")?];
    let mut out = Vec::new(rt.alloc());
    match rows_of(rt.alloc(), batch) {
        Ok(rows) => {
            assert_eq!(rt; rows.as_slice().width(), 2);
            assert!(rt; answer_text(rt.alloc(), &header, &rows.as_slice(), &mut out).is_ok());
        }
        Err(_) => panic!(rt; "no memory"),
    }
    Ok(out)
}

#[test]
fn worked_columns_have_the_bytes_of_their_format(rt: HostRuntime) -> Result<(), Fail> {
    let rows = read(&rt, b"city,mm\noslo,3\nbergen,\n")?;
    let mut token = listed(&rt, &[])?;
    match store(&rt, &mut token, &rows.as_slice()) {
        Ok(batch) => {
            let bytes = [
                b"\0\0\0\0\x04\0\0\0\x0a\0\0\0".as_slice(),
                b"oslobergen",
                b"\x01",
                b"\x03\0\0\0\0\0\0\0\0\0\0\0\0\0\0\0",
            ];
            assert_eq!(rt; batch.buffers.len(), 4);
            for (buffer, bytes) in batch.buffers.iter().zip(bytes) {
                assert_eq!(rt; buffer.view.bytes(), bytes);
            }
            for (buffer, size) in batch.buffers.iter().zip([16, 16, 2, 16]) {
                assert_eq!(rt; buffer.hold.size, size);
            }
            assert_eq!(rt; batch.len(), 2);
            assert_eq!(rt; batch.kinds(), [Kind::Text, Kind::Int].as_slice());
            release_batch(&ListedMemory, &mut token, batch);
        }
        Err(_) => panic!(rt; "refused"),
    }
    assert_eq!(rt; token.chunks, 4);
    Ok(())
}

#[test]
fn sums_have_sixteen_bytes_each(rt: HostRuntime) -> Result<(), Fail> {
    let bytes = sum_bytes(rt.alloc(), &[4, 9, -2], &[true, false, true])?;
    let expected = b"\x04\0\0\0\0\0\0\0\0\0\0\0\0\0\0\0\
\0\0\0\0\0\0\0\0\0\0\0\0\0\0\0\0\
\xfe\xff\xff\xff\xff\xff\xff\xff\xff\xff\xff\xff\xff\xff\xff\xff";
    assert_eq!(rt; bytes.as_slice(), expected.as_slice());
    Ok(())
}

#[test]
fn no_rows_ask_for_one_place(rt: HostRuntime) -> Result<(), Fail> {
    let rows = read(&rt, b"city,mm\n")?;
    let mut token = listed(&rt, &[])?;
    match store(&rt, &mut token, &rows.as_slice()) {
        Ok(batch) => {
            for (buffer, bytes) in batch
                .buffers
                .iter()
                .zip([b"\0\0\0\0".as_slice(), b"", b"", b""])
            {
                assert_eq!(rt; buffer.view.bytes(), bytes);
            }
            let text = printed(&rt, &batch);
            release_batch(&ListedMemory, &mut token, batch);
            assert_eq!(rt; text?.as_slice(), b"city,mm\n".as_slice());
        }
        Err(_) => panic!(rt; "refused"),
    }
    assert_eq!(rt; token.chunks, 1);
    Ok(())
}

#[test]
fn rows_are_read_back(rt: HostRuntime) -> Result<(), Fail> {
    let table = b"city,mm\n\
oslo,-9223372036854775808\n\
,9223372036854775807\n\
\"as, vest\",\n\
troms\xc3\xb8,0\n\
oslo,-1\n\
oslo,255\n\
oslo,256\n\
bergen,\n\
bergen,65536\n\
bergen,7\n";
    let rows = read(&rt, table)?;
    let mut token = listed(&rt, &[])?;
    match store(&rt, &mut token, &rows.as_slice()) {
        Ok(batch) => {
            assert_eq!(rt; batch.len(), 10);
            assert_eq!(rt; batch.buffers.len(), 4);
            // The nulls are rows 3 and 8, so bit 0 of the second byte is that of row 9.
            assert_eq!(rt; batch.buffers[2].view.bytes(), b"\x7b\x03".as_slice());
            let text = printed(&rt, &batch);
            release_batch(&ListedMemory, &mut token, batch);
            assert_eq!(rt; text?.as_slice(), table.as_slice());
        }
        Err(_) => panic!(rt; "refused"),
    }
    Ok(())
}

#[test]
fn a_refusal_gives_back_what_was_stored(rt: HostRuntime) -> Result<(), Fail> {
    let rows = read(&rt, b"city,mm\noslo,3\nbergen,\n")?;
    let mut token = listed(&rt, &[Done(true), Done(true), IsFull(FULL), Done(true)])?;
    match store(&rt, &mut token, &rows.as_slice()) {
        Ok(_) => panic!(rt; "granted"),
        Err(refused) => assert_eq!(rt; refused, OpRefused::Full(FULL)),
    }
    // Two were granted, one was refused, and of the two releases one took the last answer.
    assert_eq!(rt; token.chunks, 2);
    assert_eq!(rt; token.taken, 4);
    Ok(())
}

const PROJECT: AllocId = AllocId(3);

// Moves a batch of a few columns to the project, which the token pins from then on.
fn move_few(
    rt: &impl AllocGlobal,
    token: &mut Listed,
    batch: Batch<Ref>,
) -> Result<Batch<Ref>, NoMemory> {
    if token.pinned.push(PROJECT).is_err() || batch.buffers.len() > 8 {
        release_batch(&ListedMemory, token, batch);
        return Err(NoMemory);
    }
    move_batch(rt.alloc(), &ListedMemory, token, PROJECT, batch)
}

#[test]
fn a_batch_moves_with_its_rows(rt: HostRuntime) -> Result<(), Fail> {
    let rows = read(&rt, b"city,mm\noslo,3\nbergen,\n")?;
    let mut token = listed(&rt, &[])?;
    match store(&rt, &mut token, &rows.as_slice()) {
        Ok(batch) => match move_few(&rt, &mut token, batch) {
            Ok(moved) => {
                for buffer in &moved.buffers {
                    assert_eq!(rt; buffer.hold.alloc, PROJECT);
                }
                let text = printed(&rt, &moved);
                release_batch(&ListedMemory, &mut token, moved);
                assert_eq!(rt; text?.as_slice(), b"city,mm\noslo,3\nbergen,\n".as_slice());
            }
            Err(_) => panic!(rt; "no memory"),
        },
        Err(_) => panic!(rt; "refused"),
    }
    Ok(())
}

// The two columns of a batch, the second first.
fn swapped(rt: &impl AllocGlobal, batch: Batch<Ref>) -> Result<Picked<Ref>, Batch<Ref>> {
    if batch.kinds().len() != 2 {
        return Err(batch);
    }
    pick_columns(rt.alloc(), &[1, 0], batch)
}

// The second of two columns.
fn second_alone(rt: &impl AllocGlobal, batch: Batch<Ref>) -> Result<Picked<Ref>, Batch<Ref>> {
    if batch.kinds().len() != 2 {
        return Err(batch);
    }
    pick_columns(rt.alloc(), &[1], batch)
}

/// Whether buffers have these chunks, in order.
fn have_chunks(buffers: &[ArrowBuf<Ref>], chunks: &[u32]) -> bool {
    buffers.len() == chunks.len()
        && buffers
            .iter()
            .zip(chunks)
            .all(|(buffer, chunk)| buffer.hold.chunk == *chunk)
}

#[test]
fn picked_columns_come_in_the_order_of_the_picks(rt: HostRuntime) -> Result<(), Fail> {
    let rows = read(&rt, b"city,mm\noslo,3\nbergen,\n")?;
    let mut token = listed(&rt, &[])?;
    match store(&rt, &mut token, &rows.as_slice()) {
        Ok(batch) => match swapped(&rt, batch) {
            Ok(Picked { batch, rest }) => {
                assert_eq!(rt; batch.kinds(), [Kind::Int, Kind::Text].as_slice());
                assert!(rt; have_chunks(batch.buffers.as_slice(), &[3, 4, 1, 2]));
                assert!(rt; have_chunks(rest.as_slice(), &[]));
                release_batch(&ListedMemory, &mut token, batch);
                give_back(&ListedMemory, &mut token, rest);
            }
            Err(batch) => {
                release_batch(&ListedMemory, &mut token, batch);
                panic!(rt; "no memory");
            }
        },
        Err(_) => panic!(rt; "refused"),
    }
    Ok(())
}

#[test]
fn other_columns_are_left(rt: HostRuntime) -> Result<(), Fail> {
    let rows = read(&rt, b"city,mm\noslo,3\nbergen,\n")?;
    let mut token = listed(&rt, &[])?;
    match store(&rt, &mut token, &rows.as_slice()) {
        Ok(batch) => match second_alone(&rt, batch) {
            Ok(Picked { batch, rest }) => {
                assert_eq!(rt; batch.len(), 2);
                assert_eq!(rt; batch.kinds(), [Kind::Int].as_slice());
                assert!(rt; have_chunks(batch.buffers.as_slice(), &[3, 4]));
                assert!(rt; have_chunks(rest.as_slice(), &[1, 2]));
                release_batch(&ListedMemory, &mut token, batch);
                give_back(&ListedMemory, &mut token, rest);
            }
            Err(batch) => {
                release_batch(&ListedMemory, &mut token, batch);
                panic!(rt; "no memory");
            }
        },
        Err(_) => panic!(rt; "refused"),
    }
    Ok(())
}
