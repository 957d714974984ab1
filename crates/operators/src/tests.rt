//! Operators over a listed memory: the worked table, nulls and empty keys, the ends of 64 bits, and refusals in their midst.

ghost use Rattle.std.specs.Prelude.{◌≡◌, ◌≤◌, ◌<◌, ◌∷◌, [], All, IsTrue, Some, length, slice_get};
ghost use Rattle.mem_num.specs.declared.bounds.TheConstants.{LARGEST};
ghost use Rattle.query_model.specs.Answer.{groups_of};
ghost use Rattle.query_model.specs.Buffers.{buffer_lengths};
ghost use Rattle.query_model.specs.Filter.{meeting};
ghost use Rattle.query_model.specs.declared.bounds.TheConstants.{MOST_ROWS};
ghost use Rattle.query_model.specs.declared.kind.Kind.TheVariants as kind;
ghost use Rattle.query_model.specs.Requests.{sum_kinds};

use super::*;
use crate::filtering::rows_meeting;
use crate::grouping::groups_of;
use batch_vec::{Batch, OpRefused, buffers_fit, release_batch, rows_of};
use mem_buf::ListedAnswer::{Done, Full as IsFull};
use mem_buf::{Listed, ListedAnswer, ListedMemory};
use mem_num::{AllocId, Full, Ref};
use query_model::{Cell, Column, Kind, MOST_ROWS, Op, Test, Text};
use row_text::{Rows, RowsSlice, answer_text, read_rows};
use std::alloc::{AllocError, AllocGlobal};
use std::process::Abort;
use std::test::Fail;

const AT: AllocId = AllocId(1);

const WORKED: &[u8] = b"city,mm\noslo,3\nbergen,\noslo,-1\nbergen,7\noslo,2\n";

/// A level of 16 bytes that was asked for 2 more.
const FULL: Full = Full {
    node: AT,
    held: 16,
    amount: 2,
    limit: 16,
    local: true,
};

/// A token that pins the allocator.
fn listed(rt: &impl AllocGlobal, answers: &[ListedAnswer]) -> Result<Listed, Fail> {
    let mut pinned = Vec::new(rt.alloc());
    pinned.push(AT)?;
    Ok(Listed {
        answers: answers.to_vec(rt.alloc())?,
        taken: 0,
        pinned,
        allocators: 1,
        chunks: 0,
    })
}

fn column(rt: &impl AllocGlobal, name: &str, kind: Kind) -> Result<Column, Fail> {
    Ok(Column {
        name: Text::new(rt.alloc(), name)?,
        kind,
    })
}

/// The rows of a table of a text and a number.
fn read(rt: &(impl Abort + AllocGlobal), table: &[u8]) -> Result<Rows, Fail> {
    let columns = [
        column(rt, "city", Kind::Text)?,
        column(rt, "mm", Kind::Int)?,
    ];
    match read_rows(rt.alloc(), &columns, table) {
        Ok(rows) => Ok(rows),
        Err(_) => panic!(rt; "no table"),
    }
}

// Stores rows of a few columns at the allocator, which the token pins from then on.
fn stored(
    rt: &impl AllocGlobal,
    token: &mut Listed,
    rows: &RowsSlice<'_>,
) -> Result<Batch<Ref>, OpRefused> {
    if token.pinned.push(AT).is_err() || rows.width() > 8 || !buffers_fit(rows) {
        return Err(OpRefused::NoMemory);
    }
    scan(rt.alloc(), &ListedMemory, token, AT, rows)
}

// The rows of a batch of a few columns that meet tests.
fn sifted(
    rt: &impl AllocGlobal,
    token: &mut Listed,
    tests: &[Test],
    batch: Batch<Ref>,
) -> Result<Batch<Ref>, OpRefused> {
    if token.pinned.push(AT).is_err() || batch.kinds().len() > 8 || !sifted_fit(rt, tests, &batch) {
        release_batch(&ListedMemory, token, batch);
        return Err(OpRefused::NoMemory);
    }
    filter(rt.alloc(), &ListedMemory, token, AT, tests, batch)
}

// Whether no buffer of these rows is too large.
fn sifted_fit(rt: &impl AllocGlobal, tests: &[Test], batch: &Batch<Ref>) -> bool
    ensures { IsTrue result → All (λ length. length ≤ LARGEST) (buffer_lengths batch.now.kinds (meeting tests.now batch.now.rows)) }
{
    match rows_meeting(rt.alloc(), tests, batch) {
        Ok(rows) => buffers_fit(&rows.as_slice()),
        Err(AllocError) => false,
    }
}

// The sums of a column of a batch by another one.
fn summed(
    rt: &impl AllocGlobal,
    token: &mut Listed,
    key: u32,
    sum: u32,
    batch: Batch<Ref>,
) -> Result<Batch<Ref>, OpRefused> {
    if token.pinned.push(AT).is_err()
        || !can_sum(&batch, key, sum)
        || !summed_fit(rt, key, sum, &batch)
    {
        release_batch(&ListedMemory, token, batch);
        return Err(OpRefused::NoMemory);
    }
    group_sums(rt.alloc(), &ListedMemory, token, AT, key, &[sum], batch)
}

// Whether a batch has the columns.
fn can_sum(batch: &Batch<Ref>, key: u32, sum: u32) -> bool
    ensures key { IsTrue result → key < length batch.now.kinds }
    ensures ints { IsTrue result → slice_get batch.now.kinds sum ≡ Some kind.Int }
    ensures few { IsTrue result → length batch.now.rows ≤ MOST_ROWS }
{
    (key as usize) < batch.kinds().len()
        && batch.len() as u64 <= MOST_ROWS
        && is_int(batch.kinds(), sum)
}

// Whether the kind of a column is that of whole numbers.
fn is_int(kinds: &[Kind], column: u32) -> bool
    ensures { IsTrue result → slice_get kinds.now column ≡ Some kind.Int }
{
    match kinds.get(column as usize) {
        Some(Kind::Int) => true,
        Some(Kind::Sum) => false,
        Some(Kind::Text) => false,
        None => false,
    }
}

// Whether no buffer of the sums is too large.
fn summed_fit(rt: &impl AllocGlobal, key: u32, sum: u32, batch: &Batch<Ref>) -> bool
    requires key { key < length batch.now.kinds }
    requires ints { slice_get batch.now.kinds sum ≡ Some kind.Int }
    requires few { length batch.now.rows ≤ MOST_ROWS }
    ensures { IsTrue result → All (λ length. length ≤ LARGEST) (buffer_lengths (sum_kinds 1) (groups_of key (sum ∷ []) batch.now.rows)) }
{
    match groups_of(rt.alloc(), key, &[sum], batch) {
        Ok(rows) => buffers_fit(&rows.as_slice()),
        Err(AllocError) => false,
    }
}

/// A table as a batch.
fn scanned(
    rt: &(impl Abort + AllocGlobal),
    token: &mut Listed,
    table: &[u8],
) -> Result<Batch<Ref>, Fail> {
    let rows = read(rt, table)?;
    match stored(rt, token, &rows.as_slice()) {
        Ok(batch) => Ok(batch),
        Err(_) => panic!(rt; "refused"),
    }
}

/// The rows of an answer as a table, and the batch given back.
fn printed(
    rt: &(impl Abort + AllocGlobal),
    token: &mut Listed,
    answer: Result<Batch<Ref>, OpRefused>,
) -> Result<Vec<u8>, Fail> {
    match answer {
        Ok(batch) => {
            let rows = rows_of(rt.alloc(), &batch);
            release_batch(&ListedMemory, token, batch);
            match rows {
                Ok(rows) => written(rt, &rows),
                Err(_) => panic!(rt; "no memory"),
            }
        }
        Err(_) => panic!(rt; "refused"),
    }
}

fn written(rt: &(impl Abort + AllocGlobal), rows: &Rows) -> Result<Vec<u8>, Fail> {
    let header = [Text::new(rt.alloc(), "k")?, Text::new(rt.alloc(), "s")?];
    let mut out = Vec::new(rt.alloc());
    assert_eq!(rt; rows.as_slice().width(), 2);
    assert!(rt; answer_text(rt.alloc(), &header, &rows.as_slice(), &mut out).is_ok());
    Ok(out)
}

fn int_test(column: u32, op: Op, value: i64) -> Test {
    Test {
        column,
        op,
        value: Cell::Int(value),
    }
}

fn text_test(rt: &impl AllocGlobal, op: Op, value: &str) -> Result<Test, Fail> {
    Ok(Test {
        column: 0,
        op,
        value: Cell::Text(Text::new(rt.alloc(), value)?),
    })
}

/// The rows of the worked table that meet tests.
fn filtered(rt: &(impl Abort + AllocGlobal), tests: &[Test]) -> Result<Vec<u8>, Fail> {
    let mut token = listed(rt, &[])?;
    let batch = scanned(rt, &mut token, WORKED)?;
    let answer = sifted(rt, &mut token, tests, batch);
    printed(rt, &mut token, answer)
}

#[test]
fn numbers_are_compared_by_size(rt: HostRuntime) -> Result<(), Fail> {
    let all = [
        (Op::Eq, b"k,s\noslo,-1\n".as_slice()),
        (Op::Ne, b"k,s\noslo,3\nbergen,7\noslo,2\n"),
        (Op::Lt, b"k,s\n"),
        (Op::Le, b"k,s\noslo,-1\n"),
        (Op::Gt, b"k,s\noslo,3\nbergen,7\noslo,2\n"),
        (Op::Ge, b"k,s\noslo,3\noslo,-1\nbergen,7\noslo,2\n"),
    ];
    for (op, expected) in all {
        let rows = filtered(&rt, &[int_test(1, op, -1)])?;
        assert_eq!(rt; rows.as_slice(), expected);
    }
    Ok(())
}

#[test]
fn texts_are_compared_by_bytes(rt: HostRuntime) -> Result<(), Fail> {
    let rows = filtered(&rt, &[text_test(&rt, Op::Lt, "oslo")?])?;
    assert_eq!(rt; rows.as_slice(), b"k,s\nbergen,\nbergen,7\n".as_slice());
    let rows = filtered(
        &rt,
        &[text_test(&rt, Op::Gt, "bergen")?, int_test(1, Op::Le, 2)],
    )?;
    assert_eq!(rt; rows.as_slice(), b"k,s\noslo,-1\noslo,2\n".as_slice());
    let rows = filtered(&rt, &[])?;
    assert_eq!(rt;
        rows.as_slice(),
        b"k,s\noslo,3\nbergen,\noslo,-1\nbergen,7\noslo,2\n".as_slice()
    );
    Ok(())
}

#[test]
fn no_row_meets_a_test_of_another_kind(rt: HostRuntime) -> Result<(), Fail> {
    let tests = [
        int_test(0, Op::Ne, 7),
        int_test(2, Op::Ne, 7),
        Test {
            column: 1,
            op: Op::Eq,
            value: Cell::Null,
        },
    ];
    for test in tests {
        let rows = filtered(&rt, &[test])?;
        assert_eq!(rt; rows.as_slice(), b"k,s\n".as_slice());
    }
    Ok(())
}

/// The second column's sums by the first one.
fn grouped(
    rt: &(impl Abort + AllocGlobal),
    key: u32,
    sum: u32,
    table: &[u8],
) -> Result<Vec<u8>, Fail> {
    let mut token = listed(rt, &[])?;
    let batch = scanned(rt, &mut token, table)?;
    let answer = summed(rt, &mut token, key, sum, batch);
    printed(rt, &mut token, answer)
}

#[test]
fn sums_are_in_order_of_their_keys(rt: HostRuntime) -> Result<(), Fail> {
    let rows = grouped(&rt, 0, 1, WORKED)?;
    assert_eq!(rt; rows.as_slice(), b"k,s\nbergen,7\noslo,4\n".as_slice());
    let rows = grouped(&rt, 0, 1, b"city,mm\n")?;
    assert_eq!(rt; rows.as_slice(), b"k,s\n".as_slice());
    let rows = grouped(&rt, 0, 1, b"city,mm\nb,\n,-5\nb,\na,0\n,2\n")?;
    assert_eq!(rt; rows.as_slice(), b"k,s\n,-3\na,0\nb,\n".as_slice());
    Ok(())
}

#[test]
fn numbers_are_keys_as_they_are_printed(rt: HostRuntime) -> Result<(), Fail> {
    let table = b"city,mm\na,10\nb,9\nc,\nd,-1\ne,9\nf,\n";
    let rows = grouped(&rt, 1, 1, table)?;
    assert_eq!(rt; rows.as_slice(), b"k,s\n,\n-1,-1\n10,10\n9,18\n".as_slice());
    Ok(())
}

#[test]
fn sums_pass_the_ends_of_64_bits(rt: HostRuntime) -> Result<(), Fail> {
    let table =
        b"city,mm\na,9223372036854775807\na,9223372036854775807\nb,-9223372036854775808\nb,-9223372036854775808\n";
    let rows = grouped(&rt, 0, 1, table)?;
    assert_eq!(rt;
        rows.as_slice(),
        b"k,s\na,18446744073709551614\nb,-18446744073709551616\n".as_slice()
    );
    Ok(())
}

#[test]
fn a_refusal_gives_the_input_back(rt: HostRuntime) -> Result<(), Fail> {
    // Four grants of the scan, one of the filter, which its second follows: that is refused. The first goes back, and then the input.
    let answers = [
        Done(true),
        Done(true),
        Done(true),
        Done(true),
        Done(true),
        IsFull(FULL),
    ];
    let mut token = listed(&rt, &answers)?;
    let batch = scanned(&rt, &mut token, WORKED)?;
    match sifted(&rt, &mut token, &[], batch) {
        Ok(_) => panic!(rt; "granted"),
        Err(refused) => assert_eq!(rt; refused, OpRefused::Full(FULL)),
    }
    assert_eq!(rt; token.chunks, 5);
    assert_eq!(rt; token.taken, 6);
    Ok(())
}
