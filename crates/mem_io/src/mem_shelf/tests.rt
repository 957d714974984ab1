//! Files in memory, read by name.

use super::MemShelf;
use crate::shelf::{Shelf, ShelfFault};
use std::alloc::{AllocError, Global};
use std::test::Fail;

fn shelf(alloc: Global, files: &[(&str, &[u8])], failing: &[u64]) -> Result<MemShelf, AllocError> {
    let mut owned = Vec::new(alloc);
    for (name, bytes) in files {
        owned.push((
            String::from_str(alloc, name)?,
            Vec::from_slice(alloc, bytes)?,
        ))?;
    }
    Ok(MemShelf {
        files: owned,
        failing: Vec::from_slice(alloc, failing)?,
        calls: 0,
        failed: 0,
    })
}

// As a program reads, which knows its shelf by the bound alone.
fn outcome<H: Shelf>(
    alloc: Global,
    shelf: &mut H,
    name: &str,
    limit: u64,
) -> Result<(Result<(), ShelfFault>, Vec<u8>), AllocError> {
    let mut into = Vec::from_slice(alloc, b"of the call before")?;
    let result = shelf.read(name, &mut into, limit);
    Ok((result, into))
}

#[test]
fn a_file_is_given_whole_up_to_its_limit(rt: HostRuntime) -> Result<(), Fail> {
    let files = [("plan", b"batch".as_slice()), ("empty", b"".as_slice())];
    let mut shelf = shelf(rt.alloc(), &files, &[])?;
    for (name, limit, want, bytes) in [
        ("plan", 5, Ok(()), b"batch".as_slice()),
        (
            "plan",
            18_446_744_073_709_551_615,
            Ok(()),
            b"batch".as_slice(),
        ),
        ("plan", 4, Err(ShelfFault::TooLong), b"batch".as_slice()),
        ("plan", 1, Err(ShelfFault::TooLong), b"ba".as_slice()),
        ("empty", 0, Ok(()), b"".as_slice()),
        ("plans", 5, Err(ShelfFault::Failed), b"".as_slice()),
    ] {
        let (result, into) = outcome(rt.alloc(), &mut shelf, name, limit)?;
        assert_eq!(rt; result, want, "{name} at {limit}");
        assert_eq!(rt; into.as_slice(), bytes, "{name} at {limit}");
    }
    assert_eq!(rt; shelf.calls, 6);
    assert_eq!(rt; shelf.faults(), 1);
    Ok(())
}

#[test]
fn of_two_files_with_one_name_the_first_counts(rt: HostRuntime) -> Result<(), Fail> {
    let files = [("a", b"first".as_slice()), ("a", b"second".as_slice())];
    let mut shelf = shelf(rt.alloc(), &files, &[])?;
    let (result, into) = outcome(rt.alloc(), &mut shelf, "a", 100)?;
    assert_eq!(rt; result, Ok(()));
    assert_eq!(rt; into.as_slice(), b"first".as_slice());
    Ok(())
}

#[test]
fn a_call_fails_by_its_number(rt: HostRuntime) -> Result<(), Fail> {
    let mut shelf = shelf(rt.alloc(), &[("a", b"text".as_slice())], &[2, 4])?;
    for (call, want, faults) in [
        (1, Ok(()), 0),
        (2, Err(ShelfFault::Failed), 1),
        (3, Ok(()), 1),
        (4, Err(ShelfFault::Failed), 2),
    ] {
        let (result, _) = outcome(rt.alloc(), &mut shelf, "a", 100)?;
        assert_eq!(rt; result, want, "call {call}");
        assert_eq!(rt; shelf.faults(), faults, "call {call}");
    }
    Ok(())
}

#[test]
fn counts_stand_still_at_their_end(rt: HostRuntime) -> Result<(), Fail> {
    let mut shelf = shelf(rt.alloc(), &[], &[])?;
    shelf.calls = 18_446_744_073_709_551_615;
    shelf.failed = 18_446_744_073_709_551_615;
    let (result, _) = outcome(rt.alloc(), &mut shelf, "a", 100)?;
    assert_eq!(rt; result, Err(ShelfFault::Failed));
    assert_eq!(rt; shelf.calls, 18_446_744_073_709_551_615);
    assert_eq!(rt; shelf.faults(), 18_446_744_073_709_551_615);
    Ok(())
}
