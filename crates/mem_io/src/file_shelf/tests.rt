//! Files of the system: some that the test makes, and some that can't be read. An opener in memory.
ghost use Rattle.std.specs.Prelude.{[], ◌∷◌, Some};

use super::FileShelf;
use crate::open::{Open, SystemFiles};
use crate::shelf::{Shelf, ShelfFault};
use std::alloc::Global;
use std::io::ErrorKind;
use std::path::PathBuf;
use std::test::Fail;
use std::{env, fs, io, process};

/// One file in memory, which is told.
#[derive(Drop)]
struct Drawer<'a> {
    name: &'a str,
    bytes: &'a [u8],
}

impl<'a> Open for Drawer<'a> {
    type File = &'a [u8];

    ghost files = { λ drawer. Some ((drawer.name.now, drawer.bytes.now) ∷ []) };

    fn open(&self, name: &str) -> io::Result<&'a [u8]> {
        if self.name == name {
            Ok(self.bytes)
        } else {
            Err(ErrorKind::NotFound.into())
        }
    }
}

// A path that no other process and no other test uses.
fn own_path(rt: &HostRuntime, alloc: Global, name: &str) -> Result<PathBuf, Fail> {
    let number = process::id(rt.process());
    let mut path = env::temp_dir(rt)?;
    path.push(format!(in alloc; "mem_io-{number}-{name}")?)?;
    Ok(path)
}

#[test]
fn a_name_is_taken_as_it_is_given(rt: HostRuntime) {
    let mut shelf = FileShelf::new(Drawer {
        name: "plan ",
        bytes: b"rows = 64\n",
    });
    let mut into = Vec::new(rt.alloc());
    for (name, limit, want, bytes) in [
        ("plan", 10, Err(ShelfFault::Failed), b"".as_slice()),
        ("plan ", 10, Ok(()), b"rows = 64\n"),
        ("plan  ", 10, Err(ShelfFault::Failed), b""),
        ("plan ", 9, Err(ShelfFault::TooLong), b"rows = 64\n"),
    ] {
        assert_eq!(rt; shelf.read(name, &mut into, limit), want, "{name:?}");
        assert_eq!(rt; into.as_slice(), bytes, "{name:?}");
    }
    assert_eq!(rt; shelf.faults(), 2);
}

#[test]
fn a_file_is_read_to_its_end(rt: HostRuntime) -> Result<(), Fail> {
    let path = own_path(&rt, rt.alloc(), "rows")?;
    fs::write(&rt, &path, b"rows = 64\n")?;
    let mut shelf = FileShelf::new(SystemFiles(&rt));
    let mut into = Vec::from_slice(rt.alloc(), b"of the call before")?;
    for (limit, want, bytes) in [
        (10, Ok(()), b"rows = 64\n".as_slice()),
        (9, Err(ShelfFault::TooLong), b"rows = 64\n"),
        (4, Err(ShelfFault::TooLong), b"rows "),
    ] {
        let result = shelf.read(path.as_str(), &mut into, limit);
        assert_eq!(rt; result, want, "at {limit}");
        assert_eq!(rt; into.as_slice(), bytes, "at {limit}");
    }
    assert_eq!(rt; shelf.faults(), 0);
    fs::remove_file(&rt, &path)?;
    Ok(())
}

#[test]
fn an_empty_file_and_one_whose_name_ends_in_a_blank_are_read_after_a_failure(
    rt: HostRuntime,
) -> Result<(), Fail> {
    let empty = own_path(&rt, rt.alloc(), "empty")?;
    let blank = own_path(&rt, rt.alloc(), "empty ")?;
    fs::write(&rt, &empty, b"")?;
    fs::write(&rt, &blank, b"tree\n")?;
    let mut shelf = FileShelf::new(SystemFiles(&rt));
    let mut into = Vec::new(rt.alloc());
    for (name, want, bytes) in [
        (
            "/no such folder/plan.toml",
            Err(ShelfFault::Failed),
            b"".as_slice(),
        ),
        (blank.as_str(), Ok(()), b"tree\n"),
        (empty.as_str(), Ok(()), b""),
    ] {
        assert_eq!(rt; shelf.read(name, &mut into, 100), want, "{name:?}");
        assert_eq!(rt; into.as_slice(), bytes, "{name:?}");
    }
    assert_eq!(rt; shelf.faults(), 1);
    fs::remove_file(&rt, &empty)?;
    fs::remove_file(&rt, &blank)?;
    Ok(())
}

#[test]
fn a_folder_and_a_missing_file_are_failures_and_counted(rt: HostRuntime) {
    let mut shelf = FileShelf::new(SystemFiles(&rt));
    let mut into = Vec::new(rt.alloc());
    for (name, faults) in [("/", 1), ("/no such folder/plan.toml", 2), ("", 3)] {
        let result = shelf.read(name, &mut into, 100);
        assert_eq!(rt; result, Err(ShelfFault::Failed), "{name}");
        assert_eq!(rt; shelf.faults(), faults, "{name}");
    }
}
