//! What opens an input by its name.
ghost use Rattle.std.specs.Prelude.{ℕ, List, Option, None, IfOk, IfSome};
ghost use Rattle.mem_io.specs.Shelf.{file_of};
ghost use Rattle.mem_io.specs.Open.{Opens};

use std::fs::File;
use std::io;
use std::io::Read;
use std::rt::Files;

/// What opens inputs by their names. One in memory may tell them to contracts; the files of the system can't.
pub trait Open {
    type File: Read + Drop;

    /// The inputs by their names, where the opener tells them.
    ghost files: { Self → Option (List (List ℕ × List ℕ)) };

    /// The input of that very name, before its first byte.
    fn open(&self, name: &str) -> io::Result<Self::File>
        ensures { IfSome (files self.now) (λ files. IfOk result (λ file.
            Opens (file_of files name.now) (Self.File.remaining file))) };
}

/// The files of the system. A name is a path, taken as it is given.
#[derive(Drop)]
pub struct SystemFiles<R: Files + Drop>(pub R);

impl<R: Files + Drop> Open for SystemFiles<R> {
    type File = R::File;

    ghost files = { λ _. None };

    fn open(&self, name: &str) -> io::Result<R::File> {
        File::open(&self.0, name)
    }
}
