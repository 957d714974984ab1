//! How a run ends.
ghost use Rattle.std.specs.Prelude.{◌≡◌};
ghost use Rattle.arrowmem.specs.Status.{code_of};

/// How a run ends, with the exit status that the caller of the program sees.
#[derive(Clone, Copy, Debug, PartialEq, Eq)]
pub enum Status {
    /// The input was read to its end, and the whole output is written.
    Done,
    /// The words of the command line have no reading.
    Usage,
    /// The input has no reading.
    Unreadable,
    /// A request would have taken an allocator past its limit.
    Limit,
    /// The input could not be read.
    ReadFault,
    /// The output could not be written.
    WriteFault,
    /// The input has more than 67,108,864 bytes.
    TooLong,
    NoMemory,
}

impl Status {
    /// The exit status.
    pub fn code(self) -> u8
        ensures { result ≡ code_of self }
    {
        match self {
            Status::Done => 0,
            Status::Usage => 2,
            Status::Unreadable => 3,
            Status::Limit => 4,
            Status::ReadFault => 5,
            Status::WriteFault => 6,
            Status::TooLong => 7,
            Status::NoMemory => 8,
        }
    }
}
