//! A request past the largest buffer.
ghost use Rattle.std.specs.Prelude.{Some};

use std::fmt;

/// A request, in bytes, whose rounded size is above [`crate::LARGEST`].
#[derive(Clone, Copy, Debug, PartialEq, Eq)]
pub struct TooLarge {
    pub request: u64,
}

/// As `toolarge 1073741825`.
impl fmt::Display for TooLarge {
    ghost use Rattle.mem_num.specs.Text.{too_large_text};

    ghost output = { λ refused. Some (too_large_text refused.request) };

    fn fmt<W: fmt::Write>(&self, f: &mut fmt::Formatter<W>) -> fmt::Result {
        let request = self.request;
        write!(f, "toolarge {request}")
    }
}
