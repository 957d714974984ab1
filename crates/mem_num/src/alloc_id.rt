//! The number of an allocator.
ghost use Rattle.std.specs.Prelude.{◌≡◌, ◌↔◌, IsTrue, Some};
ghost use Rattle.mem_num.specs.Text.{alloc_id_text};

use std::fmt;

/// An allocator, by the number that it was given when it was made. The root is number 0; no number is given twice.
#[derive(Clone, Copy, Debug, PartialEq, Eq)]
pub struct AllocId(pub u32);

impl AllocId {
    /// The root of every tree.
    pub const ROOT: AllocId = AllocId(0);

    /// Whether it is the root.
    pub fn is_root(self) -> bool
        ensures { IsTrue result ↔ (self.0 ≡ 0) }
    {
        self == AllocId::ROOT
    }
}

/// A number sign and the number, as `#3`.
impl fmt::Display for AllocId {
    ghost output = { λ id. Some (alloc_id_text id.0) };

    fn fmt<W: fmt::Write>(&self, f: &mut fmt::Formatter<W>) -> fmt::Result {
        let number = self.0;
        write!(f, "#{number}")
    }
}
