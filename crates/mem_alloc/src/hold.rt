//! A reference that can't be copied.
ghost use Rattle.std.specs.Prelude.{◌≡◌};

use mem_num::Ref;
use std::marker::Model;

/// A reference: one counted use of a chunk, or that of the empty buffer. It can't be copied, so each is given back once. Seen as its
/// description. One that is dropped stays counted in the tree.
#[derive(Debug, Drop)]
pub struct Hold {
    of: Ref,
}

impl Model for Hold {
    ghost use Rattle.mem_num.specs.declared.buffer_ref.Ref.{Ref};

    ghost Value = { Ref };

    ghost view = { λ hold. hold.of };

    ghost invariant = { λ hold. Unit {0} };
}

impl Hold {
    pub(crate) fn new(of: Ref) -> Hold
        ensures value { result ≡ of }
    {
        Hold { of }
    }

    /// The reference that it is.
    pub fn name(&self) -> Ref
        ensures value { result ≡ self.now }
    {
        self.of
    }
}
