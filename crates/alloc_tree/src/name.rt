//! A name that is ready to be bound.
ghost use Rattle.std.specs.Prelude.{◌≡◌, ℕ, List, IfOk, IsTrue, string_bytes};
ghost use Rattle.mem_num.specs.Name.{is_name};

use std::alloc::{AllocError, Global};
use std::marker::Model;

/// A name that is ready to be bound, seen as its bytes: 1 to 32 of `A-Z a-z 0-9 _ - .`.
#[derive(Debug, Drop)]
pub struct Name {
    text: String,
}

impl Model for Name {
    ghost Value = { List ℕ };

    ghost view = { λ name. string_bytes name.text };

    ghost invariant = { λ name. IsTrue (is_name (string_bytes name.text)) };
}

impl Name {
    pub(crate) fn new(alloc: Global, text: &str) -> Result<Name, AllocError>
        requires { IsTrue (is_name text.now) }
        ensures { IfOk result (λ name. name ≡ text.now) }
    {
        let text = String::from_str(alloc, text)?;
        Ok(Name { text })
    }

    /// The name as text. Takes no memory.
    pub fn as_str(&self) -> &str
        ensures value { result.now ≡ self.now }
        ensures well_formed { IsTrue (is_name self.now) }
    {
        self.text.as_str()
    }

    pub(crate) fn into_text(self) -> String
        ensures value { string_bytes result ≡ self }
        ensures well_formed { IsTrue (is_name self) }
    {
        self.text
    }
}
