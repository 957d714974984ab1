//! A text that is a name.
ghost use Rattle.std.specs.Prelude.{◌≡◌, ℕ, List, Some, IsTrue};
ghost use Rattle.std.specs.Str.{bytes_eq};
ghost use Rattle.mem_num.specs.Name.{is_name, name_word};

use crate::name::is_name;
use std::fmt;
use std::marker::Model;

/// A name of an allocator or of a buffer, by its type: a text of 1 to 32 bytes of `A-Z a-z 0-9 _ - .`, seen as its bytes. It
/// takes no memory of its own.
#[derive(Debug, Drop)]
pub struct NameText<'a> {
    text: &'a str,
}

impl<'a> Model for NameText<'a> {
    ghost Value = { List ℕ };

    ghost view = { λ name. name.text.now };

    ghost invariant = { λ name. IsTrue (is_name name.text.now) };
}

impl<'a> NameText<'a> {
    /// The name that a word is, if it is one.
    pub fn new(word: &'a [u8]) -> Option<NameText<'a>>
        ensures { result ≡ name_word word.now }
    {
        if !is_name(word) {
            return None;
        }
        match str::from_utf8(word) {
            Ok(text) => Some(NameText { text }),
            Err(_) => None,
        }
    }

    /// The name as text. It takes no memory.
    pub fn as_str(&self) -> &'a str
        ensures value { result.now ≡ self.now }
        ensures well_formed { IsTrue (is_name self.now) }
    {
        self.text
    }

    /// Whether the name is this text. It takes no memory.
    pub fn is(&self, text: &str) -> bool
        ensures { result ≡ bytes_eq self.now text.now }
    {
        self.as_str() == text
    }

    /// Whether two names are the same. It takes no memory.
    pub fn is_same(&self, other: &NameText) -> bool
        ensures { result ≡ bytes_eq self.now other.now }
    {
        self.is(other.as_str())
    }
}

impl<'a> fmt::Display for NameText<'a> {
    ghost output = { λ name. Some name };

    fn fmt<W: fmt::Write>(&self, f: &mut fmt::Formatter<W>) -> fmt::Result {
        f.write_str(self.text)
    }
}

#[cfg(test)]
mod tests {
    use super::*;
    use std::test::Fail;

    #[test]
    fn a_name_is_compared_byte_by_byte(rt: HostRuntime) -> Result<(), Fail> {
        let root = NameText::new(b"ROOT").expect(&rt, "a name");
        let other = NameText::new(b"root").expect(&rt, "a name");
        assert_eq!(rt; root.as_str(), "ROOT");
        assert!(rt; root.is("ROOT"));
        assert!(rt; !root.is("ROO"));
        assert!(rt; root.is_same(&root));
        assert!(rt; !root.is_same(&other));
        let shown = format!(in rt.alloc(); "{root} {other:?}")?;
        assert_eq!(rt; shown.as_str(), "ROOT NameText { text: \"root\" }");
        Ok(())
    }
}
