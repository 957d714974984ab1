//! What a name is.
ghost use Rattle.std.specs.Prelude.{◌≡◌};
ghost use Rattle.std.specs.List.{list_all};
ghost use Rattle.mem_num.specs.Name as spec;

/// Whether some bytes are a name, of an allocator or of a buffer: 1 to 32 of `A-Z a-z 0-9 _ - .`, a rule of this project's
/// own. Takes no memory.
#[tactic(auto, unfolding(crate::specs::Name::is_name))]
pub fn is_name(word: &[u8]) -> bool
    ensures { result ≡ spec.is_name word.now }
{
    !word.is_empty() && word.len() <= 32 && are_name_bytes(word)
}

fn are_name_bytes(word: &[u8]) -> bool
    ensures { result ≡ list_all spec.is_name_byte word.now }
{
    word.iter().all(|byte| is_name_byte(*byte))
}

/// Whether a byte is a letter, a digit, `_`, `-` or `.`, as those of a name are.
pub fn is_name_byte(byte: u8) -> bool
    ensures { result ≡ spec.is_name_byte byte }
{
    byte.is_ascii_alphanumeric() || byte == b'_' || byte == b'-' || byte == b'.'
}

#[cfg(test)]
mod tests {
    use super::*;

    #[test]
    fn a_name_has_1_to_32_bytes_of_its_alphabet(rt: HostRuntime) {
        for (word, named) in [
            (b"ROOT".as_slice(), true),
            (b"a-b_c.9", true),
            (b"AAAAAAAAAAaaaaaaaaaa0000000000zz", true),
            (b"AAAAAAAAAAaaaaaaaaaa0000000000zzz", false),
            (b"", false),
            (b"a b", false),
            (b"a\nb", false),
            (b"?", false),
            (b"\xc3\xa4", false),
        ] {
            assert_eq!(rt; is_name(word), named);
        }
    }
}
