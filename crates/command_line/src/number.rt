//! The numbers of the command line.
ghost use Rattle.std.specs.Prelude.{◌≡◌};
ghost use Rattle.std.specs.List.{list_all};
ghost use Rattle.std.specs.Char.{is_ascii_digit};
ghost use Rattle.command_line.specs.Command as spec;

/// The number from `least` to `most` that a word is.
pub(crate) fn number_in(least: u32, most: u32, word: &str) -> Option<u32>
    ensures number { result ≡ spec.number_in least most word.now }
{
    if word.is_empty() || !are_digits(word.as_bytes()) {
        return None;
    }
    let Ok(value) = word.parse::<u32>() else {
        return None;
    };
    if least <= value && value <= most {
        Some(value)
    } else {
        None
    }
}

fn are_digits(word: &[u8]) -> bool
    ensures digits { result ≡ list_all is_ascii_digit word.now }
{
    word.iter().all(|byte| byte.is_ascii_digit())
}
