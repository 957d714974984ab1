//! The words of a line, and the names and numbers among them.
ghost use Rattle.std.specs.Prelude.{◌≡◌, ◌<◌, ◌∷◌, [], length, position, IfSome};
ghost use Rattle.std.specs.List.{list_all};
ghost use Rattle.std.specs.Char.{is_ascii_digit};
ghost use Rattle.script.specs.Words.{is_blank, is_skipped};
ghost use Rattle.script.specs.Words.{number_of, reservation_of, words_of, words_with};

use mem_num::{MAX_LIMIT, MAX_RESERVATION};

/// Whether a line is skipped. Its words are not looked for.
pub(crate) fn is_skipped(line: &[u8]) -> bool
    ensures { result ≡ is_skipped (words_of line.now) }
{
    match line.iter().find(|byte| !is_blank(**byte)) {
        Some(first) => *first == b'#',
        None => true,
    }
}

/// The first word of a line, and what follows it.
pub(crate) fn first_word(line: &[u8]) -> Option<(&[u8], &[u8])>
    ensures some { IfSome result (λ parts. words_of line.now ≡ parts.0.now ∷ words_of parts.1.now) }
    ensures none { result ≡ None → words_of line.now ≡ [] }
{
    let mut rest = line;
    while !rest.is_empty() {
        let (part, more) = first_part(rest);
        if !part.is_empty() {
            return Some((part, more));
        }
        rest = more;
    }
    None
}

// What stands before the first blank, and what follows it.
fn first_part(line: &[u8]) -> (&[u8], &[u8])
    requires { 0 < length line.now }
    ensures words { words_of line.now ≡ words_with result.0.now (words_of result.1.now) }
    ensures shorter { length result.1.now < length line.now }
{
    match blank(line) {
        Some(end) => (&line[..end], &line[end + 1..]),
        None => (line, &[]),
    }
}

fn blank(line: &[u8]) -> Option<usize>
    ensures { result ≡ position is_blank line.now }
{
    line.iter().position(|byte| is_blank(*byte))
}

/// The number that a word is.
#[tactic(auto, unfolding(crate::specs::Words::is_numeral))]
pub(crate) fn number_of(word: &[u8]) -> Option<u64>
    ensures { result ≡ number_of word.now }
{
    if word.is_empty() || !are_digits(word) {
        return None;
    }
    let Ok(text) = str::from_utf8(word) else {
        return None;
    };
    let Ok(value) = text.parse::<u64>() else {
        return None;
    };
    if value <= MAX_LIMIT {
        Some(value)
    } else {
        None
    }
}

/// The reservation that a word is.
pub(crate) fn reservation_of(word: &[u8]) -> Option<u64>
    ensures { result ≡ reservation_of word.now }
{
    let value = number_of(word)?;
    if value <= MAX_RESERVATION {
        Some(value)
    } else {
        None
    }
}

fn is_blank(byte: u8) -> bool
    ensures { result ≡ is_blank byte }
{
    byte == b' ' || byte == b'\t'
}

fn are_digits(word: &[u8]) -> bool
    ensures { result ≡ list_all is_ascii_digit word.now }
{
    word.iter().all(|byte| byte.is_ascii_digit())
}
