//! The lines of a script.
ghost use Rattle.std.specs.Prelude.{◌≡◌, [], ◌∷◌};
ghost use Rattle.std.specs.Str.{bytes_eq};
ghost use Rattle.script.specs.Words.{words_of};
ghost use Rattle.script.specs.Grammar.{line_of};

use crate::word::{first_word, number_of, reservation_of};
use mem_num::NameText;

/// A line of a script, by what it asks for, with its words.
#[derive(Debug, Drop)]
pub enum Line<'a> {
    /// `root LIMIT`: the root may hold that many bytes.
    Root {
        limit: u64,
    },
    /// `child NAME PARENT RES LIMIT`: an allocator below the one that `parent` names, with a reservation and a limit in bytes.
    Child {
        name: NameText<'a>,
        parent: NameText<'a>,
        reservation: u64,
        limit: u64,
    },
    /// `buffer NAME ALLOC SIZE`: a buffer of that many bytes, at the allocator that `at` names.
    Buffer {
        name: NameText<'a>,
        at: NameText<'a>,
        size: u64,
    },
    /// `retain NAME SOURCE ALLOC`: the allocator that `at` names refers to the source's chunk, without a charge.
    Retain {
        name: NameText<'a>,
        source: NameText<'a>,
        at: NameText<'a>,
    },
    /// `transfer NAME SOURCE ALLOC`: the same, and the charge moves there from the source.
    Transfer {
        name: NameText<'a>,
        source: NameText<'a>,
        at: NameText<'a>,
    },
    /// `slice NAME SOURCE FROM LEN`: a name for a part of the source, in bytes.
    Slice {
        name: NameText<'a>,
        source: NameText<'a>,
        start: u64,
        length: u64,
    },
    /// `release NAME`: the buffer of that name is given back.
    Release {
        name: NameText<'a>,
    },
    /// `close ALLOC`: the allocator that `at` names is closed.
    Close {
        at: NameText<'a>,
    },
    /// `headroom ALLOC`: the headroom of the allocator that `at` names is shown.
    Headroom {
        at: NameText<'a>,
    },
    /// `tree`: the tree of allocators is shown.
    Tree,
    /// `report`: the tree and the live chunks are shown.
    Report,
}

/// The line that a line of text says. It takes no memory.
pub(crate) fn line_in(text: &[u8]) -> Option<Line<'_>>
    ensures { result ≡ line_of (words_of text.now) }
{
    let (word, rest) = first_word(text)?;
    let Some((first, rest)) = first_word(rest) else {
        return alone(word);
    };
    let Some((second, rest)) = first_word(rest) else {
        return with_one(word, first);
    };
    // A line of three words says nothing.
    let (third, rest) = first_word(rest)?;
    let Some((fourth, rest)) = first_word(rest) else {
        return with_three(word, first, second, third);
    };
    match first_word(rest) {
        Some(_) => None,
        None => with_four(word, first, second, third, fourth),
    }
}

// The line of one word.
#[tactic(auto, unfolding(crate::specs::Grammar::line_of))]
fn alone<'a>(word: &'a [u8]) -> Option<Line<'a>>
    ensures { result ≡ line_of (word.now ∷ []) }
{
    if is_word(word, "tree") {
        Some(Line::Tree)
    } else if is_word(word, "report") {
        Some(Line::Report)
    } else {
        None
    }
}

// The line of a word and one more.
#[tactic(auto, unfolding(crate::specs::Grammar::line_of))]
fn with_one<'a>(word: &'a [u8], other: &'a [u8]) -> Option<Line<'a>>
    ensures { result ≡ line_of (word.now ∷ other.now ∷ []) }
{
    if is_word(word, "root") {
        let limit = number_of(other)?;
        return Some(Line::Root { limit });
    }
    let at = NameText::new(other)?;
    if is_word(word, "release") {
        Some(Line::Release { name: at })
    } else if is_word(word, "close") {
        Some(Line::Close { at })
    } else if is_word(word, "headroom") {
        Some(Line::Headroom { at })
    } else {
        None
    }
}

// The line of a word and three more, of which the first two are names.
#[tactic(auto, unfolding(crate::specs::Grammar::line_of))]
fn with_three<'a>(
    word: &'a [u8],
    name: &'a [u8],
    other: &'a [u8],
    last: &'a [u8],
) -> Option<Line<'a>>
    ensures { result ≡ line_of (word.now ∷ name.now ∷ other.now ∷ last.now ∷ []) }
{
    let name = NameText::new(name)?;
    let other = NameText::new(other)?;
    if is_word(word, "buffer") {
        let size = number_of(last)?;
        return Some(Line::Buffer {
            name,
            at: other,
            size,
        });
    }
    let at = NameText::new(last)?;
    if is_word(word, "retain") {
        Some(Line::Retain {
            name,
            source: other,
            at,
        })
    } else if is_word(word, "transfer") {
        Some(Line::Transfer {
            name,
            source: other,
            at,
        })
    } else {
        None
    }
}

// The line of a word and four more, of which the first two are names.
#[tactic(auto, unfolding(crate::specs::Grammar::line_of))]
fn with_four<'a>(
    word: &'a [u8],
    name: &'a [u8],
    other: &'a [u8],
    first: &'a [u8],
    last: &'a [u8],
) -> Option<Line<'a>>
    ensures { result ≡ line_of (word.now ∷ name.now ∷ other.now ∷ first.now ∷ last.now ∷ []) }
{
    let name = NameText::new(name)?;
    let other = NameText::new(other)?;
    if is_word(word, "child") {
        let reservation = reservation_of(first)?;
        let limit = number_of(last)?;
        return Some(Line::Child {
            name,
            parent: other,
            reservation,
            limit,
        });
    }
    if !is_word(word, "slice") {
        return None;
    }
    let start = number_of(first)?;
    let length = number_of(last)?;
    Some(Line::Slice {
        name,
        source: other,
        start,
        length,
    })
}

fn is_word(word: &[u8], text: &str) -> bool
    ensures { result ≡ bytes_eq word.now text.now }
{
    word == text.as_bytes()
}
