//! Texts one after another.
ghost use Rattle.std.specs.Prelude.{◌≡◌, ◌+◌, ◌<◌, ◌∷◌, ◌++◌, [], length, map, take, get_or, IsUtf8, IfOk, OnErr, OnOk};
ghost use Rattle.csv.specs.Records.{Rising, cut_from, last_end};
ghost use Rattle.row_text.specs.Stored.{AreTexts, texts};
ghost use Rattle.query_model.specs.declared.cell.Cell.TheVariants as cell;
ghost use Rattle.query_model.specs.declared.kind.Kind.TheVariants as kind;

use query_model::MOST_TEXT_BYTES;
use row_text::CellColumn;
use std::alloc::{AllocError, Global};
use std::marker::Model;

// How many bytes of text a column has at most.
const MOST_TEXT: usize = MOST_TEXT_BYTES as usize;

/// Texts that become a column, seen as the list of its cells.
#[derive(Debug, Drop)]
pub(crate) struct Texts {
    bytes: Vec<u8>,
    ends: Vec<u32>,
}

impl Model for Texts {
    ghost use Rattle.std.specs.Prelude.{List};
    ghost use Rattle.query_model.specs.declared.cell.Cell.{Cell as AnyCell};
    ghost use Rattle.row_text.specs.Stored.{AreTexts, texts};

    ghost Value = { List AnyCell };

    ghost view = { λ a. texts a.bytes.items a.ends.items };

    ghost invariant = { λ a. AreTexts a.bytes.items a.ends.items };
}

impl Texts {
    /// No texts, with room for so many.
    pub(crate) fn with_capacity(alloc: Global, count: usize) -> Result<Texts, AllocError>
        ensures value { IfOk result (λ texts. texts ≡ []) }
    {
        let ends = Vec::with_capacity(alloc, count)?;
        Ok(Texts {
            bytes: Vec::new(alloc),
            ends,
        })
    }

    /// Puts a text at the end. Texts that are too long together to tell a place among them find no memory.
    pub(crate) fn push(&mut self, text: &[u8]) -> Result<(), AllocError>
        requires utf8 { IsUtf8 text.now }
        ensures value { OnOk result (self.new ≡ self.old ++ cell.Text text.now ∷ []) }
    {
        push_text(&mut self.bytes, &mut self.ends, text)
    }

    /// The column of the texts. Takes no memory.
    pub(crate) fn into_column(self) -> CellColumn
        ensures value { result ≡ record { kind = kind.Text; cells = self } }
    {
        let Texts { bytes, ends } = self;
        CellColumn::texts(bytes, ends)
    }
}

fn push_text(bytes: &mut Vec<u8>, ends: &mut Vec<u32>, text: &[u8]) -> Result<(), AllocError>
    requires texts { AreTexts bytes.old.items ends.old.items }
    requires utf8 { IsUtf8 text.now }
    ensures stored { AreTexts bytes.new.items ends.new.items }
    ensures value { OnOk result (texts bytes.new.items ends.new.items
        ≡ texts bytes.old.items ends.old.items ++ cell.Text text.now ∷ []) }
{
    let start = bytes.as_slice().len();
    if start > MOST_TEXT || text.len() > MOST_TEXT - start {
        return Err(AllocError);
    }
    let end = (start + text.len()) as u32;
    ends.reserve(1)?;
    bytes.extend_from_slice(text)?;
    ends.push_reserved(end);
    Ok(())
}

/// The text of a place. Takes no memory.
pub(crate) fn text_at<'a>(start: u32, ends: &[u32], bytes: &'a [u8], place: usize) -> &'a [u8]
    requires rising { Rising start ends.now (length bytes.now) }
    requires within { place < length ends.now }
    ensures value { result.now ≡ get_or (cut_from start ends.now bytes.now) place [] }
{
    let from = start_of(start, ends, place) as usize;
    let end = ends[place] as usize;
    &bytes[from..end]
}

// Where the text of a place begins: where the one before it ends.
fn start_of(start: u32, ends: &[u32], place: usize) -> u32
    requires within { place < length ends.now }
    ensures value { result ≡ last_end start (take place ends.now) }
{
    if place == 0 { start } else { ends[place - 1] }
}
