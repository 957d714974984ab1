//! Columns of cells, as they lie in memory.
ghost use Rattle.std.specs.Prelude.{◌≡◌, ◌≤◌, ◌<◌, ◌+◌, ◌++◌, ◌∷◌, [], false, length, get_or, if◌then◌else◌, take, drop, nat_lt, IfOk};
ghost use Rattle.std.specs.Prelude.{OnErr, OnOk};
ghost use Rattle.std.specs.List.{list_all};
ghost use Rattle.std.specs.Str.{is_utf8};
ghost use Rattle.csv.specs.Records.{cut_from, fields_of, last_end, partial_of};
ghost use Rattle.query_model.specs.Cells.{printed};
ghost use Rattle.row_text.specs.Fields.{cell_of};
ghost use Rattle.row_text.specs.Slices.{IsSlice, cells_of_slice, kind_of};
ghost use Rattle.row_text.specs.Stored.{AreTexts, TakesField, numbers, texts};
ghost use Rattle.query_model.specs.declared.cell.Cell.TheVariants as cell;
ghost use Rattle.query_model.specs.declared.kind.Kind.TheVariants as a;

use crate::column_slice::ColumnSlice;
use crate::number::read_int;
use csv::ByteRecord;
use itoa::{Buffer, Integer};
use query_model::{Cell, Kind, MOST_TEXT_BYTES, Text};
use std::alloc::{AllocError, Global};
use std::marker::Model;

// How many bytes of text a column has at most. A table in a file has fewer by far.
const MOST_TEXT: usize = MOST_TEXT_BYTES as usize;

// Up to how many bytes of a text are copied one by one.
const SHORT: usize = 4;

// Numbers lie beside marks that say which are known. Texts lie one after another, beside the places where they end.
#[derive(Debug, Drop)]
enum Stored {
    Ints(Vec<i64>, Vec<bool>),
    Sums(Vec<i128>, Vec<bool>),
    Texts(Vec<u8>, Vec<u32>),
}

/// A column of cells of one kind, seen as that kind and its cells.
#[derive(Debug, Drop)]
pub struct CellColumn {
    stored: Stored,
}

impl Model for CellColumn {
    ghost use Rattle.row_text.specs.Stored.{ColumnCells, IsStored, column_of};

    ghost Value = { ColumnCells };

    ghost view = { λ a. column_of a.stored };

    ghost invariant = { λ a. IsStored a.stored };
}

impl CellColumn {
    /// A column without cells. Takes no memory.
    #[tactic(auto, unfolding(crate::specs::Stored::numbers))]
    pub fn new(alloc: Global, kind: Kind) -> CellColumn
        ensures { result ≡ record { kind = kind; cells = [] } }
    {
        let stored = match kind {
            Kind::Int => Stored::Ints(Vec::new(alloc), Vec::new(alloc)),
            Kind::Sum => Stored::Sums(Vec::new(alloc), Vec::new(alloc)),
            Kind::Text => Stored::Texts(Vec::new(alloc), Vec::new(alloc)),
        };
        CellColumn { stored }
    }

    /// A column of numbers, each beside a mark that says whether it is known: one that isn't is null. Takes no memory.
    pub fn ints(values: Vec<i64>, known: Vec<bool>) -> CellColumn
        requires marked { length values.items ≡ length known.items }
        ensures value { result ≡ record { kind = a.Int; cells = numbers cell.Int values.items known.items } }
    {
        CellColumn {
            stored: Stored::Ints(values, known),
        }
    }

    /// The same of sums.
    pub fn sums(values: Vec<i128>, known: Vec<bool>) -> CellColumn
        requires marked { length values.items ≡ length known.items }
        ensures value { result ≡ record { kind = a.Sum; cells = numbers cell.Sum values.items known.items } }
    {
        CellColumn {
            stored: Stored::Sums(values, known),
        }
    }

    /// A column of texts that lie one after another: the first begins at 0, and each ends where its number says. Takes no memory.
    pub fn texts(bytes: Vec<u8>, ends: Vec<u32>) -> CellColumn
        requires texts { AreTexts bytes.items ends.items }
        ensures value { result ≡ record { kind = a.Text; cells = texts bytes.items ends.items } }
    {
        CellColumn {
            stored: Stored::Texts(bytes, ends),
        }
    }

    /// Puts the cell that a field is at the end, where it is one, and says whether it is.
    #[inline(always)]
    pub(crate) fn push_field(&mut self, field: &[u8]) -> Result<bool, AllocError>
        ensures kind { self.new.kind ≡ self.old.kind }
        ensures cells { IfOk result (TakesField self.old.kind field.now self.old.cells self.new.cells) }
    {
        match &mut self.stored {
            Stored::Ints(values, known) => push_int(values, known, field),
            Stored::Sums(_, _) => Ok(false),
            Stored::Texts(bytes, ends) => push_text(bytes, ends, field),
        }
    }

    /// Puts the cell of a place at the end of a record, as it is printed.
    pub(crate) fn print(&self, place: usize, fields: &mut ByteRecord) -> Result<(), AllocError>
        requires within { place < length self.now.cells }
        requires whole { partial_of fields.old ≡ [] }
        ensures fields { OnOk result (fields_of fields.new
            ≡ fields_of fields.old ++ printed (get_or self.now.cells place cell.Null) ∷ []) }
        ensures partial { OnOk result (partial_of fields.new ≡ []) }
    {
        match &self.stored {
            Stored::Ints(values, known) => {
                print_number(values.as_slice(), known.as_slice(), place, fields)
            }
            Stored::Sums(values, known) => {
                print_number(values.as_slice(), known.as_slice(), place, fields)
            }
            Stored::Texts(bytes, ends) => {
                fields.push_field(text_at(bytes.as_slice(), ends.as_slice(), place))
            }
        }
    }

    /// The cell of a place, by itself.
    pub(crate) fn cell(&self, alloc: Global, place: usize) -> Result<Cell, AllocError>
        requires { place < length self.now.cells }
        ensures { IfOk result (λ made. made ≡ get_or self.now.cells place cell.Null) }
    {
        match &self.stored {
            Stored::Ints(values, known) => {
                Ok(int_at(values.as_slice(), known.as_slice(), place))
            }
            Stored::Sums(values, known) => {
                Ok(sum_at(values.as_slice(), known.as_slice(), place))
            }
            Stored::Texts(bytes, ends) => {
                text_cell(alloc, text_at(bytes.as_slice(), ends.as_slice(), place))
            }
        }
    }

    /// So many of the cells, from a place on.
    pub(crate) fn part(&self, from: usize, len: usize) -> ColumnSlice<'_>
        requires { from + len ≤ length self.now.cells }
        ensures kind { kind_of result ≡ self.now.kind }
        ensures cells { cells_of_slice result ≡ take len (drop from self.now.cells) }
        ensures slices { IsSlice result }
    {
        match &self.stored {
            Stored::Ints(values, known) => ColumnSlice::Ints {
                values: part_of(values.as_slice(), from, len),
                known: part_of(known.as_slice(), from, len),
            },
            Stored::Sums(values, known) => ColumnSlice::Sums {
                values: part_of(values.as_slice(), from, len),
                known: part_of(known.as_slice(), from, len),
            },
            Stored::Texts(bytes, ends) => ColumnSlice::Texts {
                start: start_of(ends.as_slice(), from),
                ends: part_of(ends.as_slice(), from, len),
                bytes: bytes.as_slice(),
            },
        }
    }
}

// Puts the number of a place at the end of a record, as it is printed: one that isn't known as no bytes.
fn print_number<I: Integer>(
    values: &[I],
    known: &[bool],
    place: usize,
    fields: &mut ByteRecord,
) -> Result<(), AllocError>
    requires within { place < length values.now }
    requires marked { length values.now ≡ length known.now }
    requires whole { partial_of fields.old ≡ [] }
    ensures fields { (d : I) → OnOk result (fields_of fields.new
        ≡ fields_of fields.old ++ (if get_or known.now place false then I.text (get_or values.now place d) else []) ∷ []) }
    ensures partial { OnOk result (partial_of fields.new ≡ []) }
{
    if !known[place] {
        return fields.push_field(b"");
    }
    let mut buffer = Buffer::new();
    fields.push_field(buffer.format(values[place]).as_bytes())
}

// The number of a place as a cell.
fn int_at(values: &[i64], known: &[bool], place: usize) -> Cell
    requires within { place < length values.now }
    requires marked { length values.now ≡ length known.now }
    ensures { result ≡ get_or (numbers cell.Int values.now known.now) place cell.Null }
{
    if known[place] {
        Cell::Int(values[place])
    } else {
        Cell::Null
    }
}

// The same of a sum.
fn sum_at(values: &[i128], known: &[bool], place: usize) -> Cell
    requires within { place < length values.now }
    requires marked { length values.now ≡ length known.now }
    ensures { result ≡ get_or (numbers cell.Sum values.now known.now) place cell.Null }
{
    if known[place] {
        Cell::Sum(values[place])
    } else {
        Cell::Null
    }
}

// A copy of a text as a cell.
fn text_cell(alloc: Global, bytes: &[u8]) -> Result<Cell, AllocError>
    ensures { IfOk result (λ made. made ≡ cell.Text bytes.now) }
{
    match str::from_utf8(bytes) {
        Ok(text) => Ok(Cell::Text(Text::new(alloc, text)?)),
        Err(_) => Err(AllocError),
    }
}

// The text of a place.
fn text_at<'a>(bytes: &'a [u8], ends: &[u32], place: usize) -> &'a [u8]
    requires texts { AreTexts bytes.now ends.now }
    requires within { place < length ends.now }
    ensures { result.now ≡ get_or (cut_from 0 ends.now bytes.now) place [] }
{
    let start = start_of(ends, place) as usize;
    let end = ends[place] as usize;
    &bytes[start..end]
}

// So many elements, from a place on.
fn part_of<T>(items: &[T], from: usize, len: usize) -> &[T]
    requires { from + len ≤ length items.now }
    ensures { result.now ≡ take len (drop from items.now) }
{
    &items[from..][..len]
}

// Where the text of a place begins: where the one before it ends.
fn start_of(ends: &[u32], place: usize) -> u32
    requires { place ≤ length ends.now }
    ensures { result ≡ last_end 0 (take place ends.now) }
{
    if place == 0 { 0 } else { ends[place - 1] }
}

// Whether bytes are UTF-8. Most texts are ASCII, and short.
fn is_utf8(field: &[u8]) -> bool
    ensures { result ≡ is_utf8 field.now }
{
    if are_ascii(field) {
        return true;
    }
    match str::from_utf8(field) {
        Ok(_) => true,
        Err(_) => false,
    }
}

fn are_ascii(field: &[u8]) -> bool
    ensures { result ≡ list_all (λ byte. nat_lt byte 128) field.now }
{
    field.iter().all(|byte| *byte < 128)
}

fn push_int(values: &mut Vec<i64>, known: &mut Vec<bool>, field: &[u8]) -> Result<bool, AllocError>
    requires { length values.old.items ≡ length known.old.items }
    ensures stored { length values.new.items ≡ length known.new.items }
    ensures cells { IfOk result (TakesField a.Int field.now
        (numbers cell.Int values.old.items known.old.items) (numbers cell.Int values.new.items known.new.items)) }
{
    if field.is_empty() {
        push_number(values, known, 0, false)?;
        return Ok(true);
    }
    let Some(value) = read_int(field) else {
        return Ok(false);
    };
    push_number(values, known, value, true)?;
    Ok(true)
}

// Puts a number at the end, with its mark.
fn push_number(
    values: &mut Vec<i64>,
    known: &mut Vec<bool>,
    value: i64,
    mark: bool,
) -> Result<(), AllocError>
    requires { length values.old.items ≡ length known.old.items }
    ensures stored { length values.new.items ≡ length known.new.items }
    ensures values { OnOk result (values.new.items ≡ values.old.items ++ value ∷ []) }
    ensures known { OnOk result (known.new.items ≡ known.old.items ++ mark ∷ []) }
{
    known.reserve(1)?;
    values.push(value)?;
    known.push_reserved(mark);
    Ok(())
}

fn push_text(bytes: &mut Vec<u8>, ends: &mut Vec<u32>, field: &[u8]) -> Result<bool, AllocError>
    requires { AreTexts bytes.old.items ends.old.items }
    ensures stored { AreTexts bytes.new.items ends.new.items }
    ensures cells { IfOk result (TakesField a.Text field.now
        (texts bytes.old.items ends.old.items) (texts bytes.new.items ends.new.items)) }
{
    if !is_utf8(field) {
        return Ok(false);
    }
    let start = bytes.as_slice().len();
    if start > MOST_TEXT || field.len() > MOST_TEXT - start {
        return Err(AllocError);
    }
    let end = (start + field.len()) as u32;
    ends.reserve(1)?;
    append(bytes, field)?;
    ends.push_reserved(end);
    Ok(true)
}

// Copies bytes to the end. Few are copied one by one: they were just written so, and a wider read of them would wait.
fn append(bytes: &mut Vec<u8>, field: &[u8]) -> Result<(), AllocError>
    ensures items { OnOk result (bytes.new.items ≡ bytes.old.items ++ field.now) }
    ensures err { OnErr result (bytes.new.items ≡ bytes.old.items) }
{
    if field.len() > SHORT {
        return bytes.extend_from_slice(field);
    }
    bytes.reserve(field.len())?;
    'field: for byte in field {
        bytes.push_reserved(*byte);
    }
    Ok(())
}
