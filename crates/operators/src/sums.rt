//! The sums of groups.
ghost use Rattle.std.specs.Prelude.{◌≡◌, ◌≤◌, ◌<◌, ◌-◌, ◌++◌, ◌+ℤ◌, All, [], get_or, length, map, slice_set, IfOk, OnOk};
ghost use Rattle.std.proofs.Math.ListN.{replicate};
ghost use Rattle.query_model.specs.Cells.{IsOfKind};
ghost use Rattle.query_model.specs.declared.cell.Cell.TheVariants as cell;
ghost use Rattle.query_model.specs.declared.kind.Kind.TheVariants as kind;
ghost use Rattle.row_text.specs.Slices.{IsSlice, cells_of_slice};
ghost use Rattle.row_text.specs.Stored.{numbers};
ghost use Rattle.operators.specs.Adding.{CanAdd, with_cells, with_number};

use crate::gathering::gathered;
use row_text::{CellColumn, ColumnSlice};
use std::alloc::{AllocError, Global};
use std::marker::Model;

/// A sum for each group, or null where no number was added: seen as a list of cells.
#[derive(Debug, Drop)]
pub(crate) struct Sums {
    values: Vec<i128>,
    known: Vec<bool>,
}

impl Model for Sums {
    ghost use Rattle.std.specs.Prelude.{◌≡◌, List, length};
    ghost use Rattle.query_model.specs.declared.cell.Cell.{Cell as AnyCell};
    ghost use Rattle.query_model.specs.declared.cell.Cell.TheVariants as cell;
    ghost use Rattle.row_text.specs.Stored.{numbers};

    ghost Value = { List AnyCell };

    ghost view = { λ a. numbers cell.Sum a.values.items a.known.items };

    ghost invariant = { λ a. length a.values.items ≡ length a.known.items };
}

impl Sums {
    /// No sums. Takes no memory.
    pub(crate) fn new(alloc: Global) -> Sums
        ensures value { result ≡ [] }
    {
        Sums {
            values: Vec::new(alloc),
            known: Vec::new(alloc),
        }
    }

    /// Has a sum for each of so many groups: those of new ones are null.
    pub(crate) fn grow(&mut self, count: usize) -> Result<(), AllocError>
        requires more { length self.old ≤ count }
        ensures value { OnOk result (self.new ≡ self.old ++ replicate (count - length self.old) cell.Null) }
    {
        grow_both(&mut self.values, &mut self.known, count)
    }

    /// Adds each number of a column to the sum at its place. Takes no memory.
    pub(crate) fn add(&mut self, places: &[usize], column: &ColumnSlice<'_>)
        requires slices { IsSlice column.now }
        requires many { length places.now ≡ length (cells_of_slice column.now) }
        requires within { All (λ place. place < length self.old) places.now }
        requires room { CanAdd self.old places.now (cells_of_slice column.now) }
        ensures value { self.new ≡ with_cells self.old places.now (cells_of_slice column.now) }
    {
        match column {
            ColumnSlice::Ints { values, known } => add_ints(
                self.values.as_mut_slice(),
                self.known.as_mut_slice(),
                places,
                values,
                known,
            ),
            ColumnSlice::Sums { values, known } => add_sums(
                self.values.as_mut_slice(),
                self.known.as_mut_slice(),
                places,
                values,
                known,
            ),
            ColumnSlice::Texts { .. } => (),
        }
    }

    /// The sums at some places as a column.
    pub(crate) fn gathered(&self, alloc: Global, places: &[usize]) -> Result<CellColumn, AllocError>
        requires within { All (λ place. place < length self.now) places.now }
        ensures value { IfOk result (λ made. made ≡ record {
          kind = kind.Sum;
          cells = map (λ place. get_or self.now place cell.Null) places.now;
        }) }
    {
        let values = gathered(alloc, self.values.as_slice(), places)?;
        let known = gathered(alloc, self.known.as_slice(), places)?;
        Ok(CellColumn::sums(values, known))
    }
}

// Fills both up to so many elements, with numbers that aren't known.
fn grow_both(values: &mut Vec<i128>, known: &mut Vec<bool>, count: usize) -> Result<(), AllocError>
    requires marked { length values.old.items ≡ length known.old.items }
    requires more { length values.old.items ≤ count }
    ensures marked { length values.new.items ≡ length known.new.items }
    ensures value { OnOk result (numbers cell.Sum values.new.items known.new.items
        ≡ numbers cell.Sum values.old.items known.old.items ++ replicate (count - length values.old.items) cell.Null) }
{
    known.reserve(count - known.len())?;
    values.resize(count, 0)?;
    known.resize(count, false).unwrap();
    Ok(())
}

// Adds numbers of 64 bits.
fn add_ints(sums: &mut [i128], seen: &mut [bool], places: &[usize], values: &[i64], known: &[bool])
    requires marked { length sums.old ≡ length seen.old }
    requires many { length places.now ≡ length values.now }
    requires both { length values.now ≡ length known.now }
    requires within { All (λ place. place < length sums.old) places.now }
    requires room { CanAdd (numbers cell.Sum sums.old seen.old) places.now (numbers cell.Int values.now known.now) }
    ensures value { numbers cell.Sum sums.new seen.new
        ≡ with_cells (numbers cell.Sum sums.old seen.old) places.now (numbers cell.Int values.now known.now) }
{
    'rows: for row in 0..places.len() {
        if known[row] {
            add_number(sums, seen, places[row], values[row] as i128);
        }
    }
}

// Adds numbers of 128 bits.
fn add_sums(sums: &mut [i128], seen: &mut [bool], places: &[usize], values: &[i128], known: &[bool])
    requires marked { length sums.old ≡ length seen.old }
    requires many { length places.now ≡ length values.now }
    requires both { length values.now ≡ length known.now }
    requires within { All (λ place. place < length sums.old) places.now }
    requires room { CanAdd (numbers cell.Sum sums.old seen.old) places.now (numbers cell.Sum values.now known.now) }
    ensures value { numbers cell.Sum sums.new seen.new
        ≡ with_cells (numbers cell.Sum sums.old seen.old) places.now (numbers cell.Sum values.now known.now) }
{
    'rows: for row in 0..places.len() {
        if known[row] {
            add_number(sums, seen, places[row], values[row]);
        }
    }
}

// Adds a number to the sum of a place.
fn add_number(sums: &mut [i128], seen: &mut [bool], place: usize, number: i128)
    requires marked { length sums.old ≡ length seen.old }
    requires within { place < length sums.old }
    requires room { IsOfKind kind.Sum (with_number (get_or (numbers cell.Sum sums.old seen.old) place cell.Null) number) }
    ensures value { numbers cell.Sum sums.new seen.new ≡ slice_set (numbers cell.Sum sums.old seen.old) place
        (with_number (get_or (numbers cell.Sum sums.old seen.old) place cell.Null) number) }
{
    if seen[place] {
        sums[place] += number;
    } else {
        sums[place] = number;
        seen[place] = true;
    }
}
