//! Groups of rows by a key, with the sums of their numbers.
ghost use Rattle.std.specs.Prelude.{◌≡◌, ◌<◌, ◌≤◌, ◌-◌, ◌++◌, All, ℕ, List, [], length, IfOk, OnOk};
ghost use Rattle.std.proofs.Math.ListN.{replicate};
ghost use Rattle.query_model.specs.Answer.{groups_of};
ghost use Rattle.query_model.specs.Cells.{column_of};
ghost use Rattle.query_model.specs.declared.cell.Cell.{Cell as AnyCell};
ghost use Rattle.query_model.specs.declared.cell.Cell.TheVariants as cell;
ghost use Rattle.operators.specs.Adding.{CanAdd, CanAddAll, all_added, with_cells};
ghost use Rattle.query_model.specs.Requests.{sum_kinds};
ghost use Rattle.operators.specs.Groups.{AreGroups, HaveRoom, group_columns};

use crate::keys::Keys;
use crate::sums::Sums;
use row_text::{CellColumn, Rows, RowsSlice};
use std::alloc::{AllocError, Global};
use std::marker::Model;

/// The keys of rows, and for each of some columns a sum for each key: seen as both.
#[derive(Debug, Drop)]
pub(crate) struct Groups {
    keys: Keys,
    sums: Vec<Sums>,
}

impl Model for Groups {
    ghost use Rattle.operators.specs.Groups.{GroupsView};

    ghost Value = { GroupsView };

    ghost view = { λ a. record { keys = a.keys; sums = a.sums.items } };
}

impl Groups {
    /// The groups of no rows, with so many sums each.
    pub(crate) fn new(alloc: Global, count: usize) -> Result<Groups, AllocError>
        ensures groups { (key : ℕ) (columns : List ℕ) → length columns ≡ count → IfOk result (λ made. AreGroups key columns [] made) }
    {
        Ok(Groups {
            keys: Keys::new(alloc),
            sums: no_sums(alloc, count)?,
        })
    }

    /// Adds rows: each to the group of its cell in a column, by the numbers that it has in others.
    pub(crate) fn add(
        &mut self,
        alloc: Global,
        rows: &RowsSlice<'_>,
        key: u32,
        columns: &[u32],
    ) -> Result<(), AllocError>
        requires key { key < length rows.now.kinds }
        requires within { All (λ column. column < length rows.now.kinds) columns.now }
        requires room { (before : List (List AnyCell)) × AreGroups key columns.now before self.old
            × HaveRoom key columns.now (before ++ rows.now.rows) }
        ensures groups { (before : List (List AnyCell)) → AreGroups key columns.now before self.old
            → OnOk result (AreGroups key columns.now (before ++ rows.now.rows) self.new) }
    {
        let _count = rows.len();
        let Some(column) = rows.column(key as usize) else {
            return Ok(());
        };
        let places = self.keys.places_of(alloc, &column)?;
        let count = self.keys.len();
        add_columns(
            self.sums.as_mut_slice(),
            count,
            places.as_slice(),
            rows,
            columns,
        )
    }

    /// A row for each key, in order of their bytes: the key and its sums.
    pub(crate) fn rows(&self, alloc: Global) -> Result<Rows, AllocError>
        requires room { (key : ℕ) × (columns : List ℕ) × (rows : List (List AnyCell)) × AreGroups key columns rows self.now
            × HaveRoom key columns rows }
        ensures kinds { IfOk result (λ made. made.kinds ≡ sum_kinds (length self.now.sums)) }
        ensures rows { (key : ℕ) (columns : List ℕ) (rows : List (List AnyCell)) → AreGroups key columns rows self.now
            → IfOk result (λ made. made.rows ≡ groups_of key columns rows) }
    {
        let _count = self.keys.len();
        let order = self.keys.order(alloc)?;
        let columns = columns_of(alloc, &self.keys, self.sums.as_slice(), order.as_slice())?;
        Ok(Rows::from_columns(columns, order.len()))
    }
}

// No sums for so many columns.
fn no_sums(alloc: Global, count: usize) -> Result<Vec<Sums>, AllocError>
    ensures value { IfOk result (λ sums. sums.items ≡ replicate count []) }
{
    let mut sums = Vec::with_capacity(alloc, count)?;
    'sums: for place in 0..count {
        sums.push_reserved(Sums::new(alloc));
    }
    Ok(sums)
}

// Adds the numbers of columns, each to its sums.
fn add_columns(
    sums: &mut [Sums],
    count: usize,
    places: &[usize],
    rows: &RowsSlice<'_>,
    columns: &[u32],
) -> Result<(), AllocError>
    requires within { All (λ column. column < length rows.now.kinds) columns.now }
    requires many { length sums.old ≡ length columns.now }
    requires placed { length places.now ≡ length rows.now.rows }
    requires inside { All (λ place. place < count) places.now }
    requires short { All (λ sum. length sum ≤ count) sums.old }
    requires room { CanAddAll count places.now rows.now.rows columns.now sums.old }
    ensures value { OnOk result (sums.new ≡ all_added count places.now rows.now.rows columns.now sums.old) }
{
    'columns: for place in 0..columns.len() {
        add_column(&mut sums[place], count, places, rows, columns[place])?;
    }
    Ok(())
}

// Adds the numbers of a column.
fn add_column(
    sums: &mut Sums,
    count: usize,
    places: &[usize],
    rows: &RowsSlice<'_>,
    column: u32,
) -> Result<(), AllocError>
    requires within { column < length rows.now.kinds }
    requires placed { length places.now ≡ length rows.now.rows }
    requires inside { All (λ place. place < count) places.now }
    requires short { length sums.old ≤ count }
    requires room { CanAdd (sums.old ++ replicate (count - length sums.old) cell.Null) places.now (column_of column rows.now.rows) }
    ensures value { OnOk result (sums.new
        ≡ with_cells (sums.old ++ replicate (count - length sums.old) cell.Null) places.now (column_of column rows.now.rows)) }
{
    sums.grow(count)?;
    let Some(column) = rows.column(column as usize) else {
        return Ok(());
    };
    sums.add(places, &column);
    Ok(())
}

// The columns of the groups at some places: their keys, and their sums.
fn columns_of(
    alloc: Global,
    keys: &Keys,
    sums: &[Sums],
    order: &[usize],
) -> Result<Vec<CellColumn>, AllocError>
    requires keys { All (λ place. place < length keys.now) order.now }
    requires sums { All (λ sum. length sum ≡ length keys.now) sums.now }
    ensures columns { IfOk result (λ columns. columns.items ≡ group_columns keys.now sums.now order.now) }
{
    let mut columns = Vec::new(alloc);
    columns.push(keys.texts(alloc, order)?.into_column())?;
    'sums: for sum in sums {
        columns.push(sum.gathered(alloc, order)?)?;
    }
    Ok(columns)
}
