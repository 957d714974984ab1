//! One test of a filter.
ghost use Rattle.std.specs.Prelude.{◌≡◌, ◌<◌, ◌≤◌, IfSome, length};
ghost use Rattle.toml.specs.View.{table_view, view};
ghost use Rattle.plan_text.specs.Tests.{cell_of, op_at, place_at, test_of, test_with};
ghost use Rattle.plan_text.specs.Values.{Reads};

use crate::columns::{kind_at, place_of};
use crate::keys::Keys;
use crate::op::op_of;
use crate::refused::PlanRefused;
use crate::value::{text_at, value_at};
use query_model::{Cell, Column, Kind, MOST_COLUMNS, Op, Test, Text};
use std::alloc::Global;
use toml::{Table, Value};

/// Reads a test: a table with a column, a comparison and a value, and no other key.
pub(crate) fn read_test(
    alloc: Global,
    columns: &[Column],
    value: &Value,
) -> Result<Test, PlanRefused>
    requires { length columns.now ≤ MOST_COLUMNS }
    ensures { Reads (test_of columns.now (view value.now)) result }
{
    match value.as_table() {
        Some(table) if Keys::Test.are_all_of(table) => test_with(alloc, columns, table),
        _ => Err(PlanRefused::Bad),
    }
}

fn test_with(alloc: Global, columns: &[Column], table: &Table) -> Result<Test, PlanRefused>
    requires { length columns.now ≤ MOST_COLUMNS }
    ensures { Reads (test_with columns.now (table_view table.now)) result }
{
    let Some(place) = place_at(columns, table) else {
        return Err(PlanRefused::Bad);
    };
    let Some(op) = op_at(table) else {
        return Err(PlanRefused::Bad);
    };
    let Some(kind) = kind_at(columns, place) else {
        return Err(PlanRefused::Bad);
    };
    let Some(value) = value_at(table, "value") else {
        return Err(PlanRefused::Bad);
    };
    let value = read_cell(alloc, kind, value)?;
    Ok(Test {
        column: place as u32,
        op,
        value,
    })
}

// The number of the column that a test names.
fn place_at(columns: &[Column], table: &Table) -> Option<usize>
    ensures value { result ≡ place_at columns.now (table_view table.now) }
    ensures within { IfSome result (λ place. place < length columns.now) }
{
    match text_at(table, "column") {
        Some(name) => place_of(columns, name),
        None => None,
    }
}

// The comparison that a test names.
fn op_at(table: &Table) -> Option<Op>
    ensures { result ≡ op_at (table_view table.now) }
{
    match text_at(table, "op") {
        Some(name) => op_of(name),
        None => None,
    }
}

// What a test of a column of this kind compares with.
fn read_cell(alloc: Global, kind: Kind, value: &Value) -> Result<Cell, PlanRefused>
    ensures { Reads (cell_of kind (view value.now)) result }
{
    match kind {
        Kind::Int => match value.as_integer() {
            Some(number) => Ok(Cell::Int(number)),
            None => Err(PlanRefused::Bad),
        },
        Kind::Text => match value.as_str() {
            Some(text) => Ok(Cell::Text(Text::new(alloc, text)?)),
            None => Err(PlanRefused::Bad),
        },
        Kind::Sum => Err(PlanRefused::Bad),
    }
}
