//! The columns of a plan.
ghost use Rattle.std.specs.Prelude.{◌≡◌, ◌<◌, ◌≤◌, IfOk, IfSome, length, map, option_map};
ghost use Rattle.std.specs.List.{list_any};
ghost use Rattle.toml.specs.View.{view};
ghost use Rattle.query_model.specs.Fit.{are_different, have_one_name};
ghost use Rattle.plan_text.specs.Columns.{column_of, columns_of};
ghost use Rattle.query_model.specs.Fit.{is_named, kind_at};
ghost use Rattle.plan_text.specs.Columns.{place_of};
ghost use Rattle.plan_text.specs.Values.{Reads, each_of};

use crate::column::read_column;
use crate::refused::PlanRefused;
use crate::value::items_between;
use query_model::{Column, Columns, Kind, MOST_COLUMNS};
use std::alloc::Global;
use toml::Value;

/// Reads the columns of a plan: 1 to 32, with different names.
pub(crate) fn read_columns(alloc: Global, value: &Value) -> Result<Columns, PlanRefused>
    ensures read { Reads (columns_of (view value.now)) result }
    ensures few { IfOk result (λ columns. length columns ≤ MOST_COLUMNS) }
{
    let Some(items) = items_between(1, MOST_COLUMNS, value) else {
        return Err(PlanRefused::Bad);
    };
    let columns = each_column(alloc, items)?;
    if !have_different_names(columns.as_slice()) {
        return Err(PlanRefused::Bad);
    }
    Ok(columns)
}

fn each_column(alloc: Global, values: &[Value]) -> Result<Columns, PlanRefused>
    ensures { Reads (each_of column_of (map view values.now)) result }
{
    let mut columns = Vec::new(alloc);
    'values: for value in values {
        columns.push(read_column(alloc, value)?)?;
    }
    Ok(Columns::new(columns))
}

// Whether the columns' names are all different.
fn have_different_names(columns: &[Column]) -> bool
    ensures { result ≡ are_different have_one_name columns.now }
{
    let mut rest = columns;
    'rest: while let Some((first, more)) = rest.split_first() {
        if has_name(more, first.name.as_str()) {
            return false;
        }
        rest = more;
    }
    true
}

fn has_name(columns: &[Column], name: &str) -> bool
    ensures { result ≡ list_any (is_named name.now) columns.now }
{
    columns.iter().any(|column| column.name.as_str() == name)
}

/// The number of the column of a name, from 0 on. Takes no memory.
pub(crate) fn place_of(columns: &[Column], name: &str) -> Option<usize>
    ensures value { result ≡ place_of columns.now name.now }
    ensures within { IfSome result (λ place. place < length columns.now) }
{
    columns
        .iter()
        .position(|column| column.name.as_str() == name)
}

/// The kind of the column of a number. Takes no memory.
pub(crate) fn kind_at(columns: &[Column], place: usize) -> Option<Kind>
    ensures { result ≡ kind_at columns.now place }
{
    match columns.get(place) {
        Some(column) => Some(column.kind),
        None => None,
    }
}
