//! What a plan answers.
ghost use Rattle.std.specs.Prelude.{◌≡◌, ◌≤◌, codes, length};
ghost use Rattle.toml.specs.Data.{get_member};
ghost use Rattle.toml.specs.View.{table_view, view};
ghost use Rattle.plan_text.specs.Outputs.{group_of, output_at, select_of};
ghost use Rattle.plan_text.specs.Values.{Reads};

use crate::picks::{Allowed, pick_of, read_picks};
use crate::refused::PlanRefused;
use crate::value::value_at;
use query_model::{Column, MOST_COLUMNS, Output};
use std::alloc::Global;
use toml::{Table, Value};

/// Reads what a plan answers: picked columns, or a key and sums.
pub(crate) fn read_output(
    alloc: Global,
    columns: &[Column],
    document: &Table,
) -> Result<Output, PlanRefused>
    requires { length columns.now ≤ MOST_COLUMNS }
    ensures { Reads (output_at columns.now (table_view document.now)) result }
{
    let select = value_at(document, "select");
    let group = value_at(document, "group");
    let sums = value_at(document, "sums");
    match (select, group, sums) {
        (Some(select), None, None) => read_select(alloc, columns, select),
        (None, Some(group), Some(sums)) => read_group(alloc, columns, group, sums),
        _ => Err(PlanRefused::Bad),
    }
}

fn read_select(alloc: Global, columns: &[Column], select: &Value) -> Result<Output, PlanRefused>
    requires { length columns.now ≤ MOST_COLUMNS }
    ensures { Reads (select_of columns.now (view select.now)) result }
{
    Ok(Output::Select(read_picks(alloc, Allowed::Any, columns, select)?))
}

fn read_group(
    alloc: Global,
    columns: &[Column],
    group: &Value,
    sums: &Value,
) -> Result<Output, PlanRefused>
    requires { length columns.now ≤ MOST_COLUMNS }
    ensures { Reads (group_of columns.now (view group.now) (view sums.now)) result }
{
    let Some(key) = pick_of(Allowed::Any, columns, group) else {
        return Err(PlanRefused::Bad);
    };
    let sums = read_picks(alloc, Allowed::Ints, columns, sums)?;
    Ok(Output::Group { key, sums })
}
