//! One column of a plan.
ghost use Rattle.std.specs.Prelude.{◌≡◌};
ghost use Rattle.toml.specs.View.{view};
ghost use Rattle.plan_text.specs.Columns.{column_in, column_named, column_of};
ghost use Rattle.plan_text.specs.Values.{Reads};

use crate::refused::PlanRefused;
use mem_num::NameText;
use query_model::{Column, Kind, Text};
use std::alloc::Global;
use toml::Value;

/// Reads a column: a text NAME:int or NAME:text.
pub(crate) fn read_column(alloc: Global, value: &Value) -> Result<Column, PlanRefused>
    ensures { Reads (column_of (view value.now)) result }
{
    match value.as_str() {
        Some(word) => column_in(alloc, word.as_bytes()),
        None => Err(PlanRefused::Bad),
    }
}

fn column_in(alloc: Global, word: &[u8]) -> Result<Column, PlanRefused>
    ensures { Reads (column_in word.now) result }
{
    if let Some(name) = word.strip_suffix(b":int") {
        return column_named(alloc, Kind::Int, name);
    }
    if let Some(name) = word.strip_suffix(b":text") {
        return column_named(alloc, Kind::Text, name);
    }
    Err(PlanRefused::Bad)
}

// A column of this kind, where its name is one.
fn column_named(alloc: Global, kind: Kind, word: &[u8]) -> Result<Column, PlanRefused>
    ensures { Reads (column_named kind word.now) result }
{
    let Some(name) = NameText::new(word) else {
        return Err(PlanRefused::Bad);
    };
    let name = Text::new(alloc, name.as_str())?;
    Ok(Column { name, kind })
}
