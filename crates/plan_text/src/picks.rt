//! Picked columns.
ghost use Rattle.std.specs.Prelude.{◌≡◌, ◌<◌, ◌≤◌, IfSome, length, map, nat_eq};
ghost use Rattle.toml.specs.View.{view};
ghost use Rattle.query_model.specs.Fit.{are_different};
ghost use Rattle.plan_text.specs.Columns.{allows, pick_of, picks_of};
ghost use Rattle.plan_text.specs.Values.{Reads, each_of};

use crate::columns::{kind_at, place_of};
use crate::refused::PlanRefused;
use crate::value::items_between;
use query_model::{Column, Kind, MOST_COLUMNS, Picks};
use std::alloc::Global;
use toml::Value;

/// Which columns may be picked.
#[derive(Clone, Copy, Debug)]
pub(crate) enum Allowed {
    Any,
    /// Those of whole numbers.
    Ints,
}

impl Allowed {
    fn allows(self, kind: Kind) -> bool
        ensures { result ≡ allows self kind }
    {
        match self {
            Allowed::Any => true,
            Allowed::Ints => kind == Kind::Int,
        }
    }
}

/// Reads picked columns: the names of 1 to 32 columns that may be picked, all different.
pub(crate) fn read_picks(
    alloc: Global,
    which: Allowed,
    columns: &[Column],
    value: &Value,
) -> Result<Picks, PlanRefused>
    requires { length columns.now ≤ MOST_COLUMNS }
    ensures { Reads (picks_of which columns.now (view value.now)) result }
{
    let Some(items) = items_between(1, MOST_COLUMNS, value) else {
        return Err(PlanRefused::Bad);
    };
    let picks = each_pick(alloc, which, columns, items)?;
    if !are_different(picks.as_slice()) {
        return Err(PlanRefused::Bad);
    }
    Ok(picks)
}

fn each_pick(
    alloc: Global,
    which: Allowed,
    columns: &[Column],
    values: &[Value],
) -> Result<Picks, PlanRefused>
    requires { length columns.now ≤ MOST_COLUMNS }
    ensures { Reads (each_of (pick_of which columns.now) (map view values.now)) result }
{
    let mut picks = Vec::new(alloc);
    'values: for value in values {
        let Some(pick) = pick_of(which, columns, value) else {
            return Err(PlanRefused::Bad);
        };
        picks.push(pick)?;
    }
    Ok(Picks::new(picks))
}

/// The number of the column that a value names, if it may be picked. Takes no memory.
pub(crate) fn pick_of(which: Allowed, columns: &[Column], value: &Value) -> Option<u32>
    requires { length columns.now ≤ MOST_COLUMNS }
    ensures { result ≡ pick_of which columns.now (view value.now) }
{
    let place = place_of(columns, value.as_str()?)?;
    let kind = kind_at(columns, place)?;
    which.allows(kind).then_some(place as u32)
}

// Whether numbers are all different.
fn are_different(picks: &[u32]) -> bool
    ensures { result ≡ are_different nat_eq picks.now }
{
    let mut rest = picks;
    'rest: while let Some((first, more)) = rest.split_first() {
        if more.contains(first) {
            return false;
        }
        rest = more;
    }
    true
}
