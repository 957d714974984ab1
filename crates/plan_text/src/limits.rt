//! The limits and the reservations of a plan.
ghost use Rattle.std.specs.Prelude.{◌≡◌, option_map};
ghost use Rattle.toml.specs.View.{table_view, view};
ghost use Rattle.plan_text.specs.Keys.{keys_of};
ghost use Rattle.query_model.specs.Fit.{are_covered, are_within};
ghost use Rattle.plan_text.specs.Plans.{limits_of, numbers_in, reserves_of};
ghost use Rattle.plan_text.specs.Values.{number_of, numbers_at};
ghost use Rattle.toml.specs.Data.{get_member};

use crate::keys::Keys;
use crate::number::number_of;
use crate::value::value_at;
use mem_num::{MAX_LIMIT, MAX_RESERVATION};
use toml::{Table, Value};

/// The limits of the root and the allocators below it, in the order of the keys; the greatest where there is none. Takes no memory.
#[tactic(auto, unfolding(crate::specs::Keys::member_keys, crate::specs::Values::numbers_at))]
pub(crate) fn limits_of(value: Option<&Value>) -> Option<[u64; 6]>
    ensures { result ≡ limits_of (option_map (λ v. view v.now) value.entry) }
{
    match value {
        None => Some([MAX_LIMIT; 6]),
        Some(value) => limits_in(value.as_table()?),
    }
}

/// The reservations of the allocators below the root, in the order of the keys; 0 where there is none. Takes no memory.
#[tactic(auto, unfolding(crate::specs::Keys::member_keys, crate::specs::Values::numbers_at))]
pub(crate) fn reserves_of(value: Option<&Value>) -> Option<[u64; 5]>
    ensures { result ≡ reserves_of (option_map (λ v. view v.now) value.entry) }
{
    match value {
        None => Some([0; 5]),
        Some(value) => reserves_in(value.as_table()?),
    }
}

#[tactic(auto, unfolding(crate::specs::Values::numbers_at))]
fn limits_in(table: &Table) -> Option<[u64; 6]>
    ensures { result ≡ numbers_in MAX_LIMIT MAX_LIMIT Keys.Limits (table_view table.now) }
{
    if !Keys::Limits.are_all_of(table) {
        return None;
    }
    let root = limit_at(table, "root")?;
    let scan = limit_at(table, "scan")?;
    let filter = limit_at(table, "filter")?;
    let project = limit_at(table, "project")?;
    let sums = limit_at(table, "sums")?;
    let outcome = limit_at(table, "result")?;
    Some([root, scan, filter, project, sums, outcome])
}

#[tactic(auto, unfolding(crate::specs::Values::numbers_at))]
fn reserves_in(table: &Table) -> Option<[u64; 5]>
    ensures { result ≡ numbers_in MAX_RESERVATION 0 Keys.Reserve (table_view table.now) }
{
    if !Keys::Reserve.are_all_of(table) {
        return None;
    }
    let scan = reserve_at(table, "scan")?;
    let filter = reserve_at(table, "filter")?;
    let project = reserve_at(table, "project")?;
    let sums = reserve_at(table, "sums")?;
    let outcome = reserve_at(table, "result")?;
    Some([scan, filter, project, sums, outcome])
}

fn limit_at(table: &Table, key: &str) -> Option<u64>
    ensures { result ≡ number_of 0 MAX_LIMIT MAX_LIMIT (get_member key.now (table_view table.now)) }
{
    number_of(0, MAX_LIMIT, MAX_LIMIT, value_at(table, key))
}

fn reserve_at(table: &Table, key: &str) -> Option<u64>
    ensures { result ≡ number_of 0 MAX_RESERVATION 0 (get_member key.now (table_view table.now)) }
{
    number_of(0, MAX_RESERVATION, 0, value_at(table, key))
}

/// Whether each reservation is at most the limit of its allocator. Takes no memory.
pub(crate) fn are_covered(limits: &[u64; 6], reserves: &[u64; 5]) -> bool
    ensures { result ≡ are_covered limits.now reserves.now }
{
    are_within(&limits[1..], reserves)
}

fn are_within(limits: &[u64], reserves: &[u64]) -> bool
    ensures { result ≡ are_within limits.now reserves.now }
{
    reserves
        .iter()
        .zip(limits)
        .all(|(reserve, limit)| reserve <= limit)
}
