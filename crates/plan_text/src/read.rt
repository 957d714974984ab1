//! Bytes are read as a plan.
ghost use Rattle.std.specs.Prelude.{◌≡◌, IfOk};
ghost use Rattle.toml.specs.View.{table_view};
ghost use Rattle.query_model.specs.declared.plan.Plan.{Plan as AnyPlan};
ghost use Rattle.plan_text.specs.declared.refused.PlanRefused.TheVariants.{Bad};
ghost use Rattle.plan_text.specs.Plans.{IsPlan, IsPlanText};

use crate::columns::read_columns;
use crate::filter::read_tests;
use crate::keys::Keys;
use crate::limits::{are_covered, limits_of, reserves_of};
use crate::number::batch_of;
use crate::output::read_output;
use crate::refused::PlanRefused;
use crate::value::value_at;
use query_model::Plan;
use std::alloc::Global;
use toml::Table;

/// Reads a plan: a document of TOML with the keys of a plan and no other, at each level.
pub fn read_plan(alloc: Global, bytes: &[u8]) -> Result<Plan, PlanRefused>
    ensures read { IfOk result (IsPlanText bytes.now) }
    ensures bad { result ≡ Err Bad → (plan : AnyPlan) → IsPlanText bytes.now plan → ⊥ }
{
    match toml::table_from_slice(alloc, bytes) {
        Ok(document) => plan_in(alloc, &document),
        Err(refused) if refused.is_memory() => Err(PlanRefused::NoMemory),
        Err(_) => Err(PlanRefused::Bad),
    }
}

fn plan_in(alloc: Global, document: &Table) -> Result<Plan, PlanRefused>
    ensures read { IfOk result (IsPlan (table_view document.now)) }
    ensures bad { result ≡ Err Bad → (plan : AnyPlan) → IsPlan (table_view document.now) plan → ⊥ }
{
    if !Keys::Plan.are_all_of(document) {
        return Err(PlanRefused::Bad);
    }
    let Some(columns) = value_at(document, "columns") else {
        return Err(PlanRefused::Bad);
    };
    let columns = read_columns(alloc, columns)?;
    let Some(batch) = batch_of(value_at(document, "batch")) else {
        return Err(PlanRefused::Bad);
    };
    let tests = read_tests(alloc, columns.as_slice(), value_at(document, "filter"))?;
    let output = read_output(alloc, columns.as_slice(), document)?;
    let Some(limits) = limits_of(value_at(document, "limits")) else {
        return Err(PlanRefused::Bad);
    };
    let Some(reserves) = reserves_of(value_at(document, "reserve")) else {
        return Err(PlanRefused::Bad);
    };
    if !are_covered(&limits, &reserves) {
        return Err(PlanRefused::Bad);
    }
    Ok(Plan {
        columns,
        batch,
        tests,
        output,
        limits,
        reserves,
    })
}

#[cfg(test)]
mod tests;
