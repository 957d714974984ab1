//! Numbers of a plan.
ghost use Rattle.std.specs.Prelude.{◌≡◌, ◌<◌, ◌^◌, option_map};
ghost use Rattle.toml.specs.View.{view};
ghost use Rattle.plan_text.specs.Plans.{batch_of};
ghost use Rattle.plan_text.specs.Values.{number_of};

use crate::bounds::USUAL_BATCH_ROWS;
use query_model::MOST_BATCH_ROWS;
use toml::Value;

/// The number that a value is, from the least to the most, or what stands for an absent one. Takes no memory.
pub(crate) fn number_of(least: u64, most: u64, absent: u64, value: Option<&Value>) -> Option<u64>
    ensures { result ≡ number_of least most absent (option_map (λ v. view v.now) value.entry) }
{
    match value {
        None => Some(absent),
        Some(value) => match value.as_integer() {
            Some(n) => match u64::try_from(n) {
                Ok(n) if (least..=most).contains(&n) => Some(n),
                _ => None,
            },
            None => None,
        },
    }
}

/// The rows of a batch. Takes no memory.
pub(crate) fn batch_of(value: Option<&Value>) -> Option<u32>
    ensures { result ≡ batch_of (option_map (λ v. view v.now) value.entry) }
{
    match number_of(1, MOST_BATCH_ROWS, USUAL_BATCH_ROWS, value) {
        Some(rows) => Some(rows as u32),
        None => None,
    }
}
