//! The tests of a filter.
ghost use Rattle.std.specs.Prelude.{◌≡◌, ◌≤◌, length, map, option_map};
ghost use Rattle.toml.specs.View.{view};
ghost use Rattle.plan_text.specs.Tests.{test_of, tests_of};
ghost use Rattle.plan_text.specs.Values.{Reads, each_of};

use crate::refused::PlanRefused;
use crate::test::read_test;
use crate::value::items_between;
use query_model::{Column, MOST_COLUMNS, MOST_TESTS, Tests};
use std::alloc::Global;
use toml::Value;

/// Reads the tests of a plan: at most 8, and none where the key is absent.
pub(crate) fn read_tests(
    alloc: Global,
    columns: &[Column],
    value: Option<&Value>,
) -> Result<Tests, PlanRefused>
    requires { length columns.now ≤ MOST_COLUMNS }
    ensures { Reads (tests_of columns.now (option_map (λ v. view v.now) value.entry)) result }
{
    let Some(value) = value else {
        return Ok(Tests::new(Vec::new(alloc)));
    };
    match items_between(0, MOST_TESTS, value) {
        Some(items) => each_test(alloc, columns, items),
        None => Err(PlanRefused::Bad),
    }
}

fn each_test(alloc: Global, columns: &[Column], values: &[Value]) -> Result<Tests, PlanRefused>
    requires { length columns.now ≤ MOST_COLUMNS }
    ensures { Reads (each_of (test_of columns.now) (map view values.now)) result }
{
    let mut tests = Vec::new(alloc);
    'values: for value in values {
        tests.push(read_test(alloc, columns, value)?)?;
    }
    Ok(Tests::new(tests))
}
