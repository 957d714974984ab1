//! Values of a document.
ghost use Rattle.std.specs.Prelude.{◌≡◌, map, option_map, option_copied};
ghost use Rattle.toml.specs.Data.{get_member};
ghost use Rattle.toml.specs.View.{table_view, view};
ghost use Rattle.plan_text.specs.Values.{items_between, items_in, text_at};

use toml::{Table, Value};

/// The value at a key of a table. Takes no memory.
pub(crate) fn value_at<'a>(table: &'a Table, key: &str) -> Option<&'a Value>
    ensures { option_map (λ v. view v.now) result ≡ get_member key.now (table_view table.now) }
{
    table.get(key)
}

/// The text at a key of a table. Takes no memory.
pub(crate) fn text_at<'a>(table: &'a Table, key: &str) -> Option<&'a str>
    ensures { option_copied result ≡ text_at key.now (table_view table.now) }
{
    match value_at(table, key) {
        Some(value) => value.as_str(),
        None => None,
    }
}

// The items that a value is.
fn items_in(value: &Value) -> Option<&[Value]>
    ensures { option_map (λ items. map view items.now) result ≡ items_in (view value.now) }
{
    match value.as_array() {
        Some(items) => Some(items.as_slice()),
        None => None,
    }
}

/// The items that a value is, where there are from the least to the most. Takes no memory.
pub(crate) fn items_between(least: usize, most: usize, value: &Value) -> Option<&[Value]>
    ensures { option_map (λ items. map view items.now) result
        ≡ items_between least most (view value.now) }
{
    match items_in(value) {
        Some(items) if (least..=most).contains(&items.len()) => Some(items),
        _ => None,
    }
}
