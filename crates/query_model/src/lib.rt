//! What a query speaks of: cells, rows, columns, plans and the buffers of columns, and what it answers and asks for.
#![tactic(auto)]

mod answer;
mod bounds;
mod buffers;
mod cell;
mod cells;
mod column;
mod columns;
mod filter;
mod keys;
mod kind;
mod laws;
mod lengths;
mod op;
mod output;
mod picks;
mod plan;
mod query_kinds;
mod query_laws;
mod request_laws;
mod requests;
mod row;
mod sums;
mod test;
mod tests_list;
mod text;
#[cfg(test)]
mod worked_examples;

pub use answer::{answer_of, groups_of, merged};
pub use bounds::{MOST_BATCH_ROWS, MOST_COLUMNS, MOST_ROWS, MOST_TESTS, MOST_TEXT_BYTES};
pub use buffers::{buffer_lengths, buffer_sizes};
pub use cell::Cell;
pub use cells::Cells;
pub use column::Column;
pub use columns::Columns;
pub use filter::{meeting, meets};
pub use kind::Kind;
pub use laws::{columns_are_read_back, columns_have_their_lengths};
pub use lengths::{column_lengths, validity_length};
pub use op::Op;
pub use output::Output;
pub use picks::Picks;
pub use plan::Plan;
pub use query_kinds::{answer_kinds, kinds_of};
pub use query_laws::{
    answers_do_not_depend_on_batches, answers_do_not_depend_on_cuts, batches_are_the_rows,
};
pub use request_laws::{
    adequate_limits_never_refuse, fewer_rows_have_shorter_buffers, groups_have_short_buffers,
    needs_are_within_their_ceiling, parts_have_shorter_buffers,
};
pub use requests::{
    FILTER, PROJECT, RESULT, SCAN, SUMS, batch_count, batch_rows, requests_of, result_sizes,
};
pub use row::Row;
pub use test::Test;
pub use tests_list::Tests;
pub use text::Text;
