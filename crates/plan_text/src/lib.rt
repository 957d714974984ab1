//! Plans of queries, read from TOML.
#![tactic(auto)]

mod bounds;
mod column;
mod columns;
mod filter;
mod keys;
mod laws;
mod limits;
mod number;
mod op;
mod output;
mod picks;
mod read;
mod refused;
mod test;
mod value;

pub use bounds::USUAL_BATCH_ROWS;
pub use laws::{bytes_are_one_plan, plans_are_fit};
pub use query_model::{
    Cell, Column, Columns, Kind, MOST_BATCH_ROWS, MOST_COLUMNS, MOST_TESTS, Op, Output, Picks,
    Plan, Test, Tests, Text,
};
pub use read::read_plan;
pub use refused::PlanRefused;
