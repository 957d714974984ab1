//! Tables as bytes: comma-separated fields are read as rows, which are kept column by column, and rows are written as such a text.
#![tactic(auto)]

mod answer;
mod cell_column;
mod column_slice;
mod laws;
mod lines;
mod number;
mod read;
mod records;
mod refused;
mod rows;
mod rows_slice;

pub use answer::{answer_text, header_text, rows_text};
pub use cell_column::CellColumn;
pub use column_slice::ColumnSlice;
pub use laws::{bytes_have_one_reading, written_rows_are_read_back};
pub use query_model::{Cell, Cells, Column, Kind, Row, Text};
pub use read::read_rows;
pub use refused::RowsRefused;
pub use rows::Rows;
pub use rows_slice::RowsSlice;
