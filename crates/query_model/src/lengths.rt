//! How long the buffers of a column are.
ghost use Rattle.std.specs.Prelude.{◌≡◌, ◌≤◌, ◌∷◌, [], length};
ghost use Rattle.query_model.specs.Buffers as spec;

use crate::bounds::{MOST_ROWS, MOST_TEXT_BYTES};
use crate::cell::Cell;
use crate::kind::Kind;

// The bytes of a number, of a sum and of a place among texts.
const INT_BYTES: u64 = 8;

const SUM_BYTES: u64 = 16;

const OFFSET_BYTES: u64 = 4;

/// The length of a buffer with a bit for each of so many cells, in bytes.
pub fn validity_length(count: u64) -> u64
    requires few { count ≤ MOST_ROWS }
    ensures value { result ≡ spec.validity_length count }
{
    (count + 7) / 8
}

/// The lengths of the two buffers of a column in bytes: validity and data, or offsets and texts. Takes no memory.
pub fn column_lengths(kind: Kind, cells: &[Cell]) -> [u64; 2]
    requires few { length cells.now ≤ MOST_ROWS }
    requires short { spec.texts_length cells.now ≤ MOST_TEXT_BYTES }
    ensures value { result ≡ spec.column_lengths kind cells.now }
{
    let count = cells.len() as u64;
    match kind {
        Kind::Int => [validity_length(count), INT_BYTES * count],
        Kind::Sum => [validity_length(count), SUM_BYTES * count],
        Kind::Text => [OFFSET_BYTES * (count + 1), texts_length(cells)],
    }
}

// How many bytes of text cells have together.
fn texts_length(cells: &[Cell]) -> u64
    requires { spec.texts_length cells.now ≤ MOST_TEXT_BYTES }
    ensures { result ≡ spec.texts_length cells.now }
{
    cells.iter().map(|cell| text_length(cell)).sum()
}

// How many bytes of text a cell has.
pub(crate) fn text_length(cell: &Cell) -> u64
    ensures { result ≡ spec.text_length cell.now }
{
    match cell {
        Cell::Null | Cell::Int(_) | Cell::Sum(_) => 0,
        Cell::Text(text) => text.as_str().len() as u64,
    }
}

#[cfg(test)]
mod tests {
    use super::*;
    use crate::text::Text;
    use std::test::Fail;

    #[test]
    fn columns_have_the_lengths_of_their_format(rt: HostRuntime) -> Result<(), Fail> {
        let cities = [
            Cell::Text(Text::new(rt.alloc(), "oslo")?),
            Cell::Text(Text::new(rt.alloc(), "bergen")?),
        ];
        assert_eq!(rt; column_lengths(Kind::Text, &cities), [12, 10]);
        assert_eq!(rt; column_lengths(Kind::Text, &[]), [4, 0]);
        let numbers = [Cell::Int(3), Cell::Null];
        assert_eq!(rt; column_lengths(Kind::Int, &numbers), [1, 16]);
        assert_eq!(rt; column_lengths(Kind::Int, &[]), [0, 0]);
        let sums = [Cell::Sum(4), Cell::Null, Cell::Sum(-7)];
        assert_eq!(rt; column_lengths(Kind::Sum, &sums), [1, 48]);
        assert_eq!(rt; validity_length(8), 1);
        assert_eq!(rt; validity_length(9), 2);
        Ok(())
    }
}
