//! Rows, one at a time.
ghost use Rattle.std.specs.Prelude.{◌≡◌, ◌+◌, ◌<◌, ◌≤◌, ◌^◌, IsSome, Some};
ghost use Rattle.mem_model.specs.Balance.{raised, lowered};
ghost use Rattle.alloc_tree.specs.Rows.{row_at, uses_in, ChangesUses};

use crate::row::Row;
use mem_num::AllocId;

/// The row of an allocator that was made.
pub(crate) fn row_of(rows: &[Option<Row>], at: AllocId) -> Row
    requires { IsSome (row_at rows.now at.0) }
    ensures { row_at rows.now at.0 ≡ Some result }
{
    match rows[at.0 as usize] {
        Some(row) => row,
        None => unreachable!(),
    }
}

/// Counts one use more of an allocator.
pub(crate) fn add_use(rows: &mut [Option<Row>], at: AllocId)
    requires made { IsSome (row_at rows.old at.0) }
    requires fits { uses_in rows.old at.0 + 1 < 2 ^ 64 }
    ensures uses { ChangesUses rows.old rows.new (raised (uses_in rows.old) at.0 1) }
{
    let row = row_of(rows, at);
    rows[at.0 as usize] = Some(Row {
        uses: row.uses + 1,
        ..row
    });
}

/// Counts one use less of an allocator.
pub(crate) fn drop_use(rows: &mut [Option<Row>], at: AllocId)
    requires made { IsSome (row_at rows.old at.0) }
    requires some { 1 ≤ uses_in rows.old at.0 }
    ensures uses { ChangesUses rows.old rows.new (lowered (uses_in rows.old) at.0 1) }
{
    let row = row_of(rows, at);
    rows[at.0 as usize] = Some(Row {
        uses: row.uses - 1,
        ..row
    });
}
