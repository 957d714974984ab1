//! The laws of operators. Each function does nothing: its contract is a law, which the check proves.
ghost use Rattle.std.specs.Prelude.{◌≡◌, ◌≤◌, ℕ, All, List, Some, length, slice_get};
ghost use Rattle.std.specs.List.{flat_map, range_with_len};
ghost use Rattle.query_model.specs.Answer.{groups_of};
ghost use Rattle.query_model.specs.declared.bounds.TheConstants.{MOST_ROWS};
ghost use Rattle.query_model.specs.declared.cell.Cell.{Cell};
ghost use Rattle.query_model.specs.declared.kind.Kind.{Kind};
ghost use Rattle.query_model.specs.declared.kind.Kind.TheVariants as kind;
ghost use Rattle.row_text.specs.Rows.{AreRows};
ghost use Rattle.operators.specs.Summable.{AreSummable};

/// The sums by group of parts of rows can be merged, however a table's rows were cut.
pub fn sums_of_parts_can_be_merged()
    ensures { (key : ℕ) (columns : List ℕ) (kinds : List Kind) (parts : List (List (List Cell))) → All (AreRows kinds) parts
        → All (λ column. slice_get kinds column ≡ Some kind.Int) columns → length (flat_map (λ part. part) parts) ≤ MOST_ROWS
        → AreSummable 0 (range_with_len 1 (length columns)) (flat_map (groups_of key columns) parts) }
{}
