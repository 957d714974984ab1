//! The laws of tables as bytes. Each function does nothing: its contract is a law, which the check proves.
ghost use Rattle.std.specs.Prelude.{◌≡◌, ℕ, List};
ghost use Rattle.query_model.specs.declared.cell.Cell.{Cell};
ghost use Rattle.query_model.specs.declared.column.Column.{Column};
ghost use Rattle.row_text.specs.Answer.{BeginsPlain, table_text};
ghost use Rattle.row_text.specs.Rows.{AreRows};
ghost use Rattle.row_text.specs.Table.{IsFirstBad, IsTable, kinds_of, names_of};

/// Bytes are one table at most, or have one first bad row and are none: so the clauses of `read_rows` determine its answer, but for
/// want of memory.
pub fn bytes_have_one_reading()
    ensures one_table { (columns : List Column) (bytes : List ℕ) (rows others : List (List Cell)) →
        IsTable columns bytes rows → IsTable columns bytes others → rows ≡ others }
    ensures one_bad_row { (columns : List Column) (bytes : List ℕ) (row other : ℕ) →
        IsFirstBad columns bytes row → IsFirstBad columns bytes other → row ≡ other }
    ensures never_both { (columns : List Column) (bytes : List ℕ) (rows : List (List Cell)) (row : ℕ) →
        IsTable columns bytes rows → IsFirstBad columns bytes row → ⊥ }
{}

/// What `answer_text` writes of rows under the names of their columns is read as these rows, wherever it has a reading; and it has
/// one where the rows were read from a table. The first name mustn't look as a byte order mark.
pub fn written_rows_are_read_back()
    ensures same { (columns : List Column) (rows read : List (List Cell)) →
        BeginsPlain (names_of columns) → AreRows (kinds_of columns) rows →
        IsTable columns (table_text (names_of columns) rows) read → read ≡ rows }
    ensures readable { (columns : List Column) (bytes : List ℕ) (rows : List (List Cell)) →
        BeginsPlain (names_of columns) → IsTable columns bytes rows →
        IsTable columns (table_text (names_of columns) rows) rows }
{}
