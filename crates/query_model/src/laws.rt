//! The laws of these definitions. Each function does nothing: its contract is a law, which the check proves.
ghost use Rattle.std.specs.Prelude.{◌≡◌, ◌≤◌, List, All, length, map};
ghost use Rattle.query_model.specs.Buffers.{column_lengths, texts_length};
ghost use Rattle.query_model.specs.Bytes.{cells_in, column_bytes};
ghost use Rattle.query_model.specs.Cells.{IsOfKind};
ghost use Rattle.query_model.specs.declared.bounds.TheConstants.{MOST_TEXT_BYTES};
ghost use Rattle.query_model.specs.declared.cell.Cell.{Cell};
ghost use Rattle.query_model.specs.declared.kind.Kind.{Kind};

/// The cells of a column are read back from the bytes of its buffers.
pub fn columns_are_read_back()
    ensures { (kind : Kind) (cells : List Cell) → All (IsOfKind kind) cells
        → texts_length cells ≤ MOST_TEXT_BYTES → cells_in kind (length cells) (column_bytes kind cells) ≡ cells }
{}

/// The buffers of a column have as many bytes as its lengths say.
pub fn columns_have_their_lengths()
    ensures { (kind : Kind) (cells : List Cell) → map length (column_bytes kind cells) ≡ column_lengths kind cells }
{}
