//! Laws of the spelling of rows.
ghost use Rattle.std.specs.Prelude.{◌≡◌, ◌≢◌, ◌++◌, ℕ, List, Some, length};
ghost use Rattle.ob_base.specs.Schemas.{Columns, width};
ghost use Rattle.ob_row.specs.Rows.{Row};
ghost use Rattle.ob_row.specs.Spelling.{FitsColumns, Begins, row_bytes, dummy_bytes};

/// Two rows of one schema with equal bytes are equal.
pub fn one_spelling()
    ensures { (columns : Columns) (a b : Row) → FitsColumns columns a → FitsColumns columns b
        → row_bytes columns a ≡ row_bytes columns b → a ≡ b }
{}

/// A row's bytes are as many as its schema's width.
pub fn spelling_width()
    ensures { (columns : Columns) (row : Row) → FitsColumns columns row
        → length (row_bytes columns row) ≡ width columns }
{}

/// No row is spelled as a dummy.
pub fn dummy_is_no_row()
    ensures { (columns : Columns) (row : Row) → row_bytes columns row ≢ dummy_bytes columns }
{}

/// What was encoded is what is decoded.
pub fn encoded_row()
    ensures { (columns : Columns) (row : Row) (behind : List ℕ) → FitsColumns columns row
        → Begins columns (Some row) (row_bytes columns row ++ behind) }
{}
