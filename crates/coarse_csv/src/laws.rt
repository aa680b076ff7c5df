//! What a line can say. The law is the contract of a function that does nothing.

ghost use Rattle.std.specs.Prelude.{◌≡◌, ℕ, List, Some};
ghost use Rattle.lean_items.specs.declared.coarse_row.CoarseRow.{CoarseRow};
ghost use Rattle.lean_items.specs.Coarse.{IsCoarse};
ghost use Rattle.coarse_csv.specs.Rows.{coarse_row};

/// The row of a line is in range.
pub fn coarse_row_is_valid()
    ensures { (text : List ℕ) (row : CoarseRow) → coarse_row text ≡ Ok (Some row) → IsCoarse row }
{}
