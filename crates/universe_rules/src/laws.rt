//! Facts of the definitions, for those who stand on them.

ghost use Rattle.std.specs.Prelude.{◌≤◌, List, length};
ghost use Rattle.std.specs.List.{IsDistinct};
ghost use Rattle.lean_items.specs.declared.coarse_row.CoarseRow.{CoarseRow};
ghost use Rattle.universe_rules.specs.declared.rule.UniverseRule.{UniverseRule};
ghost use Rattle.universe_rules.specs.Passing.{is_same};
ghost use Rattle.universe_rules.specs.Selected.{selected};

/// The symbols that a rule selects differ, and are at most `top`.
pub fn selected_symbols_differ()
    ensures once { (rows : List CoarseRow) (rule : UniverseRule) → IsDistinct is_same (selected rows rule) }
    ensures few { (rows : List CoarseRow) (rule : UniverseRule) → length (selected rows rule) ≤ rule.top }
{}
