//! Worked values of the definition, over a few rows.

ghost use Rattle.std.specs.Prelude.{◌≡◌, [], ◌∷◌, codes};
ghost use Rattle.universe_rules.specs.Sample.{row, rule};
ghost use Rattle.universe_rules.specs.Selected.{selected};

// falling dollars, then the bytes of the symbol, and only the first row of a symbol
fn orders()
    ensures first { selected (row (codes "B") 100 10 500 ∷ row (codes "C") 100 10 900 ∷ row (codes "A") 100 10 900
        ∷ row (codes "B") 100 10 1000 ∷ []) (rule 2 0 0 0) ≡ codes "A" ∷ codes "C" ∷ [] }
    ensures all { selected (row (codes "B") 100 10 500 ∷ row (codes "C") 100 10 900 ∷ row (codes "A") 100 10 900
        ∷ row (codes "B") 100 10 1000 ∷ []) (rule 9 0 0 0) ≡ codes "A" ∷ codes "C" ∷ codes "B" ∷ [] }
    ensures prefix { selected (row (codes "AB") 1 1 7 ∷ row (codes "A") 1 1 7 ∷ []) (rule 2 0 0 0)
        ≡ codes "A" ∷ codes "AB" ∷ [] }
{}

// a row that only reaches a minimum passes, and a later row of its symbol never counts
fn minima()
    ensures reached { selected (row (codes "A") 100 10 900 ∷ []) (rule 1 100 10 900) ≡ codes "A" ∷ [] }
    ensures price { selected (row (codes "A") 99 10 900 ∷ []) (rule 1 100 10 900) ≡ [] }
    ensures volume { selected (row (codes "A") 100 9 900 ∷ []) (rule 1 100 10 900) ≡ [] }
    ensures dollars { selected (row (codes "A") 100 10 899 ∷ []) (rule 1 100 10 900) ≡ [] }
    ensures later { selected (row (codes "A") 99 10 900 ∷ row (codes "A") 100 10 900 ∷ []) (rule 1 100 10 900) ≡ [] }
{}
