//! Facts of the definitions, for those who stand on them.

ghost use Rattle.std.specs.Prelude.{◌≡◌, ◌++◌, ℕ, not, true, false, Some, List, [], ◌∷◌, All, filter};
ghost use Rattle.std.specs.List.{IsDistinct};
ghost use Rattle.universe_state.specs.Active.{Active, is_same, is_active, security_of, with_security, without_symbol};
ghost use Rattle.universe_state.specs.Choice.{additions, marked};
ghost use Rattle.universe_state.specs.Different.{AreDifferent, symbols_of, with_all};

/// A security of a new symbol comes last, and is then the one of its symbol. A choice of symbols keeps the securities in
/// their order. Symbols that differ stay different under each call, and one that was removed is gone.
pub fn symbols_stay_different()
    ensures last { (security : Active) (universe : List Active) → is_active universe security.symbol ≡ false
        → with_security security universe ≡ universe ++ security ∷ [] }
    ensures found { (security : Active) (universe : List Active)
        → security_of security.symbol (with_security security universe) ≡ Some security }
    ensures kept { (symbols : List (List ℕ)) (universe : List Active)
        → symbols_of (marked symbols universe) ≡ symbols_of universe }
    ensures gone { (symbol : List ℕ) (universe : List Active) → AreDifferent universe
        → is_active (without_symbol symbol universe) symbol ≡ false }
    ensures put { (security : Active) (universe : List Active) → AreDifferent universe
        → AreDifferent (with_security security universe) }
    ensures chosen { (symbols : List (List ℕ)) (universe : List Active) → AreDifferent universe
        → AreDifferent (marked symbols universe) }
    ensures removed { (symbol : List ℕ) (universe : List Active) → AreDifferent universe
        → AreDifferent (without_symbol symbol universe) }
{}

/// The symbols that a choice adds differ and are not active; of selected symbols that differ they are those that are not
/// active. Once all of them have joined, they stand behind the others in the order of selection.
pub fn additions_come_last()
    ensures once { (symbols : List (List ℕ)) (universe : List Active) → IsDistinct is_same (additions symbols universe) }
    ensures new { (symbols : List (List ℕ)) (universe : List Active)
        → All (λ symbol. is_active universe symbol ≡ false) (additions symbols universe) }
    ensures all { (symbols : List (List ℕ)) (universe : List Active) → IsDistinct is_same symbols
        → additions symbols universe ≡ filter (λ symbol. not (is_active universe symbol)) symbols }
    ensures joined { (symbols : List (List ℕ)) (universe added : List Active)
        → symbols_of added ≡ additions symbols universe
        → with_all added (marked symbols universe) ≡ marked symbols universe ++ added }
{}
