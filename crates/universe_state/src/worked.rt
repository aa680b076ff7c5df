//! Worked values of the definition: SPY is listed, and AAA and BBB are chosen.

ghost use Rattle.std.specs.Prelude.{◌≡◌, true, false, Some, None, [], ◌∷◌, codes};
ghost use Rattle.universe_state.specs.Active.{feed_of, is_marked, with_security, without_symbol};
ghost use Rattle.universe_state.specs.Choice.{additions, marked, room};
ghost use Rattle.universe_state.specs.Sample.{security};

// one that is not selected is marked, one that is selected is not, and a listed one never is
fn marks()
    ensures deselected { marked (codes "BBB" ∷ []) (security (codes "SPY") 1 true false ∷ security (codes "AAA") 2 false false ∷ [])
        ≡ security (codes "SPY") 1 true false ∷ security (codes "AAA") 2 false true ∷ [] }
    ensures selected { marked (codes "AAA" ∷ []) (security (codes "AAA") 2 false true ∷ security (codes "BBB") 3 false false ∷ [])
        ≡ security (codes "AAA") 2 false false ∷ security (codes "BBB") 3 false true ∷ [] }
    ensures inactive { is_marked (codes "AAA") [] ≡ false }
{}

// what is selected and not active is added, each once and in the order of selection
fn adds()
    ensures new { additions (codes "BBB" ∷ codes "SPY" ∷ codes "AAA" ∷ codes "BBB" ∷ [])
        (security (codes "SPY") 1 true false ∷ []) ≡ codes "BBB" ∷ codes "AAA" ∷ [] }
    ensures marked { additions (codes "AAA" ∷ []) (security (codes "AAA") 2 false true ∷ []) ≡ [] }
    ensures room { room (security (codes "SPY") 1 true false ∷ []) ≡ 255 }
{}

// one that leaves and comes back has its new feed
fn leaves_and_returns()
    ensures left { without_symbol (codes "AAA") (security (codes "AAA") 1 false true ∷ security (codes "BBB") 2 false false ∷ [])
        ≡ security (codes "BBB") 2 false false ∷ [] }
    ensures gone { feed_of (codes "AAA") (security (codes "BBB") 2 false false ∷ []) ≡ None }
    ensures back { with_security (security (codes "AAA") 3 false false) (security (codes "BBB") 2 false false ∷ [])
        ≡ security (codes "BBB") 2 false false ∷ security (codes "AAA") 3 false false ∷ [] }
    ensures feed { feed_of (codes "AAA") (security (codes "BBB") 2 false false ∷ security (codes "AAA") 3 false false ∷ [])
        ≡ Some (record { 0 = 3 }) }
{}
