//! Worked values of the definition, over closes in 1/10000 dollar.

ghost use Rattle.std.specs.Prelude.{◌≡◌, pos, neg_ℤ, [], ◌∷◌, Some, None};
ghost use Rattle.bar_windows.specs.Window.{window};
ghost use Rattle.bar_windows.specs.declared.spec.Func.{Func};
ghost use Rattle.bar_windows.specs.Sample.{closes};

// an average is cut, and there is none before its window is full
fn averages()
    ensures one { window Func.Sma 1 (closes (7 ∷ [])) ≡ Some (pos 7) }
    ensures part { window Func.Sma 2 (closes (7 ∷ [])) ≡ None }
    ensures full { window Func.Sma 2 (closes (7 ∷ 10 ∷ [])) ≡ Some (pos 8) }
    ensures later { window Func.Sma 2 (closes (7 ∷ 10 ∷ 13 ∷ [])) ≡ Some (pos 11) }
{}

// an extreme is that of the last closes alone
fn extremes()
    ensures none { window Func.Highest 3 (closes (9 ∷ 5 ∷ [])) ≡ None }
    ensures full { window Func.Highest 3 (closes (9 ∷ 5 ∷ 6 ∷ [])) ≡ Some (pos 9) }
    ensures left { window Func.Highest 3 (closes (9 ∷ 5 ∷ 6 ∷ 5 ∷ [])) ≡ Some (pos 6) }
    ensures equal { window Func.Highest 2 (closes (9 ∷ 9 ∷ 5 ∷ [])) ≡ Some (pos 9) }
    ensures least { window Func.Lowest 3 (closes (4 ∷ 5 ∷ 6 ∷ 5 ∷ [])) ≡ Some (pos 5) }
    ensures one { window Func.Lowest 1 (closes (4 ∷ 5 ∷ [])) ≡ Some (pos 5) }
{}

// a change wants one close more than its length
fn changes()
    ensures part { window Func.Change 2 (closes (9 ∷ 5 ∷ [])) ≡ None }
    ensures full { window Func.Change 2 (closes (9 ∷ 5 ∷ 6 ∷ [])) ≡ Some (neg_ℤ (pos 3)) }
    ensures later { window Func.Change 2 (closes (9 ∷ 5 ∷ 6 ∷ 8 ∷ [])) ≡ Some (pos 3) }
{}
