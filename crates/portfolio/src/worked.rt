//! The sums of fills and marks, computed on a few of them.
ghost use Rattle.std.specs.Prelude.{◌≡◌, pos, negsuc, [], ◌∷◌, Some, None};
ghost use Rattle.portfolio.specs.Sums.{cash, fees, position, realised, last_mark, equity, gross_without};
ghost use Rattle.portfolio.specs.Worked.{spider, apple, mark, three, four, through_zero};

/// A cost of 32 for 3 shares: one share's part is 10, cut, and the last two take the rest of 22.
pub fn parts()
    ensures cash { cash (pos 1000) three ≡ pos 980 }
    ensures position { position spider three ≡ pos 2 }
    ensures realised { realised three ≡ pos 2 }
    ensures closed_cash { cash (pos 1000) four ≡ pos 1004 }
    ensures closed { position spider four ≡ pos 0 }
    ensures closed_realised { realised four ≡ pos 4 }
    ensures other { position apple four ≡ pos 0 }
{}

/// A sale through zero closes 10 with a profit of 100 and opens 10 that are owed, and half of these are bought back with
/// the same profit. The fee is charged once, and is no part of the profit.
pub fn sales_through_zero()
    ensures position { position spider through_zero ≡ negsuc 4 }
    ensures realised { realised through_zero ≡ pos 200 }
    ensures fees { fees through_zero ≡ pos 1 }
    ensures cash { cash (pos 1000) through_zero ≡ pos 1749 }
{}

/// The last mark of each symbol counts, and a symbol that was never marked adds nothing.
pub fn values()
    ensures last { last_mark spider (mark spider (pos 7) ∷ mark apple (pos 9) ∷ mark spider (pos 8) ∷ [])
        ≡ Some (pos 8) }
    ensures never { last_mark apple (mark spider (pos 7) ∷ []) ≡ None }
    ensures equity { equity (pos 1000) three (mark spider (pos 20) ∷ mark spider (pos 12) ∷ []) ≡ pos 1004 }
    ensures unmarked { equity (pos 1000) three (mark apple (pos 20) ∷ []) ≡ pos 980 }
    ensures gross { gross_without apple through_zero (mark spider (pos 100) ∷ []) ≡ pos 500 }
    ensures own { gross_without spider through_zero (mark spider (pos 100) ∷ []) ≡ pos 0 }
{}
