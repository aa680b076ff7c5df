//! How large the sums over fills and marks become. The law is the contract of a function that does nothing.
ghost use Rattle.std.specs.Prelude.{◌≤◌, ℕ, ℤ, List, length};
ghost use Rattle.lean_fixed.specs.Ranges.{IsStartingCash, IsMoney, IsPosition};
ghost use Rattle.lean_orders.specs.declared.event.Fill.{Fill};
ghost use Rattle.portfolio.specs.Sums.{Mark, cash, position, fees, realised, equity, gross, gross_without, AreFills, AreMarks};
ghost use Rattle.portfolio.specs.Stands.{most_fills};

/// The sums over at most 1,000,000 fills and over any marks, all in their ranges, are money and positions.
pub fn sums_stay_in_range()
    ensures cash { (start : ℤ) (fills : List Fill) → IsStartingCash start → AreFills fills
        → length fills ≤ most_fills → IsMoney (cash start fills) }
    ensures fees { (fills : List Fill) → AreFills fills → length fills ≤ most_fills → IsMoney (fees fills) }
    ensures realised { (fills : List Fill) → AreFills fills → length fills ≤ most_fills
        → IsMoney (realised fills) }
    ensures equity { (start : ℤ) (fills : List Fill) (marks : List Mark) → IsStartingCash start
        → AreFills fills → AreMarks marks → length fills ≤ most_fills
        → IsMoney (equity start fills marks) }
    ensures gross { (fills : List Fill) (marks : List Mark) → AreFills fills → AreMarks marks
        → length fills ≤ most_fills → IsMoney (gross fills marks) }
    ensures others { (symbol : List ℕ) (fills : List Fill) (marks : List Mark) → AreFills fills
        → AreMarks marks → length fills ≤ most_fills → IsMoney (gross_without symbol fills marks) }
    ensures position { (symbol : List ℕ) (fills : List Fill) → AreFills fills
        → length fills ≤ most_fills → IsPosition (position symbol fills) }
{}
