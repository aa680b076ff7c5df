//! Facts of the definition, for those who stand on it.

ghost use Rattle.std.specs.Prelude.{◌≡◌, ◌≢◌, ◌↔◌, true, ◌≤ℤ◌, ◌<ℤ◌, ℕ, ℤ, List, [], All};
ghost use Rattle.std.specs.List.{AllPairs};
ghost use Rattle.lean_items.specs.declared.bar.Bar.{Bar};
ghost use Rattle.lean_items.specs.Fits.{is_bar_in_range};
ghost use Rattle.consolidators.specs.Buckets.{buckets, given};
ghost use Rattle.consolidators.specs.Pushed.{IsPeriod, AreNumbers, ArePushed};

/// At a moment at which no bar ends no bucket is given.
pub fn nothing_is_given_between()
    ensures { (period : ℕ) (bars : List Bar) (moment : ℤ) → All (λ bar. bar.end.0 ≢ moment) bars
        → given period bars moment ≡ [] }
{}

/// Of bars that may be pushed one after the other the buckets come by their numbers. So the bars that are given come in
/// their order, too: each ends by the start of the next.
pub fn buckets_come_by_number()
    ensures numbers { (period : ℕ) (bars : List Bar) → IsPeriod period → ArePushed period bars
        → AllPairs (λ earlier k. earlier <ℤ k) (buckets period bars) }
    ensures given { (period : ℕ) (bars : List Bar) (moment : ℤ) → IsPeriod period → ArePushed period bars
        → AllPairs (λ earlier bar. earlier.end.0 ≤ℤ bar.start.0) (given period bars moment) }
{}

/// The numbers of a bar are those that may be pushed exactly where the bar is in range.
pub fn numbers_are_in_range()
    ensures { (bar : Bar) → (is_bar_in_range bar ≡ true) ↔ AreNumbers bar }
{}
