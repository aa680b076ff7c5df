ghost use Rattle.std.specs.Prelude.{◌≡◌, ◌++◌, ◌∷◌, [], List, Some, None, map, All};
ghost use Rattle.std.specs.List.{last_or};
ghost use Rattle.lean_fixed.specs.Ranges.{IsPrice};
ghost use Rattle.lean_fixed.specs.declared.money.Price.{Price};
ghost use Rattle.bar_windows.specs.Recent.{StandsFor as WindowsStandFor};
ghost use Rattle.consolidators.specs.Given.{given_bars};
ghost use Rattle.lean_items.specs.declared.bar.Bar.{Bar};
ghost use Rattle.clock_run.specs.Histories.{given_with};
ghost use Rattle.backtest_core.specs.Following.{period_in, CanTake, LongerStands, FollowsBars, EndsFrom};

use bar_windows::Windows;
use consolidators::{Consolidator, Given};
use lean_items::Bar;

/// What a security keeps of its bars: the bars of a longer period that are being made, where it has a period, and the windows
/// over the closes of what was given.
#[derive(Drop)]
pub struct Following {
    pub longer: Option<Consolidator>,
    pub windows: Windows,
}

impl Following {
    /// Takes the next bar, and answers the last bar that is given at its end: the bar itself, or the last bucket that it
    /// completes. The closes of all that is given are heard.
    pub fn take(&mut self, bar: &Bar) -> Option<Bar>
        requires takes { CanTake self.old.longer bar.now }
        ensures period { period_in self.new.longer ≡ period_in self.old.longer }
        ensures specs { self.new.windows.specs ≡ self.old.windows.specs }
        ensures follows { (bars : List Bar) → FollowsBars self.old.longer self.old.windows bars
            → FollowsBars self.new.longer self.new.windows (bars ++ bar.now ∷ []) }
        ensures fresh { (bars : List Bar) → FollowsBars self.old.longer self.old.windows bars
            → result ≡ last_or None (given_with (period_in self.old.longer) (bars ++ bar.now ∷ []) (Some bar.now)) }
        ensures ends { EndsFrom bar.now.end.0 self.new.longer }
    {
        let given = self.given_by(bar);
        hear(&mut self.windows, given)
    }

    // The bars that are given at the end of a bar.
    fn given_by(&mut self, bar: &Bar) -> Given
        requires takes { CanTake self.old.longer bar.now }
        ensures period { period_in self.new.longer ≡ period_in self.old.longer }
        ensures windows { self.new.windows ≡ self.old.windows }
        ensures gives { (bars : List Bar) → LongerStands self.old.longer bars
            → given_bars result ≡ given_with (period_in self.old.longer) (bars ++ bar.now ∷ []) (Some bar.now) }
        ensures heard { (bars : List Bar) → LongerStands self.old.longer bars
            → LongerStands self.new.longer (bars ++ bar.now ∷ []) }
        ensures ends { EndsFrom bar.now.end.0 self.new.longer }
        ensures prices { All (λ given. IsPrice given.closing.0) (given_bars result) }
    {
        match &mut self.longer {
            None => Given::One(*bar),
            Some(longer) => longer.push(bar),
        }
    }
}

// Hears the closes of bars, and answers the last of the bars.
fn hear(windows: &mut Windows, given: Given) -> Option<Bar>
    requires { All (λ bar. IsPrice bar.closing.0) (given_bars given) }
    ensures specs { windows.new.specs ≡ windows.old.specs }
    ensures stands { (closes : List Price) → WindowsStandFor windows.old closes
        → WindowsStandFor windows.new (closes ++ map (λ bar. bar.closing) (given_bars given)) }
    ensures last { result ≡ last_or None (given_bars given) }
{
    match given {
        Given::Nothing => None,
        Given::One(bar) => {
            windows.push(bar.closing);
            Some(bar)
        }
        Given::Two(earlier, bar) => {
            windows.push(earlier.closing);
            windows.push(bar.closing);
            Some(bar)
        }
    }
}
