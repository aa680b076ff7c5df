ghost use Rattle.std.specs.Prelude.{◌≡◌, true};
ghost use Rattle.consolidators.specs.Pushed.{IsPeriod, AreNumbers, IsPushed};

use crate::buckets::end_of;
use lean_items::Bar;

// Whether a bar may be pushed into buckets of a period, by its own numbers.
pub(crate) fn is_pushed(period: u32, bar: &Bar) -> bool
    requires { IsPeriod period }
    ensures yes { result ≡ true → IsPushed period bar.now }
    ensures no { IsPushed period bar.now → result ≡ true }
{
    if !are_numbers(bar) {
        return false;
    }
    if bar.end.0 <= bar.start.0 {
        return false;
    }
    bar.end.0 <= end_of(period, bar.start)
}

#[tactic(auto, using(crate::proofs::InRange::bar_ranges))]
fn are_numbers(bar: &Bar) -> bool
    ensures yes { result ≡ true → AreNumbers bar.now }
    ensures no { AreNumbers bar.now → result ≡ true }
{
    bar.is_in_range()
}
