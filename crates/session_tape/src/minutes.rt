//! The minutes at which something ends.
ghost use Rattle.std.specs.Prelude.{◌≡◌, ℕ, ◌+◌, ◌<◌, ◌≤◌, ◌≤ℤ◌, pos, Some, MatchOption};
ghost use Rattle.std.specs.List.{All};
ghost use Rattle.lean_fixed.specs.Moments.{last_moment};
ghost use Rattle.lean_fixed.specs.Ranges.{IsWindow};
ghost use Rattle.lean_items.specs.Given.{end_of};
ghost use Rattle.exchange_hours.specs.Sessions.{moment};
ghost use Rattle.frontier_sync.specs.Heads.{EndsFrom};

use frontier_sync::Heads;
use lean_fixed::{Moment, Window};

// The next minute at which a head ends, behind one before which all heads end later. `None`: no head ends in the window.
pub(crate) fn next_minute(heads: &Heads, window: Window) -> Option<u32>
    requires window { IsWindow window }
    requires some { All (λ a. EndsFrom (pos 0) (end_of a.item)) heads.now }
    ensures { MatchOption result
        (All (λ a. EndsFrom (pos (last_moment window + 1)) (end_of a.item)) heads.now)
        (λ t. (t ≤ last_moment window)
        × ((s : ℕ) → All (λ a. EndsFrom (pos s) (end_of a.item)) heads.now → s ≤ t)
        × All (λ a. EndsFrom (pos t) (end_of a.item)) heads.now) }
{
    match heads.next_frontier() {
        Some(at) => {
            if at > window.last_moment() {
                None
            } else {
                Some(minute_of(at))
            }
        }
        None => None,
    }
}

// The number of a moment that is not negative.
fn minute_of(moment: Moment) -> u32
    requires low { pos 0 ≤ℤ moment.0 }
    requires high { moment.0 ≤ℤ pos 121000000 }
    ensures { moment.0 ≡ pos result }
{
    moment.0 as u32
}

// The moment of a minute.
pub(crate) fn moment_of(minute: u32) -> Moment
    ensures { result.0 ≡ pos minute }
{
    Moment(minute as i64)
}
