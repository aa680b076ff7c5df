//! The bar that is given again, and when.
ghost use Rattle.std.specs.Prelude.{◌≡◌, ◌<◌, ◌≤◌, ◌≤ℤ◌, pos, neg_ℤ, unsigned_abs};
ghost use Rattle.lean_items.specs.declared.feed_key.FeedKind.TheVariants.{Coarse, Equity};
ghost use Rattle.exchange_hours.specs.Grid.{bar_start};
ghost use Rattle.exchange_hours.specs.Sessions.{moment};
ghost use Rattle.clock_feeds.specs.Bars.{Filling, filled};
ghost use Rattle.fill_forward.specs.Again.{grid_of, IsNextEnd};

use exchange_hours::Hours;
use exchange_hours::laws::{grid_ends, sessions_lie};
use lean_fixed::ranges::MINUTES_PER_DAY;
use lean_fixed::{Moment, Resolution, Shares};
use lean_items::{Bar, FeedKey, FeedKind};

/// The resolution of the grid on which the feed of a key fills, where it fills at all.
pub fn grid_of(key: &FeedKey) -> Option<Resolution>
    ensures { result ≡ grid_of key.now }
{
    if !key.fill {
        return None;
    }
    match key.kind {
        FeedKind::Coarse => None,
        FeedKind::Equity(_, resolution) => Some(resolution),
    }
}

/// The first grid end between two moments, both left out.
pub fn next_end(
    hours: &Hours,
    resolution: Resolution,
    after: Moment,
    before: Moment,
) -> Option<Moment>
    requires low { neg_ℤ (pos 10000) ≤ℤ after.0 }
    requires high { after.0 ≤ℤ pos 121000000 }
    requires some { neg_ℤ (pos 10000) ≤ℤ before.0 }
    requires most { before.0 ≤ℤ pos 121000001 }
    ensures { IsNextEnd hours.now resolution after.0 before.0 result }
{
    // moments side by side have none between them
    if before.0 - after.0 < 2 {
        return None;
    }
    sessions_lie(hours);
    grid_ends();
    hours.grid_next(resolution, after, Moment(before.0 - 1))
}

/// The grid's bar that ends at a moment, with the prices of a row, no volume, and not real.
pub fn again(row: &Bar, resolution: Resolution, end: Moment) -> Bar
    requires low { pos 0 ≤ℤ end.0 }
    requires high { end.0 ≤ℤ pos 121000000 }
    ensures bar { (f : Filling) → f.resolution ≡ resolution → result ≡ filled f (unsigned_abs end.0) row.now }
    ensures end { result.end ≡ end }
{
    Bar {
        start: moment_of(start_of(resolution, end.0 as u32)),
        end,
        volume: Shares(0),
        real: false,
        ..*row
    }
}

// Where the grid's bar starts that ends at a minute, if there is one.
fn start_of(resolution: Resolution, end: u32) -> u32
    ensures start { result ≡ bar_start resolution end }
    ensures before { result ≤ end }
{
    match resolution {
        Resolution::Minute => end.saturating_sub(1),
        Resolution::Hour => end.saturating_sub(60),
        Resolution::Daily => end.saturating_sub(1) / MINUTES_PER_DAY * MINUTES_PER_DAY,
    }
}

fn moment_of(minute: u32) -> Moment
    ensures { result ≡ moment minute }
{
    Moment(minute as i64)
}
