//! What an active security hears at a moment.
ghost use Rattle.std.specs.Prelude.{◌≡◌, ◌≤◌, ◌++◌, ◌∷◌, [], ℕ, true, List, length, drop, Option};
ghost use Rattle.lean_items.specs.declared.arrival.Arrival.{Arrival as Arrived};
ghost use Rattle.consolidators.specs.declared.consolidator.Consolidator.{Consolidator};
ghost use Rattle.lean_items.specs.Fits.{is_bar_in_range};
ghost use Rattle.clock_run.specs.Idle.{IsQuiet};
ghost use Rattle.lean_fixed.specs.Ranges.{IsMoment};
ghost use Rattle.consolidators.specs.Buckets.{bucket_at, bucket_end};
ghost use Rattle.consolidators.specs.Pushed.{IsPeriod};
ghost use Rattle.backtest_core.specs.Following.{period_in, CanTake, EndsFrom, IsPeriodIn};
ghost use Rattle.backtest_core.specs.Standing.{Followed, history, feed_of};
ghost use Rattle.backtest_core.specs.Inside.{bar_for, bars_in, with_bars};
ghost use Rattle.backtest_core.specs.Slices.{FitsNow, FitsOnce, AreInOrder};
ghost use Rattle.backtest_core.specs.Watching.{first_bar, is_behind, is_fit, Watches, WatchesAt};

use crate::watched::Watched;
use lean_fixed::Moment;
use lean_items::{Arrival, Bar, FeedNo, Item};

impl Watched {
    /// Hears its bar of a moment, where there is one. A bar that does not fit is passed over.
    pub fn arrive(&mut self, bar: Option<Bar>)
        ensures specs { self.new.following.windows.specs ≡ self.old.following.windows.specs }
        ensures arrives { (t : ℕ) (f : Followed) (slice : List Arrived) → Watches self.old f → IsQuiet t (history f)
            → FitsOnce t f (bars_in slice (feed_of f)) → bar ≡ first_bar (bars_in slice (feed_of f))
            → WatchesAt t self.new (with_bars slice f) }
    {
        match bar {
            None => self.rest(),
            Some(bar) => self.take(&bar),
        }
    }

    // No bar of it ends at the moment.
    fn rest(&mut self)
        ensures specs { self.new.following.windows.specs ≡ self.old.following.windows.specs }
        ensures rests { (t : ℕ) (f : Followed) → Watches self.old f → IsQuiet t (history f) → WatchesAt t self.new f }
    {
        self.ended = None;
        self.fresh = None;
    }

    // A bar of it ends at the moment, where the bar fits.
    fn take(&mut self, bar: &Bar)
        ensures specs { self.new.following.windows.specs ≡ self.old.following.windows.specs }
        ensures takes { (t : ℕ) (f : Followed) → Watches self.old f → IsQuiet t (history f) → FitsNow t f bar.now
            → WatchesAt t self.new (record f { bars = f.bars ++ bar.now ∷ [] }) }
    {
        if !is_fit(self.period, self.until, bar) {
            self.rest();
            return;
        }
        self.fresh = self.following.take(bar);
        self.until = bar.end;
        self.ended = Some(*bar);
    }
}

/// Where a search ended, and the bar that was found.
#[derive(Clone, Copy)]
pub(crate) struct Found {
    pub place: usize,
    pub bar: Option<Bar>,
}

/// The first bar of a feed in a slice from a place on, in which the numbers of the feeds do not fall.
pub(crate) fn find_bar(slice: &[Arrival], from: usize, feed: FeedNo) -> Found
    requires { from ≤ length slice.now }
    ensures within { result.place ≤ length slice.now }
    ensures found { AreInOrder slice.now
        → result.bar ≡ first_bar (bars_in (drop from slice.now) feed.0) }
    ensures passed { (later : ℕ) → feed.0 ≤ later
        → bars_in (drop from slice.now) later ≡ bars_in (drop result.place slice.now) later }
{
    for place in from..slice.len() {
        let arrival = &slice[place];
        if arrival.feed.0 > feed.0 {
            return Found { place, bar: None };
        }
        if let Some(bar) = bar_for(arrival, feed) {
            return Found {
                place,
                bar: Some(bar),
            };
        }
    }
    Found {
        place: slice.len(),
        bar: None,
    }
}

fn bar_for(arrival: &Arrival, feed: FeedNo) -> Option<Bar>
    ensures { result ≡ bar_for feed.0 arrival.now }
{
    if arrival.feed != feed {
        return None;
    }
    match arrival.item {
        Item::Bar(bar) => Some(bar),
        Item::Coarse(_, _) => None,
        Item::Bad(_) => None,
        Item::Faulted => None,
        Item::End => None,
    }
}

// Whether a bar may be taken behind bars that ended by a moment.
fn is_fit(period: Option<u32>, until: Moment, bar: &Bar) -> bool
    requires { IsPeriodIn period }
    ensures tests { result ≡ is_fit period until.0 bar.now }
    ensures takes { (longer : Option Consolidator) → period ≡ period_in longer → EndsFrom until.0 longer
        → result ≡ true → CanTake longer bar.now }
{
    bar.is_in_range() && is_behind(period, until, bar)
}

// Whether a bar ends behind its start and within its bucket, and starts no earlier than the bars before it ended.
fn is_behind(period: Option<u32>, until: Moment, bar: &Bar) -> bool
    requires period { IsPeriodIn period }
    requires start { IsMoment bar.now.start.0 }
    ensures tests { result ≡ is_behind period until.0 bar.now }
{
    match period {
        None => true,
        Some(period) => {
            until.0 <= bar.start.0
                && bar.start.0 < bar.end.0
                && bar.end.0 <= bucket_end(period, bar.start)
        }
    }
}

// Where the bucket of a moment ends.
fn bucket_end(period: u32, at: Moment) -> i64
    requires period { IsPeriod period }
    requires at { IsMoment at.0 }
    ensures { result ≡ bucket_end period (bucket_at period at.0) }
{
    at.0.div_euclid(period as i64) * period as i64 + period as i64
}
