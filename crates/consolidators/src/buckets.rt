ghost use Rattle.std.specs.Prelude.{◌≡◌, ◌+ℤ◌, ◌||◌, [], ◌∷◌, Some, FitsSigned};
ghost use Rattle.std.specs.Int.{w64};
ghost use Rattle.lean_fixed.specs.Ranges.{IsMoment};
ghost use Rattle.consolidators.specs.Buckets.{bucket_start, bucket_end, bucket_at, bucket_of, bucket, greater, lesser, total};
ghost use Rattle.consolidators.specs.Pushed.{IsPeriod, IsPushed};
ghost use Rattle.consolidators.specs.Joined.{joined};

use lean_fixed::{Moment, Price, Shares};
use lean_items::Bar;

// The moment at which the bucket of a moment begins.
fn start_of(period: u32, at: Moment) -> i64
    requires period { IsPeriod period }
    requires at { IsMoment at.0 }
    ensures { result ≡ bucket_start period (bucket_at period at.0) }
{
    let minutes = period as i64;
    at.0.div_euclid(minutes) * minutes
}

// The moment at which the bucket of a moment ends.
pub(crate) fn end_of(period: u32, at: Moment) -> i64
    requires period { IsPeriod period }
    requires at { IsMoment at.0 }
    ensures { result ≡ bucket_end period (bucket_at period at.0) }
{
    start_of(period, at) + period as i64
}

// The bar of a bucket that holds one bar so far.
pub(crate) fn opened(period: u32, bar: &Bar) -> Bar
    requires period { IsPeriod period }
    requires bar { IsPushed period bar.now }
    ensures { Some result ≡ bucket period (bar.now ∷ []) (bucket_of period bar.now) }
{
    let start = start_of(period, bar.start);
    Bar {
        start: Moment(start),
        end: Moment(start + period as i64),
        ..*bar
    }
}

// The bar of a bucket with one bar more.
pub(crate) fn joined(so_far: &Bar, bar: &Bar) -> Bar
    requires { FitsSigned w64 (so_far.now.volume.0 +ℤ bar.now.volume.0) }
    ensures { result ≡ joined so_far.now bar.now }
{
    Bar {
        high: greater(so_far.high, bar.high),
        low: lesser(so_far.low, bar.low),
        closing: bar.closing,
        volume: total(so_far.volume, bar.volume),
        real: either(so_far.real, bar.real),
        ..*so_far
    }
}

fn greater(first: Price, second: Price) -> Price
    ensures { result ≡ greater first second }
{
    Price(first.0.max(second.0))
}

fn lesser(first: Price, second: Price) -> Price
    ensures { result ≡ lesser first second }
{
    Price(first.0.min(second.0))
}

fn total(first: Shares, second: Shares) -> Shares
    requires { FitsSigned w64 (first.0 +ℤ second.0) }
    ensures { result ≡ total first second }
{
    Shares(first.0 + second.0)
}

fn either(first: bool, second: bool) -> bool
    ensures { result ≡ (first || second) }
{
    first || second
}
