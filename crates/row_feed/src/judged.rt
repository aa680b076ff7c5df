//! What becomes of a row.
ghost use Rattle.std.specs.Prelude.{◌≡◌, ◌≤◌, Some};
ghost use Rattle.row_feed.specs.Spans.{interval, meets_by};
ghost use Rattle.row_feed.specs.Judged.{judged, KeptWithin};

use crate::span::{Span, meets};
use lean_fixed::Moment;

/// What becomes of a row by its end.
#[derive(Clone, Copy)]
pub enum Judged {
    /// It is given, with this end.
    Kept(u64),
    /// It is out of session, ends at or before the start of the feed, or has no end.
    PassedOver,
    /// It ends after the last moment of the window.
    PastWindow,
}

/// Judges the row of a bar, by the session of the day of its start.
pub fn judge_bar(
    after: Moment,
    last: u64,
    start: u64,
    end: Option<u64>,
    session: Option<Span>,
) -> Judged
    requires { last ≤ 121_000_000 }
    ensures value { result ≡ judged after.0 last (λ t. meets_by start t (interval session)) end }
    ensures within { KeptWithin after.0 last end result }
{
    match end {
        Some(end) => judge(after, last, end, meets(start, end, session)),
        None => Judged::PassedOver,
    }
}

/// Judges a row that ends at a moment, and is in session or not.
pub fn judge(after: Moment, last: u64, end: u64, is_in: bool) -> Judged
    requires { last ≤ 121_000_000 }
    ensures value { result ≡ judged after.0 last (λ _. is_in) (Some end) }
    ensures within { KeptWithin after.0 last (Some end) result }
{
    if end > last {
        Judged::PastWindow
    } else if after.0 < end as i64 && is_in {
        Judged::Kept(end)
    } else {
        Judged::PassedOver
    }
}
