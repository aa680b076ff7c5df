//! The session of a day, and the bars by it.
ghost use Rattle.std.specs.Prelude.{◌≡◌, ◌≤◌, ◌+◌, Some};
ghost use Rattle.lean_fixed.specs.Calendar.{last_day};
ghost use Rattle.exchange_hours.specs.Sessions.{session};
ghost use Rattle.row_feed.specs.Spans.{interval, end_by, meets_by};

use exchange_hours::Hours;
use lean_fixed::{Day, Resolution};

/// The moments, from 1970-01-01 00:00 on, at which the session of a day opens and closes.
#[derive(Clone, Copy)]
pub struct Span {
    pub opens: u64,
    pub closes: u64,
}

/// The session of a day, where it has one.
pub fn session_on(hours: &Hours, day: u32) -> Option<Span>
    requires { day ≤ last_day }
    ensures { interval result ≡ session hours.now day }
{
    match hours.session(Day(day as i32)) {
        Some(session) => Some(Span {
            opens: session.opens.0.unsigned_abs(),
            closes: session.closes.0.unsigned_abs(),
        }),
        None => None,
    }
}

/// When the bar of a start ends: a minute bar after 1 minute, an hour bar after 60, and a daily bar as the session of its
/// date closes. `None`: the daily bar of a date without a session.
pub fn end_by(resolution: Resolution, start: u64, session: Option<Span>) -> Option<u64>
    requires { start ≤ 121_000_000 }
    ensures { result ≡ end_by resolution start (interval session) }
{
    match resolution {
        Resolution::Minute => Some(start + 1),
        Resolution::Hour => Some(start + 60),
        Resolution::Daily => match session {
            Some(span) => Some(span.closes),
            None => None,
        },
    }
}

/// Whether a bar is in session: it ends after the opening of the session of the day of its start, and starts before the
/// closing.
pub fn meets(start: u64, end: u64, session: Option<Span>) -> bool
    ensures { result ≡ meets_by start end (interval session) }
{
    match session {
        Some(span) => span.opens < end && start < span.closes,
        None => false,
    }
}
