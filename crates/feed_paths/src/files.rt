//! The files of a feed by their numbers, in the order in which they are read.
ghost use Rattle.std.specs.Prelude.{◌≡◌, ◌+◌, ◌≤◌, ◌-ℤ◌, ◌≤ℤ◌, pos, true, is_some, IfNone, IfSome, Some, None, if◌then◌else◌, [], ◌∷◌};
ghost use Rattle.lean_fixed.specs.Calendar.{last_day};
ghost use Rattle.feed_paths.specs.Files.{from_1970, day_of, count_to, has_session, files_after};
ghost use Rattle.feed_paths.specs.Least.{IsLeast, first_past};

use exchange_hours::Hours;
use lean_fixed::ranges::MINUTES_PER_DAY;
use lean_fixed::{Day, Moment, Resolution, Window};
use lean_items::{FeedKey, FeedKind};

/// The number of a feed's first file, or of the first past the number `after`. `None` exactly where there is none.
///
/// The number of a minute or a coarse file is its day, as days since 1970-01-01. A security has a minute file for each day
/// with a session, from the day of the feed's start to the last day of the window. There is a coarse file for each day
/// from the day before the window to the last but one day of the window, and none before 1970, with or without a session.
/// The hour and the daily file of a security are one each, and have the number 0.
///
/// The files are those of US equities in LEAN's "Data Format" topic. The window ends by 2199-12-31, day 84,005.
pub fn next_file(key: FeedKey, window: Window, hours: &Hours, after: Option<u32>) -> Option<u32>
    requires { window.last.0 ≤ℤ pos last_day }
    ensures none { IfNone result (files_after key window hours.now after ≡ []) }
    ensures rest { IfSome result (λ n. files_after key window hours.now after
        ≡ n ∷ files_after key window hours.now (Some n)) }
    ensures day { IfSome result (λ n. n ≤ last_day) }
{
    match key.kind {
        FeedKind::Coarse => next_coarse(window, after),
        FeedKind::Equity(_, resolution) => match resolution {
            Resolution::Minute => next_minute(key.start, window.last, hours, after),
            Resolution::Hour | Resolution::Daily => only_file(after),
        },
    }
}

// The least day past `after`, from the day before the window's first to the day before its last.
fn next_coarse(window: Window, after: Option<u32>) -> Option<u32>
    requires { window.last.0 ≤ℤ pos last_day }
    ensures { IsLeast (λ _. true) (first_past (from_1970 (window.first.0 -ℤ pos 1)) after)
        (count_to (window.last.0 -ℤ pos 1)) result }
{
    let day = first_day(window.first.0 as i64 - 1, after);
    if (day as i64) < window.last.0 as i64 {
        Some(day as u32)
    } else {
        None
    }
}

// The least day past `after` with a session, from the day of a moment to the last one of the window.
fn next_minute(start: Moment, last: Day, hours: &Hours, after: Option<u32>) -> Option<u32>
    requires { last.0 ≤ℤ pos last_day }
    ensures { IsLeast (has_session hours.now) (first_past (day_of start.0) after)
        (count_to last.0) result }
{
    let end = (last.0 as i64 + 1).max(0) as u64;
    next_session(
        hours,
        first_day(start.0 / MINUTES_PER_DAY as i64, after),
        end,
    )
}

// The least day with a session, from one day on and before another.
fn next_session(hours: &Hours, from: u64, end: u64) -> Option<u32>
    requires { end ≤ last_day + 1 }
    ensures { IsLeast (has_session hours.now) from end result }
{
    for day in from..end {
        if hours.session(Day(day as i32)).is_some() {
            return Some(day as u32);
        }
    }
    None
}

// The first day that is neither before `from` nor before 1970-01-01, and past `after`.
fn first_day(from: i64, after: Option<u32>) -> u64
    ensures { result ≡ first_past (from_1970 from) after }
{
    let from = from.max(0) as u64;
    match after {
        Some(file) => from.max(file as u64 + 1),
        None => from,
    }
}

// The number of the one file of a feed.
fn only_file(after: Option<u32>) -> Option<u32>
    ensures { result ≡ (if is_some after then None else Some 0) }
{
    match after {
        Some(_) => None,
        None => Some(0),
    }
}
