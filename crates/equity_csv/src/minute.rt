//! The reader of minute files.

ghost use Rattle.std.specs.Prelude.{◌≡◌, ◌+◌, ◌*◌, ◌/◌, ◌<◌, ◌≤◌, length, drop, unsigned_abs, IfSome};
ghost use Rattle.lean_fixed.specs.Calendar.{last_day};
ghost use Rattle.lean_fixed.specs.Fields.{fields};
ghost use Rattle.lean_fixed.specs.Moments.{minutes_per_day, midnight};
ghost use Rattle.lean_fixed.specs.Ranges.{IsDay};
ghost use Rattle.equity_csv.specs.Rows.{minute_in, minute_start, minute_row};
ghost use Rattle.equity_csv.specs.Reading.{first_of, number_and_rest};

use crate::fields::without_start;
use crate::number::{Leading, take_number};
use crate::plain::number_before;
use crate::row::Row;
use crate::values::{read_any_values, read_values};
use lean_fixed::Day;
use lean_fixed::ranges::MINUTES_PER_DAY;
use lean_items::Reason;

/// The milliseconds of a minute.
pub const MINUTE: u64 = 60_000;

/// The digits of a time from 02:46:40 on.
const TIME: usize = 8;

/// The milliseconds of a day.
const DAY: u64 = MINUTES_PER_DAY as u64 * MINUTE;

/// The row that a line of the minute file of a day says. It has six or more fields: the time in milliseconds since 00:00,
/// the opening, high, low and closing price in 1/10000 dollar, and the volume, after LEAN's equity data format;
/// further fields say nothing. A number may be followed by a point and zeros. The reason is the first of these:
/// `Fields` where there are fewer than six, `Time` where the time is no plain number below 86,400,000 that is a multiple of
/// 60,000, `Price` where a price is no plain number from 1 to 10,000,000,000, `Volume` where the volume is no plain number of
/// at most 10^15, and `Range` where the opening or closing price does not lie from the low to the high.
#[inline(always)]
pub fn read_minute(day: Day, text: &[u8]) -> Result<Row, Reason>
    requires { IsDay day.0 }
    ensures { result ≡ minute_row (unsigned_abs day.0) text.now }
{
    match plain_minute(text) {
        Some(minute) => read_values(first_minute(day) + minute, text, TIME + 1),
        None => read_any_minute(day, text),
    }
}

// The same of a text in any spelling.
#[cold]
#[inline(never)]
fn read_any_minute(day: Day, text: &[u8]) -> Result<Row, Reason>
    requires { IsDay day.0 }
    ensures { result ≡ minute_row (unsigned_abs day.0) text.now }
{
    match take_start(day, text) {
        Some(time) => read_any_values(time.number, time.behind),
        None => Err(without_start(text)),
    }
}

// The minute of the day in the eight digits that a text begins with, where a comma stands behind them. `None` tells nothing
// of the text.
#[inline(always)]
fn plain_minute(text: &[u8]) -> Option<u64>
    ensures read { IfSome result (λ m. first_of minute_in (fields text.now)
        ≡ Some (m, fields (drop 9 text.now))) }
    ensures most { IfSome result (λ m. m < minutes_per_day) }
    ensures within { IfSome result (λ _. 9 ≤ length text.now) }
{
    if text.len() <= TIME {
        return None;
    }
    let time = number_before(text, 0, TIME)?;
    if time.next <= TIME || time.number >= DAY || time.number % MINUTE != 0 {
        return None;
    }
    Some(time.number / MINUTE)
}

// The minute since 1970-01-01 00:00 at which the row starts.
fn take_start(day: Day, text: &[u8]) -> Option<Leading<'_>>
    requires { IsDay day.0 }
    ensures read { number_and_rest result
        ≡ first_of (minute_start (unsigned_abs day.0)) (fields text.now) }
    ensures most { IfSome result (λ t. t.number < midnight (last_day + 1)) }
{
    let time = take_minute(text)?;
    Some(Leading {
        number: first_minute(day) + time.number,
        behind: time.behind,
    })
}

// The minute of the day.
fn take_minute(text: &[u8]) -> Option<Leading<'_>>
    ensures read { number_and_rest result ≡ first_of minute_in (fields text.now) }
    ensures most { IfSome result (λ t. t.number < minutes_per_day) }
{
    let time = take_number(text, DAY - 1)?;
    if time.number % MINUTE != 0 {
        return None;
    }
    Some(Leading {
        number: time.number / MINUTE,
        behind: time.behind,
    })
}

// The minute since 1970-01-01 00:00 at which a day begins.
pub fn first_minute(day: Day) -> u64
    requires { IsDay day.0 }
    ensures value { result ≡ midnight (unsigned_abs day.0) }
    ensures most { result ≤ midnight last_day }
{
    day.midnight().0.unsigned_abs()
}
