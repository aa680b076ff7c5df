ghost use Rattle.std.specs.Prelude.{◌≡◌, ◌<◌, ◌≤◌, ◌↔◌, ◌+ℤ◌, ◌≤ℤ◌, true, pos, unsigned_abs, IsNone, IsSome, is_some, IfSome, option_map};
ghost use Rattle.jiff_core.specs.Calendar.{IsBetween};
ghost use Rattle.jiff_core.specs.Date.{epoch_day, IsYmd};
ghost use Rattle.lean_fixed.specs.Printed.{day_text};
ghost use Rattle.lean_fixed.specs.Calendar.{is_civil, last_day, day_of_digits, civil_of, weekday};
ghost use Rattle.lean_fixed.specs.Moments.{midnight, day_of, minute_of_day, first_moment, last_moment};
ghost use Rattle.lean_fixed.specs.Ranges.{IsDay, IsMoment, is_moment, IsDatedMoment};

use crate::digits::read_digits;
use crate::ranges::{FIRST_MOMENT, LAST_DAY, LAST_MOMENT, MINUTES_PER_DAY};
use crate::texts::day_bytes;
use jiff_core::civil::Date;

/// A day as the number of days since 1970-01-01, from 0 to 84,005, which is 2199-12-31.
#[derive(Clone, Copy, Debug, PartialEq, Eq, PartialOrd, Ord)]
pub struct Day(pub i32);

/// A moment as the number of minutes since 1970-01-01 00:00 in the exchange's local time, from -10,000 to 121,000,000.
#[derive(Clone, Copy, Debug, PartialEq, Eq, PartialOrd, Ord)]
pub struct Moment(pub i64);

/// The days of a run, both included, each from 1970-01-02 to 2199-12-30. Its first moment is 00:00 of the first day, and
/// its last one 24:00 of the last day.
#[derive(Clone, Copy, Debug)]
pub struct Window {
    pub first: Day,
    pub last: Day,
}

// The year of the first day.
const FIRST_YEAR: u64 = 1970;

// The year of the last day.
const LAST_YEAR: u64 = 2199;

impl Day {
    /// The day that `yyyyMMdd` spells. `None` exactly where the bytes are not eight digits that are a date of the civil
    /// calendar from 19700101 to 21991231.
    pub fn read(bytes: &[u8]) -> Option<Day>
        ensures value { result ≡ option_map (λ n. record { 0 = pos n }) (day_of_digits bytes.now) }
        ensures range { IfSome result (λ day. IsDay day.0) }
    {
        if bytes.len() != 8 {
            return None;
        }
        let year = read_digits(&bytes[..4])?;
        let month = read_digits(&bytes[4..6])?;
        let day = read_digits(&bytes[6..8])?;
        Some(day_of(date_of(year, month, day)?))
    }

    /// The day of the week: 0 for Sunday to 6 for Saturday.
    pub fn weekday(self) -> u8
        requires { IsDay self.0 }
        ensures value { result ≡ weekday (unsigned_abs self.0) }
    {
        date_at(self.0.unsigned_abs())
            .weekday()
            .to_sunday_zero_offset()
            .unsigned_abs()
    }

    /// The eight digits of the day, `yyyyMMdd`.
    pub fn digits(self) -> [u8; 8]
        requires { IsDay self.0 }
        ensures value { result ≡ day_text (unsigned_abs self.0) }
    {
        day_bytes(self.0.unsigned_abs())
    }

    /// The day after this one. `None` exactly at the last day, 84,005.
    pub fn next(self) -> Option<Day>
        requires { IsDay self.0 }
        ensures none { IsNone result ↔ (self.0 ≡ pos last_day) }
        ensures value { IfSome result (λ day. day.0 ≡ self.0 +ℤ pos 1) }
    {
        if self.0 < LAST_DAY {
            Some(Day(self.0 + 1))
        } else {
            None
        }
    }

    /// The moment at which the day begins, 00:00.
    pub fn midnight(self) -> Moment
        requires { IsDay self.0 }
        ensures { result.0 ≡ pos (midnight (unsigned_abs self.0)) }
    {
        Moment(self.0 as i64 * MINUTES_PER_DAY as i64)
    }
}

impl Moment {
    /// Whether the moment lies from -10,000 to 121,000,000.
    #[inline]
    pub fn is_in_range(self) -> bool
        ensures value { result ≡ is_moment self.0 }
        ensures range { (result ≡ true) ↔ IsMoment self.0 }
    {
        FIRST_MOMENT <= self.0 && self.0 <= LAST_MOMENT
    }

    /// The day on which the moment lies. `None` exactly where it lies on none of the days that there are: before
    /// 1970-01-01 00:00, or at or after 24:00 of 2199-12-31.
    pub fn day(self) -> Option<Day>
        ensures dated { IsSome result ↔ IsDatedMoment self.0 }
        ensures value { IfSome result (λ day. day.0 ≡ pos (day_of (unsigned_abs self.0))) }
        ensures range { IfSome result (λ day. IsDay day.0) }
    {
        if self.0 < 0 {
            return None;
        }
        let day = self.0 / MINUTES_PER_DAY as i64;
        if day > LAST_DAY as i64 {
            return None;
        }
        Some(Day(day as i32))
    }

    /// The minute of the moment's day, from 0 to 1,439.
    pub fn minute_of_day(self) -> u32
        requires { pos 0 ≤ℤ self.0 }
        ensures { result ≡ minute_of_day (unsigned_abs self.0) }
    {
        (self.0 % MINUTES_PER_DAY as i64) as u32
    }
}

impl Window {
    /// The first moment of the window: 00:00 of its first day.
    pub fn first_moment(self) -> Moment
        requires { IsDay self.first.0 }
        ensures { result.0 ≡ pos (first_moment self) }
    {
        self.first.midnight()
    }

    /// The last moment of the window: 24:00 of its last day.
    pub fn last_moment(self) -> Moment
        requires { IsDay self.last.0 }
        ensures { result.0 ≡ pos (last_moment self) }
    {
        Moment(self.last.midnight().0 + MINUTES_PER_DAY as i64)
    }
}

fn date_of(year: u64, month: u64, day: u64) -> Option<Date>
    ensures civil { is_some result ≡ is_civil (record { year = year; month = month; day = day }) }
    ensures parts { IfSome result (IsYmd (pos year) (pos month) (pos day)) }
    ensures years { IfSome result (λ date. IsBetween (pos 1970) (pos 2199) date.year) }
{
    if year < FIRST_YEAR || year > LAST_YEAR || month > 12 || day > 31 {
        return None;
    }
    Date::new(year as i16, month as i8, day as i8).ok()
}

fn day_of(date: Date) -> Day
    requires { IsBetween (pos 1970) (pos 2199) date.year }
    ensures value { result.0 ≡ epoch_day date }
    ensures range { IsDay result.0 }
{
    Day(date.to_unix_epoch_day())
}

// The date of a day, which may also be one of the two after the last.
pub(crate) fn date_at(day: u32) -> Date
    requires { day ≤ 84007 }
    ensures year { result.year ≡ pos (civil_of day).year }
    ensures month { result.month ≡ (civil_of day).month }
    ensures day { result.day ≡ (civil_of day).day }
    ensures number { epoch_day result ≡ pos day }
{
    match Date::from_unix_epoch_day(day as i64) {
        Ok(date) => date,
        Err(_) => unreachable!(),
    }
}
