//! The reader of hour and daily files.

ghost use Rattle.std.specs.Prelude.{◌≡◌, ◌+◌, ◌*◌, ◌<◌, ◌≤◌, ◌&&◌, if◌then◌else◌, [], ◌∷◌, length, drop, option_map, IfSome};
ghost use Rattle.lean_fixed.specs.Calendar.{last_day};
ghost use Rattle.lean_fixed.specs.Digits.{is_digit, value_of};
ghost use Rattle.lean_fixed.specs.Fields.{fields};
ghost use Rattle.lean_fixed.specs.Moments.{midnight};
ghost use Rattle.equity_csv.specs.Rows.{IsDated, hour_in, has_hour, dated_start, dated_row};
ghost use Rattle.equity_csv.specs.Reading.{first_of};

use crate::dates::Dates;
use crate::fields::without_start;
use crate::minute::first_minute;
use crate::row::Row;
use crate::values::read_values;
use lean_fixed::Resolution;
use lean_items::Reason;

/// The bytes of a time such as "20131007 15:00".
const TIME: usize = 14;

/// The row that a line of a file of hour or daily bars says. It has six or more fields: the time, `yyyyMMdd HH:00`, the
/// opening, high, low and closing price in 1/10000 dollar, and the volume, after LEAN's equity data format;
/// further fields say nothing. A daily row has the hour 00. A number may be followed by a point and zeros. The
/// reason is the first of these: `Fields` where there are fewer than six, `Time` where the time is not of its form, `Price`
/// where a price is no plain number from 1 to 10,000,000,000, `Volume` where the volume is no plain number of at most 10^15,
/// and `Range` where the opening or closing price does not lie from the low to the high.
pub fn read_dated(resolution: Resolution, text: &[u8]) -> Result<Row, Reason>
    requires { IsDated resolution }
    ensures { result ≡ dated_row resolution text.now }
{
    read_dated_by(&mut Dates::new(), resolution, text)
}

/// The same with the last date that was read, for lines of which many have the same date one after the other.
#[inline(always)]
pub fn read_dated_by(dates: &mut Dates, resolution: Resolution, text: &[u8]) -> Result<Row, Reason>
    requires { IsDated resolution }
    ensures { result ≡ dated_row resolution text.now }
{
    match take_start(dates, resolution, text) {
        Some(start) => read_values(start, text, TIME + 1),
        None => Err(without_start(text)),
    }
}

// The minute since 1970-01-01 00:00 at which the row starts, where a comma stands behind its time.
#[inline(always)]
fn take_start(dates: &mut Dates, resolution: Resolution, text: &[u8]) -> Option<u64>
    ensures read { option_map (λ n. (n, fields (drop 15 text.now))) result
        ≡ first_of (dated_start resolution) (fields text.now) }
    ensures most { IfSome result (λ n. n < midnight (last_day + 1)) }
    ensures within { IfSome result (λ _. 15 ≤ length text.now) }
{
    if text.len() <= TIME || text[TIME] != b',' {
        return None;
    }
    dated_start(dates, resolution, &text[..TIME])
}

#[inline(always)]
fn dated_start(dates: &mut Dates, resolution: Resolution, time: &[u8]) -> Option<u64>
    ensures read { result ≡ dated_start resolution time.now }
    ensures most { IfSome result (λ start. start < midnight (last_day + 1)) }
{
    if time.len() != TIME {
        return None;
    }
    let Some(date) = time.first_chunk::<8>() else {
        return None;
    };
    let day = dates.read(date)?;
    let hour = hour_in(&time[8..])?;
    if !has_hour(resolution, hour) {
        return None;
    }
    Some(first_minute(day) + hour * 60)
}

fn has_hour(resolution: Resolution, hour: u64) -> bool
    ensures { result ≡ has_hour resolution hour }
{
    match resolution {
        Resolution::Daily => hour == 0,
        _ => true,
    }
}

// The hour in what stands behind the day.
fn hour_in(text: &[u8]) -> Option<u64>
    ensures read { result ≡ hour_in text.now }
    ensures most { IfSome result (λ hour. hour ≤ 23) }
{
    if text.len() != 6 || text[0] != b' ' || text[3] != b':' || text[4] != b'0' || text[5] != b'0' {
        return None;
    }
    let hour = two_digits(text[1], text[2])?;
    if hour > 23 {
        return None;
    }
    Some(hour)
}

fn two_digits(tens: u8, ones: u8) -> Option<u64>
    ensures { result ≡ (if is_digit tens && is_digit ones
        then Some (value_of (tens ∷ ones ∷ [])) else None) }
{
    if !tens.is_ascii_digit() || !ones.is_ascii_digit() {
        return None;
    }
    Some((tens - b'0') as u64 * 10 + (ones - b'0') as u64)
}
