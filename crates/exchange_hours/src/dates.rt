//! The dates that an hours file spells.
ghost use Rattle.std.specs.Prelude.{◌≡◌, Some, option_map};
ghost use Rattle.exchange_hours.specs.Times.{civil, date_from, date_of, day_within};

use jiff_core::civil::Date;
use lean_fixed::read_digits;

/// The date that `M/D/YYYY` spells. `None` exactly where the text is no date of the civil calendar in this form.
pub(crate) fn read_date(text: &str) -> Option<Date>
    ensures { option_map civil result ≡ date_of text.now }
{
    let (month, rest) = text.split_once('/')?;
    let (day, year) = rest.split_once('/')?;
    if month.len() > 2 || day.len() > 2 || year.len() != 4 {
        return None;
    }
    date_from(
        read_digits(year.as_bytes()),
        read_digits(month.as_bytes()),
        read_digits(day.as_bytes()),
    )
}

fn date_from(year: Option<u64>, month: Option<u64>, day: Option<u64>) -> Option<Date>
    ensures { option_map civil result ≡ date_from year month day }
{
    match (year, month, day) {
        (Some(year), Some(month), Some(day)) => civil_date(year, month, day),
        _ => None,
    }
}

fn civil_date(year: u64, month: u64, day: u64) -> Option<Date>
    ensures { option_map civil result ≡ date_from (Some year) (Some month) (Some day) }
{
    if year > 9999 || month > 12 || day > 31 {
        return None;
    }
    Date::new(year as i16, month as i8, day as i8).ok()
}

/// The day of a date, as days since 1970-01-01. `None` exactly where it lies before 1970 or after 2199.
pub(crate) fn day_within(date: Date) -> Option<u32>
    ensures { result ≡ day_within (civil date) }
{
    if date.year < 1970 || date.year > 2199 {
        return None;
    }
    Some(date.to_unix_epoch_day().unsigned_abs())
}
