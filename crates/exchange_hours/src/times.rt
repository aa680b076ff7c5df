//! The times of day and the dates that an hours file spells.
ghost use Rattle.std.specs.Prelude.{◌≡◌, ◌≤◌, IfSome};
ghost use Rattle.lean_fixed.specs.Moments.{minutes_per_day};
ghost use Rattle.exchange_hours.specs.Times.{clock, hour_minute, without_seconds, time_of};

use lean_fixed::ranges::MINUTES_PER_DAY;
use lean_fixed::read_digits;

/// The time of day that `HH:mm` or `HH:mm:00` spells, or `1.00:00:00`, which is 24:00, in minutes from 00:00.
/// `None` exactly where the text has another form or is past 24:00.
pub(crate) fn read_time(text: &[u8]) -> Option<u16>
    ensures value { result ≡ time_of text.now }
    ensures within { IfSome result (λ minute. minute ≤ minutes_per_day) }
{
    let clock = without_seconds(text);
    if text == b"1.00:00:00".as_slice() || clock == b"24:00".as_slice() {
        return Some(MINUTES_PER_DAY as u16);
    }
    hour_minute(clock)
}

fn without_seconds(text: &[u8]) -> &[u8]
    ensures { result.now ≡ without_seconds text.now }
{
    if text.len() == 8 && &text[5..] == b":00".as_slice() {
        &text[..5]
    } else {
        text
    }
}

fn hour_minute(text: &[u8]) -> Option<u16>
    ensures value { result ≡ hour_minute text.now }
    ensures within { IfSome result (λ minute. minute ≤ minutes_per_day) }
{
    if text.len() != 5 || text[2] != b':' {
        return None;
    }
    clock(read_digits(&text[..2]), read_digits(&text[3..]))
}

fn clock(hour: Option<u64>, minute: Option<u64>) -> Option<u16>
    ensures value { result ≡ clock hour minute }
    ensures within { IfSome result (λ minute. minute ≤ minutes_per_day) }
{
    match (hour, minute) {
        (Some(hour), Some(minute)) if hour < 24 && minute < 60 => Some((60 * hour + minute) as u16),
        _ => None,
    }
}
