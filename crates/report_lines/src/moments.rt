ghost use Rattle.std.specs.Prelude.{◌≡◌, ◌+◌, ◌*◌, ◌<◌, ◌≤◌, ◌&&◌, nat_lt, IsTrue, [], ◌∷◌, length, Some, None, IfSome, if◌then◌else◌};
ghost use Rattle.std.specs.List.{list_all};
ghost use Rattle.lean_fixed.specs.Digits.{is_digit, value_of};
ghost use Rattle.lean_fixed.specs.Calendar.{day_of_digits};
ghost use Rattle.lean_fixed.specs.Ranges.{last_printed_moment};
ghost use Rattle.lean_fixed.specs.Printed.{moment_text};
ghost use Rattle.lean_fixed.specs.ReadBack.{date_of_text, clock_of_text, moment_at, moment_of_text};

use lean_fixed::{Day, laws};

// 24:00 of 2200-01-01, the last moment that may be printed.
const LAST_MOMENT: u64 = 120_970_080;

/// The moment that fourteen bytes are the text of: its day, a space and `HH:mm`.
pub fn read_moment(text: &[u8]) -> Option<u64>
    requires { length text.now ≡ 14 }
    ensures value { result ≡ moment_of_text text.now }
    ensures range { IfSome result (λ moment. moment ≤ last_printed_moment) }
    ensures same { IfSome result (λ moment. moment_text moment ≡ text.now) }
{
    laws::moment_prints_back();
    match moment_in(text) {
        Some(moment) => Some(moment),
        None => None,
    }
}

#[tactic(auto, unfolding(lean_fixed::specs::ReadBack::moment_of_text))]
fn moment_in(text: &[u8]) -> Option<u64>
    requires { length text.now ≡ 14 }
    ensures value { result ≡ moment_of_text text.now }
    ensures range { IfSome result (λ moment. moment ≤ last_printed_moment) }
{
    let day = read_date(&text[..8])?;
    let minute = read_clock(&text[8..])?;
    moment_at(day, minute)
}

fn moment_at(day: u64, minute: u64) -> Option<u64>
    requires day { day ≤ 84007 }
    requires minute { minute < 1440 }
    ensures value { result ≡ moment_at (Some day) (Some minute) }
    ensures range { IfSome result (λ moment. moment ≤ last_printed_moment) }
{
    let moment = 1_440 * day + minute;
    if moment <= LAST_MOMENT {
        Some(moment)
    } else {
        None
    }
}

// The day of a date, or one of the two behind the last day.
fn read_date(text: &[u8]) -> Option<u64>
    ensures value { result ≡ date_of_text text.now }
    ensures range { IfSome result (λ day. day ≤ 84007) }
{
    if text == b"22000101".as_slice() {
        return Some(84_006);
    }
    if text == b"22000102".as_slice() {
        return Some(84_007);
    }
    read_day(text)
}

fn read_day(text: &[u8]) -> Option<u64>
    ensures value { result ≡ day_of_digits text.now }
    ensures range { IfSome result (λ day. day ≤ 84005) }
{
    match Day::read(text) {
        Some(day) => Some(day.0.unsigned_abs() as u64),
        None => None,
    }
}

fn read_clock(text: &[u8]) -> Option<u64>
    ensures value { result ≡ clock_of_text text.now }
    ensures range { IfSome result (λ minute. minute < 1440) }
{
    match text {
        [space, a, b, colon, c, d] => {
            if *space != b' ' || *colon != b':' || !are_digits(*a, *b, *c, *d) {
                return None;
            }
            minute_at(two_digits(*a, *b), two_digits(*c, *d))
        }
        _ => None,
    }
}

fn minute_at(hour: u64, minute: u64) -> Option<u64>
    ensures { result ≡ (if nat_lt hour 24 && nat_lt minute 60 then Some (hour * 60 + minute) else None) }
{
    if hour < 24 && minute < 60 {
        Some(hour * 60 + minute)
    } else {
        None
    }
}

fn are_digits(a: u8, b: u8, c: u8, d: u8) -> bool
    ensures { result ≡ list_all is_digit (a ∷ b ∷ c ∷ d ∷ []) }
{
    a.is_ascii_digit() && b.is_ascii_digit() && c.is_ascii_digit() && d.is_ascii_digit()
}

fn two_digits(tens: u8, ones: u8) -> u64
    requires { IsTrue (is_digit tens) × IsTrue (is_digit ones) }
    ensures value { result ≡ value_of (tens ∷ ones ∷ []) }
    ensures range { result < 100 }
{
    (tens - b'0') as u64 * 10 + (ones - b'0') as u64
}
