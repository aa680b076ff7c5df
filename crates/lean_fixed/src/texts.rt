ghost use Rattle.std.specs.Prelude.{◌≡◌, ◌+◌, ◌/◌, ◌%◌, ◌^◌, ◌<◌, ◌≤◌, ◌∷◌, ◌++◌, length, drop, decimal, unsigned_abs, OnOk, OnErr, vec_len, vec_capacity};
ghost use Rattle.std.specs.Fmt.{sign_text};
ghost use Rattle.lean_fixed.specs.Printed.{two_digits, four_digits, dollars_text, money_text, day_text, moment_text};
ghost use Rattle.lean_fixed.specs.Ranges.{IsDay, IsPrintedMoment};

use crate::ranges::MINUTES_PER_DAY;
use crate::time::date_at;
use crate::writing::{LONGEST_MONEY, LONGEST_PRICE, put_money, put_price};
use crate::{Day, Moment, Money, NoMemory, Price};

/// Appends a price: `-` where it is negative, the whole dollars, a point and four digits. At `NoMemory` the vector is as it was.
pub fn price_text(price: Price, out: &mut Vec<u8>) -> Result<(), NoMemory>
    ensures ok { OnOk result (out.new.items ≡ out.old.items ++ money_text price.0) }
    ensures err { OnErr result (out.new.items ≡ out.old.items) }
    ensures full { OnErr result
        (vec_capacity out.old < vec_len out.old + length (money_text price.0)) }
    ensures capacity { vec_capacity out.old ≤ vec_capacity out.new }
{
    let mut text = [0; LONGEST_PRICE];
    let behind = put_price(price, &mut text, 0);
    out.extend_from_slice(&text[..behind])?;
    Ok(())
}

/// Appends an amount of money in the same form. At `NoMemory` the vector is as it was.
pub fn money_text(money: Money, out: &mut Vec<u8>) -> Result<(), NoMemory>
    ensures ok { OnOk result (out.new.items ≡ out.old.items ++ money_text money.0) }
    ensures err { OnErr result (out.new.items ≡ out.old.items) }
    ensures full { OnErr result
        (vec_capacity out.old < vec_len out.old + length (money_text money.0)) }
    ensures capacity { vec_capacity out.old ≤ vec_capacity out.new }
{
    let mut text = [0; LONGEST_MONEY];
    let behind = put_money(money, &mut text, 0);
    out.extend_from_slice(&text[..behind])?;
    Ok(())
}

/// Appends a day as `yyyyMMdd`. At `NoMemory` the vector is as it was.
pub fn day_text(day: Day, out: &mut Vec<u8>) -> Result<(), NoMemory>
    requires { IsDay day.0 }
    ensures ok { OnOk result (out.new.items ≡ out.old.items ++ day_text (unsigned_abs day.0)) }
    ensures err { OnErr result (out.new.items ≡ out.old.items) }
    ensures full { OnErr result (vec_capacity out.old < vec_len out.old + 8) }
    ensures capacity { vec_capacity out.old ≤ vec_capacity out.new }
{
    out.extend_from_slice(&day.digits())?;
    Ok(())
}

/// Appends a moment as its day, a space and `HH:mm`; 24:00 of a day is 00:00 of the next. At `NoMemory` the vector is
/// as it was.
pub fn moment_text(moment: Moment, out: &mut Vec<u8>) -> Result<(), NoMemory>
    requires { IsPrintedMoment moment.0 }
    ensures ok { OnOk result
        (out.new.items ≡ out.old.items ++ moment_text (unsigned_abs moment.0)) }
    ensures err { OnErr result (out.new.items ≡ out.old.items) }
    ensures full { OnErr result (vec_capacity out.old < vec_len out.old + 14) }
    ensures capacity { vec_capacity out.old ≤ vec_capacity out.new }
{
    out.extend_from_slice(&moment_bytes(moment.0.unsigned_abs()))?;
    Ok(())
}

#[tactic(auto, unfolding(crate::specs::Printed::day_text))]
pub(crate) fn day_bytes(day: u32) -> [u8; 8]
    requires { day ≤ 84007 }
    ensures { result ≡ day_text day }
{
    let date = date_at(day);
    let [y1, y2, y3, y4] = four_digits(date.year.unsigned_abs());
    let [m1, m2] = two_digits(date.month as u16);
    let [d1, d2] = two_digits(date.day as u16);
    [y1, y2, y3, y4, m1, m2, d1, d2]
}

#[tactic(auto, unfolding(crate::specs::Printed::moment_text))]
pub(crate) fn moment_bytes(minute: u64) -> [u8; 14]
    requires { minute ≤ 120970080 }
    ensures { result ≡ moment_text minute }
{
    let of_day = (minute % MINUTES_PER_DAY as u64) as u16;
    let [y1, y2, y3, y4, n1, n2, d1, d2] = day_bytes((minute / MINUTES_PER_DAY as u64) as u32);
    let [h1, h2] = two_digits(of_day / 60);
    let [m1, m2] = two_digits(of_day % 60);
    [y1, y2, y3, y4, n1, n2, d1, d2, b' ', h1, h2, b':', m1, m2]
}

fn two_digits(number: u16) -> [u8; 2]
    ensures { result ≡ two_digits number }
{
    [digit(number / 10), digit(number)]
}

fn four_digits(number: u16) -> [u8; 4]
    ensures { result ≡ four_digits number }
{
    let [thousands, hundreds] = two_digits(number / 100);
    let [tens, ones] = two_digits(number);
    [thousands, hundreds, tens, ones]
}

// The last decimal digit.
fn digit(number: u16) -> u8
    ensures { result ≡ 48 + number % 10 }
{
    b'0' + (number % 10) as u8
}
