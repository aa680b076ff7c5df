//! Texts that are written at a place of a buffer. Each call gives the place behind the text, and leaves what stands before and
//! behind it as it was.
ghost use Rattle.std.specs.Prelude.{◌≡◌, ◌+◌, ◌^◌, ◌<◌, ◌≤◌, ◌∷◌, ◌++◌, [], length, take, drop, decimal, unsigned_abs};
ghost use Rattle.std.specs.Fmt.{sign_text};
ghost use Rattle.lean_fixed.specs.Printed.{four_digits, money_text, day_text, moment_text};
ghost use Rattle.lean_fixed.specs.Ranges.{IsDay, IsPrintedMoment};
ghost use Rattle.lean_fixed.specs.Written.{IsWritten};

use crate::texts::moment_bytes;
use crate::{Day, Moment, Money, Price};
use itoa::write_digits;

/// The most bytes of the text of a number.
pub const LONGEST_NUMBER: usize = 20;

/// The most bytes of the text of a price: a sign, 15 digits, a point and four digits.
pub const LONGEST_PRICE: usize = 21;

/// The most bytes of the text of money: a sign, 35 digits, a point and four digits.
pub const LONGEST_MONEY: usize = 41;

// The units in a dollar.
const UNITS: u64 = 10_000;

/// Writes the decimal digits of a number at a place of a buffer, and gives the place behind them.
#[inline]
pub fn put_number(number: u64, buffer: &mut [u8], place: usize) -> usize
    requires room { place + 20 ≤ length buffer.old }
    ensures written { IsWritten (decimal number) place buffer.old buffer.new result }
    ensures most { result ≤ place + 20 }
{
    let behind = place + digit_count(number);
    write_digits(number, buffer, behind);
    behind
}

/// Writes a price in the same way: `-` where it is negative, the whole dollars, a point and four digits.
#[inline]
pub fn put_price(price: Price, buffer: &mut [u8], place: usize) -> usize
    requires room { place + 21 ≤ length buffer.old }
    ensures written { IsWritten (money_text price.0) place buffer.old buffer.new result }
    ensures most { result ≤ place + 21 }
{
    let units = price.0.unsigned_abs();
    let first = put_sign(price.0.is_negative(), buffer, place);
    let point = put_number(units / UNITS, buffer, first);
    put_places(units % UNITS, buffer, point)
}

/// Writes an amount of money in the same form.
pub fn put_money(money: Money, buffer: &mut [u8], place: usize) -> usize
    requires room { place + 41 ≤ length buffer.old }
    ensures written { IsWritten (money_text money.0) place buffer.old buffer.new result }
    ensures most { result ≤ place + 41 }
{
    let units = money.0.unsigned_abs();
    let first = put_sign(money.0.is_negative(), buffer, place);
    let point = put_wide(units / UNITS as u128, buffer, first);
    put_places((units % UNITS as u128) as u64, buffer, point)
}

/// Writes a day as `yyyyMMdd`.
pub fn put_day(day: Day, buffer: &mut [u8], place: usize) -> usize
    requires day { IsDay day.0 }
    requires room { place + 8 ≤ length buffer.old }
    ensures written { IsWritten (day_text (unsigned_abs day.0)) place buffer.old buffer.new result }
    ensures most { result ≡ place + 8 }
{
    put_text(&day.digits(), buffer, place)
}

/// Writes a moment as its day, a space and `HH:mm`; 24:00 of a day is 00:00 of the next.
pub fn put_moment(moment: Moment, buffer: &mut [u8], place: usize) -> usize
    requires moment { IsPrintedMoment moment.0 }
    requires room { place + 14 ≤ length buffer.old }
    ensures written { IsWritten (moment_text (unsigned_abs moment.0)) place buffer.old buffer.new result }
    ensures most { result ≡ place + 14 }
{
    put_text(&moment_bytes(moment.0.unsigned_abs()), buffer, place)
}

/// Writes a text that is at hand.
#[inline]
pub fn put_text(text: &[u8], buffer: &mut [u8], place: usize) -> usize
    requires room { place + length text.now ≤ length buffer.old }
    ensures written { IsWritten text.now place buffer.old buffer.new result }
{
    let behind = place + text.len();
    buffer[place..behind].copy_from_slice(text);
    behind
}

// Writes `-` where an amount is negative.
#[inline(always)]
fn put_sign(negative: bool, buffer: &mut [u8], place: usize) -> usize
    requires { place + 1 ≤ length buffer.old }
    ensures written { IsWritten (sign_text negative) place buffer.old buffer.new result }
    ensures most { result ≤ place + 1 }
{
    if !negative {
        return place;
    }
    buffer[place] = b'-';
    place + 1
}

// Writes the whole dollars of money. The digits past 64 bits go one at a time.
fn put_wide(dollars: u128, buffer: &mut [u8], place: usize) -> usize
    requires small { dollars < 10 ^ 35 }
    requires room { place + 35 ≤ length buffer.old }
    ensures written { IsWritten (decimal dollars) place buffer.old buffer.new result }
    ensures most { result ≤ place + 35 }
{
    if dollars <= u64::MAX as u128 {
        return put_number(dollars as u64, buffer, place);
    }
    let last = put_wide(dollars / 10, buffer, place);
    buffer[last] = b'0' + (dollars % 10) as u8;
    last + 1
}

// Writes a point and the last four digits of a number. With a 1 before the four digits their zeros are written too; the point
// takes its place.
#[inline(always)]
fn put_places(units: u64, buffer: &mut [u8], point: usize) -> usize
    requires { point + 5 ≤ length buffer.old }
    ensures written { IsWritten (46 ∷ four_digits units) point buffer.old buffer.new result }
{
    write_digits(UNITS + units % UNITS, buffer, point + 5);
    buffer[point] = b'.';
    point + 5
}

// How many decimal digits a number has.
#[inline]
fn digit_count(number: u64) -> usize
    ensures value { result ≡ length (decimal number) }
    ensures most { result ≤ 20 }
{
    let mut left = number;
    let mut count = 0;
    while left >= UNITS {
        left /= UNITS;
        count += 4;
    }
    count + short_count(left)
}

#[inline(always)]
fn short_count(number: u64) -> usize
    requires { number < 10000 }
    ensures { result ≡ length (decimal number) }
{
    if number < 10 {
        return 1;
    }
    if number < 100 {
        return 2;
    }
    if number < 1_000 {
        return 3;
    }
    4
}
