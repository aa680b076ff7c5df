//! The numbers in the fields of a row.

ghost use Rattle.std.specs.Prelude.{◌≡◌, ◌-◌, ◌<◌, ◌≤◌, ◌==◌, ◌++◌, true, take, codes, IfSome};
ghost use Rattle.std.specs.List.{list_all, position};
ghost use Rattle.lean_fixed.specs.Amount.{is_point, dollars_of, places_of};
ghost use Rattle.lean_fixed.specs.Digits.{is_digit, value_of};
ghost use Rattle.lean_fixed.specs.Ranges.{most_price, most_volume};
ghost use Rattle.lean_items.specs.Coarse.{most_dollars};
ghost use Rattle.coarse_csv.specs.Rows.{whole_in, close_in, volume_in, dollars_in};

use lean_fixed::ranges::{MOST_PRICE, MOST_VOLUME};
use lean_fixed::read_digits;

/// The greatest dollar volume, in whole dollars.
const MOST_DOLLARS: u64 = 1_000_000_000_000_000;

/// The units in a dollar.
const UNITS: u64 = 10_000;

// What stands before the point of a field and behind it.
#[derive(Clone, Copy)]
struct Parts<'t> {
    whole: &'t [u8],
    places: &'t [u8],
}

// The close in a field, in 1/10000 dollar. `None` where the field is no decimal or its value is over the limit.
pub fn read_close(field: &[u8]) -> Option<u64>
    ensures value { result ≡ close_in field.now }
    ensures most { IfSome result (λ n. n ≤ most_price) }
{
    let dollars = read_whole(field)?;
    // No close has more dollars, and so the units do not grow past a few times the limit.
    if dollars > MOST_PRICE as u64 / UNITS {
        return None;
    }
    let units = dollars * UNITS + four_places(parts_of(field).places);
    if units > MOST_PRICE as u64 {
        return None;
    }
    Some(units)
}

// The volume in a field. `None` where the field is no plain number or its value is over the limit.
pub fn read_volume(field: &[u8]) -> Option<u64>
    ensures value { result ≡ volume_in field.now }
    ensures most { IfSome result (λ n. n ≤ most_volume) }
{
    let parts = parts_of(field);
    if !are_zeros(parts.places) {
        return None;
    }
    let volume = read_digits(parts.whole)?;
    if volume > MOST_VOLUME as u64 {
        return None;
    }
    Some(volume)
}

// The whole dollars in a field. `None` where the field is no decimal or its whole part is over the limit.
pub fn read_dollars(field: &[u8]) -> Option<u64>
    ensures value { result ≡ dollars_in field.now }
    ensures most { IfSome result (λ n. n ≤ most_dollars) }
{
    let dollars = read_whole(field)?;
    if dollars > MOST_DOLLARS {
        return None;
    }
    Some(dollars)
}

fn read_whole(field: &[u8]) -> Option<u64>
    ensures value { result ≡ whole_in field.now }
    ensures places { IfSome result (λ _. list_all is_digit (places_of field.now) ≡ true) }
{
    let parts = parts_of(field);
    if !are_decimals(parts.places) {
        return None;
    }
    read_digits(parts.whole)
}

fn parts_of(field: &[u8]) -> Parts<'_>
    ensures whole { result.whole.now ≡ dollars_of field.now }
    ensures places { result.places.now ≡ places_of field.now }
{
    match point_in(field) {
        None => Parts {
            whole: field,
            places: b"",
        },
        Some(at) => Parts {
            whole: &field[..at],
            places: &field[at + 1..],
        },
    }
}

fn point_in(field: &[u8]) -> Option<usize>
    ensures { result ≡ position is_point field.now }
{
    field.iter().position(|byte| *byte == b'.')
}

// What four digits behind a point stand for: the first four of these, and zeros where there are fewer.
fn four_places(places: &[u8]) -> u64
    requires { list_all is_digit places.now ≡ true }
    ensures value { result ≡ value_of (take 4 (places.now ++ codes "0000")) }
    ensures most { result < 10000 }
{
    match places {
        [] => 0,
        [a] => digit(*a) * 1000,
        [a, b] => digit(*a) * 1000 + digit(*b) * 100,
        [a, b, c] => digit(*a) * 1000 + digit(*b) * 100 + digit(*c) * 10,
        [a, b, c, d, ..] => digit(*a) * 1000 + digit(*b) * 100 + digit(*c) * 10 + digit(*d),
    }
}

fn digit(byte: u8) -> u64
    requires { is_digit byte ≡ true }
    ensures value { result ≡ byte - 48 }
    ensures most { result ≤ 9 }
{
    (byte - b'0') as u64
}

fn are_decimals(bytes: &[u8]) -> bool
    ensures { result ≡ list_all is_digit bytes.now }
{
    bytes.iter().all(|byte| is_decimal(*byte))
}

fn is_decimal(byte: u8) -> bool
    ensures { result ≡ is_digit byte }
{
    byte.is_ascii_digit()
}

fn are_zeros(bytes: &[u8]) -> bool
    ensures { result ≡ list_all (λ b. b == 48) bytes.now }
{
    bytes.iter().all(|byte| *byte == b'0')
}
