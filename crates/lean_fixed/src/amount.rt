ghost use Rattle.std.specs.Prelude.{◌≡◌, ◌+◌, ◌-◌, ◌*◌, ◌^◌, ◌<◌, ◌&&◌, nat_le, pos, length, position, if◌then◌else◌, option_map, IfSome};
ghost use Rattle.lean_fixed.specs.Digits.{are_digits, value_of};
ghost use Rattle.lean_fixed.specs.Amount.{amount, most_amount, is_amount, is_point, units_of};
ghost use Rattle.lean_fixed.specs.Ranges.{IsWithin};

use crate::Money;
use crate::digits::read_digits;

// The units in a dollar.
const UNITS: u128 = 10_000;

// The greatest amount that is read: 10^20 units.
const MOST: u128 = 100_000_000_000_000_000_000;

/// The amount that the bytes spell in dollars: digits, or digits, a point and one to four digits. `None` exactly where
/// the form is another or the amount is over 10^20 units; leading zeros are allowed.
pub fn read_amount(bytes: &[u8]) -> Option<Money>
    ensures value { result ≡ option_map (λ n. record { 0 = pos n }) (amount bytes.now) }
    ensures range { IfSome result (λ money. IsWithin (pos 0) (pos most_amount) money.0) }
{
    let (dollars, places) = split_at_point(bytes);
    let units = read_digits(dollars)? as u128 * UNITS + read_places(places)?;
    if units > MOST {
        return None;
    }
    Some(Money(units as i128))
}

// The digits before the point and those behind it, which are `0` where there is no point.
fn split_at_point(bytes: &[u8]) -> (&[u8], &[u8])
    ensures form { is_amount bytes.now ≡ (are_digits result.0.now && are_digits result.1.now
        && nat_le (length result.1.now) 4) }
    ensures units { units_of bytes.now
        ≡ value_of result.0.now * 10000 + value_of result.1.now * 10 ^ (4 - length result.1.now) }
{
    match point_in(bytes) {
        None => (bytes, b"0"),
        Some(at) => (&bytes[..at], &bytes[at + 1..]),
    }
}

fn point_in(bytes: &[u8]) -> Option<usize>
    ensures { result ≡ position is_point bytes.now }
{
    bytes.iter().position(|byte| *byte == b'.')
}

// The units that one to four digits behind a point stand for.
fn read_places(places: &[u8]) -> Option<u128>
    ensures value { result ≡ (if are_digits places.now && nat_le (length places.now) 4
        then Some (value_of places.now * 10 ^ (4 - length places.now)) else None) }
    ensures bound { IfSome result (λ units. units < 10000) }
{
    if places.len() > 4 {
        return None;
    }
    let value = read_digits(places)? as u128;
    Some(value * 10u128.pow(4 - places.len() as u32))
}
