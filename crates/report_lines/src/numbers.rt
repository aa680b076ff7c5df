ghost use Rattle.std.specs.Prelude.{◌≡◌, ◌≤◌, ◌&&◌, ◌==◌, pos, length, position, decimal, IfSome};
ghost use Rattle.lean_fixed.specs.Amount.{is_point, dollars_of, places_of};
ghost use Rattle.lean_fixed.specs.ReadBack.{has_no_leading_zero, number_of_text, amount_of_text};
ghost use Rattle.lean_fixed.specs.Ranges.{most_quantity, IsQuantity, IsFillPrice, IsFee};
ghost use Rattle.lean_fixed.specs.Printed.{money_text};
ghost use Rattle.report_lines.specs.EventLines.{quantity_text};
ghost use Rattle.report_lines.specs.Reading.{in_range, id_of_text, shares_of_text, quantity_of_text, price_of_text, fee_of_text};

use lean_fixed::{Money, Price, Shares, laws, read_amount, read_digits};

// The greatest id, the most shares of an order, and the greatest price and fee of a fill.
const MOST_ID: u64 = 1_000_000;

const MOST_SHARES: u64 = 1_000_000_000;

const MOST_PRICE: u128 = 10_001_000_000;

const MOST_FEE: u128 = 1_000_000_000_000_000;

fn has_no_leading_zero(text: &[u8]) -> bool
    ensures { result ≡ has_no_leading_zero text.now }
{
    match text {
        [b'0'] => true,
        [b'0', ..] => false,
        _ => true,
    }
}

fn number(text: &[u8]) -> Option<u64>
    ensures value { result ≡ number_of_text text.now }
    ensures same { IfSome result (λ number. decimal number ≡ text.now) }
{
    laws::number_prints_back();
    if has_no_leading_zero(text) {
        read_digits(text)
    } else {
        None
    }
}

fn in_range(least: u64, most: u64, number: u64) -> Option<u64>
    ensures value { result ≡ in_range least most number }
    ensures within { IfSome result (λ n. (n ≡ number) × (least ≤ n) × (n ≤ most)) }
{
    if least <= number && number <= most {
        Some(number)
    } else {
        None
    }
}

/// The id of an order, from 1 to 1,000,000, in its plainest spelling.
pub fn read_id(text: &[u8]) -> Option<u32>
    ensures value { result ≡ id_of_text text.now }
    ensures range { IfSome result (λ id. (1 ≤ id) × (id ≤ 1000000)) }
    ensures same { IfSome result (λ id. decimal id ≡ text.now) }
{
    let id = in_range(1, MOST_ID, number(text)?)?;
    Some(id as u32)
}

fn read_shares(text: &[u8]) -> Option<u64>
    ensures value { result ≡ shares_of_text text.now }
    ensures range { IfSome result (λ n. (1 ≤ n) × (n ≤ most_quantity)) }
    ensures same { IfSome result (λ n. decimal n ≡ text.now) }
{
    in_range(1, MOST_SHARES, number(text)?)
}

/// A quantity, not 0 and within 1,000,000,000 either way, with `-` before it where it is negative.
pub fn read_quantity(text: &[u8]) -> Option<Shares>
    ensures value { result ≡ quantity_of_text text.now }
    ensures range { IfSome result (λ quantity. IsQuantity quantity.0) }
    ensures same { IfSome result (λ quantity. quantity_text quantity.0 ≡ text.now) }
{
    match text {
        [] => None,
        [b'-', rest @ ..] => {
            let shares = read_shares(rest)?;
            Some(Shares(-(shares as i64)))
        }
        _ => {
            let shares = read_shares(text)?;
            Some(Shares(shares as i64))
        }
    }
}

/// A price, from 1 to 10,001,000,000 units, in dollars with four places.
pub fn read_price(text: &[u8]) -> Option<Price>
    ensures value { result ≡ price_of_text text.now }
    ensures range { IfSome result (λ price. IsFillPrice price.0) }
    ensures same { IfSome result (λ price. money_text price.0 ≡ text.now) }
{
    let units = read_units(text)?;
    if units < 1 || units > MOST_PRICE {
        return None;
    }
    Some(Price(units as i64))
}

/// A fee, from 0 to 10^15 units, in the same form.
pub fn read_fee(text: &[u8]) -> Option<Money>
    ensures value { result ≡ fee_of_text text.now }
    ensures range { IfSome result (λ fee. IsFee fee.0) }
    ensures same { IfSome result (λ fee. money_text fee.0 ≡ text.now) }
{
    let units = read_units(text)?;
    if units > MOST_FEE {
        return None;
    }
    Some(Money(units as i128))
}

// The units of dollars without a leading zero, a point and four digits.
fn read_units(text: &[u8]) -> Option<u128>
    ensures value { result ≡ amount_of_text text.now }
    ensures same { IfSome result (λ units. money_text (pos units) ≡ text.now) }
{
    laws::amount_prints_back();
    laws::money_has_no_sign();
    if !has_plain_form(text) {
        return None;
    }
    let money = read_amount(text)?;
    Some(money.0.unsigned_abs())
}

fn has_plain_form(text: &[u8]) -> bool
    ensures { result
        ≡ (has_no_leading_zero (dollars_of text.now) && (length (places_of text.now) == 4)) }
{
    match point_in(text) {
        None => false,
        Some(at) => has_no_leading_zero(&text[..at]) && text.len() - at == 5,
    }
}

fn point_in(text: &[u8]) -> Option<usize>
    ensures { result ≡ position is_point text.now }
{
    text.iter().position(|byte| *byte == b'.')
}
