//! The values of a row in the usual spelling, which is digits alone, up to seven in a price. They are read in one step each
//! from a place of the whole line. What this reader does not know is left to the exact one.

ghost use Rattle.std.specs.Prelude.{◌≡◌, ◌+◌, ◌<◌, ◌≤◌, ℕ, List, [], length, drop, IfSome};
ghost use Rattle.lean_fixed.specs.Fields.{fields, plain_number};
ghost use Rattle.lean_fixed.specs.Ranges.{most_price, most_volume};
ghost use Rattle.equity_csv.specs.Rows.{price_in, volume_in};
ghost use Rattle.equity_csv.specs.Reading.{leading, first_of, first_prices, priced, IsPriced};

use core::dec2flt::read_digits;
use lean_fixed::ranges::{MOST_PRICE, MOST_VOLUME};

/// The most digits of a price that is read here. They and the byte before them fit in eight bytes.
const FEW: usize = 7;

/// A place from which on the reader of digits takes its last few in one step.
const LEAST_PLACE: usize = 5;

/// Digits of which no number grows past 10^18.
const MOST_DIGITS: usize = 18;

// A number in a text, and the place behind its comma.
#[derive(Clone, Copy)]
pub struct Found {
    pub number: u64,
    pub next: usize,
}

// The numbers behind the time.
#[derive(Clone, Copy)]
pub struct Plain {
    pub opening: u64,
    pub high: u64,
    pub low: u64,
    pub closing: u64,
    pub volume: u64,
}

// The four prices at a place of a line, and the place behind their commas.
#[derive(Clone, Copy)]
struct Prices {
    opening: u64,
    high: u64,
    low: u64,
    closing: u64,
    next: usize,
}

// The values at a place of a line. `None` tells nothing of the line.
#[inline(always)]
pub fn plain_values(line: &[u8], at: usize) -> Option<Plain>
    requires { at ≤ length line.now }
    ensures read { IfSome result (λ p. (rest : List (List ℕ))
        × (first_prices (fields (drop at line.now)) ≡ Some (priced p.opening p.high p.low p.closing rest))
        × (leading volume_in rest ≡ Some (p.volume, []))) }
    ensures prices { IfSome result (λ p. IsPriced p.opening p.high p.low p.closing) }
    ensures volume { IfSome result (λ p. p.volume ≤ most_volume) }
{
    let prices = plain_prices(line, at)?;
    let volume = last_volume(line, prices.next)?;
    Some(Plain {
        opening: prices.opening,
        high: prices.high,
        low: prices.low,
        closing: prices.closing,
        volume,
    })
}

#[inline(always)]
fn plain_prices(line: &[u8], at: usize) -> Option<Prices>
    requires { at ≤ length line.now }
    ensures read { IfSome result (λ p. first_prices (fields (drop at line.now))
        ≡ Some (priced p.opening p.high p.low p.closing (fields (drop p.next line.now)))) }
    ensures within { IfSome result (λ p. p.next ≤ length line.now) }
    ensures most { IfSome result (λ p. IsPriced p.opening p.high p.low p.closing) }
{
    let opening = plain_price(line, at)?;
    let high = plain_price(line, opening.next)?;
    let low = plain_price(line, high.next)?;
    let closing = plain_price(line, low.next)?;
    Some(Prices {
        opening: opening.number,
        high: high.number,
        low: low.number,
        closing: closing.number,
        next: closing.next,
    })
}

#[inline(always)]
fn plain_price(line: &[u8], at: usize) -> Option<Found>
    requires { at ≤ length line.now }
    ensures read { IfSome result (λ f. first_of price_in (fields (drop at line.now))
        ≡ Some (f.number, fields (drop f.next line.now))) }
    ensures within { IfSome result (λ f. f.next ≤ length line.now) }
    ensures most { IfSome result (λ f. f.number ≤ most_price) }
{
    if at < LEAST_PLACE || line.len() - at <= FEW {
        return None;
    }
    let found = number_before(line, at, at + FEW)?;
    if found.number == 0 || found.number > MOST_PRICE as u64 {
        return None;
    }
    Some(found)
}

// The number of the digits at a place of a line, where a comma stands behind them, not past a limit.
#[inline(always)]
pub fn number_before(line: &[u8], at: usize, limit: usize) -> Option<Found>
    requires order { at ≤ limit }
    requires within { limit < length line.now }
    requires few { limit ≤ at + 18 }
    ensures read { IfSome result (λ f. first_of plain_number (fields (drop at line.now))
        ≡ Some (f.number, fields (drop f.next line.now))) }
    ensures within { IfSome result (λ f. f.next ≤ limit + 1) }
{
    let (end, number) = read_digits(&line[..limit], at, 0);
    if end == at || line[end] != b',' {
        return None;
    }
    Some(Found {
        number,
        next: end + 1,
    })
}

// The volume of the digits that stand from a place of a line up to its end.
#[inline(always)]
fn last_volume(line: &[u8], at: usize) -> Option<u64>
    requires { at ≤ length line.now }
    ensures read { IfSome result (λ v. leading volume_in (fields (drop at line.now)) ≡ Some (v, [])) }
    ensures most { IfSome result (λ v. v ≤ most_volume) }
{
    let (end, volume) = read_digits(line, at, 0);
    if end == at || end < line.len() || end - at > MOST_DIGITS || volume > MOST_VOLUME as u64 {
        return None;
    }
    Some(volume)
}
