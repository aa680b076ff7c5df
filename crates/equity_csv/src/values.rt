//! The prices and the volume of a row.

ghost use Rattle.std.specs.Prelude.{◌≡◌, ◌+◌, ◌<◌, ◌≤◌, [], ◌∷◌, length, drop, option_map, IfSome};
ghost use Rattle.lean_fixed.specs.Calendar.{last_day};
ghost use Rattle.lean_fixed.specs.Fields.{fields};
ghost use Rattle.lean_fixed.specs.Moments.{midnight};
ghost use Rattle.lean_fixed.specs.Ranges.{most_price, most_volume};
ghost use Rattle.equity_csv.specs.Rows.{price_in, is_ranged, row_of, row_of_values, row_of_fields};
ghost use Rattle.equity_csv.specs.Reading.{first_of, first_prices, number_and_rest, priced, IsPriced};

use crate::fields::has_fields;
use crate::number::{Leading, leading_number, take_number};
use crate::plain::{Plain, plain_values};
use crate::row::Row;
use lean_fixed::ranges::{MOST_PRICE, MOST_VOLUME};
use lean_fixed::{Moment, Price, Shares};
use lean_items::Reason;

// The four prices that a text begins with, and the text of the fields after them.
#[derive(Clone, Copy)]
struct Prices<'t> {
    opening: u64,
    high: u64,
    low: u64,
    closing: u64,
    behind: &'t [u8],
}

// The row that starts at this minute since 1970-01-01 00:00, of the fields at a place of a line, behind the time and its
// comma.
#[inline(always)]
pub fn read_values(start: u64, line: &[u8], at: usize) -> Result<Row, Reason>
    requires start { start < midnight (last_day + 1) }
    requires within { at ≤ length line.now }
    ensures { result ≡ row_of_fields (λ _. Some start) ([] ∷ fields (drop at line.now)) }
{
    match plain_values(line, at) {
        Some(values) => plain_row(start, &values),
        None => read_any_values(start, &line[at..]),
    }
}

#[inline(always)]
fn plain_row(start: u64, values: &Plain) -> Result<Row, Reason>
    requires start { start < midnight (last_day + 1) }
    requires prices { IsPriced values.now.opening values.now.high values.now.low values.now.closing }
    requires volume { values.now.volume ≤ most_volume }
    ensures { result ≡ row_of_values (Some start) (Some values.now.opening) (Some values.now.high)
        (Some values.now.low) (Some values.now.closing) (Some values.now.volume) }
{
    if is_ranged(values.opening, values.high, values.low, values.closing) {
        Ok(row_at(
            start,
            values.opening,
            values.high,
            values.low,
            values.closing,
            values.volume,
        ))
    } else {
        Err(Reason::Range)
    }
}

// The same of the text behind the time and its comma, in any spelling.
#[cold]
#[inline(never)]
pub fn read_any_values(start: u64, values: &[u8]) -> Result<Row, Reason>
    requires { start < midnight (last_day + 1) }
    ensures { result ≡ row_of_fields (λ _. Some start) ([] ∷ fields values.now) }
{
    let Some(prices) = take_prices(values) else {
        return Err(if has_fields(values, 5) {
            Reason::Price
        } else {
            Reason::Fields
        });
    };
    let Some(volume) = leading_number(prices.behind, MOST_VOLUME as u64) else {
        return Err(Reason::Volume);
    };
    if is_ranged(prices.opening, prices.high, prices.low, prices.closing) {
        Ok(row_at(
            start,
            prices.opening,
            prices.high,
            prices.low,
            prices.closing,
            volume.number,
        ))
    } else {
        Err(Reason::Range)
    }
}

#[inline(always)]
fn take_prices(text: &[u8]) -> Option<Prices<'_>>
    ensures read { option_map
        (λ p. priced p.opening p.high p.low p.closing (fields p.behind.now)) result
        ≡ first_prices (fields text.now) }
    ensures most { IfSome result (λ p. IsPriced p.opening p.high p.low p.closing) }
{
    let opening = take_price(text)?;
    let high = take_price(opening.behind)?;
    let low = take_price(high.behind)?;
    let closing = take_price(low.behind)?;
    Some(Prices {
        opening: opening.number,
        high: high.number,
        low: low.number,
        closing: closing.number,
        behind: closing.behind,
    })
}

#[inline(always)]
fn take_price(text: &[u8]) -> Option<Leading<'_>>
    ensures read { number_and_rest result ≡ first_of price_in (fields text.now) }
    ensures most { IfSome result (λ n. n.number ≤ most_price) }
{
    let taken = take_number(text, MOST_PRICE as u64)?;
    if taken.number == 0 {
        return None;
    }
    Some(taken)
}

#[inline(always)]
fn is_ranged(opening: u64, high: u64, low: u64, closing: u64) -> bool
    ensures { result ≡ is_ranged opening high low closing }
{
    low <= opening && opening <= high && low <= closing && closing <= high
}

#[inline(always)]
fn row_at(start: u64, opening: u64, high: u64, low: u64, closing: u64, volume: u64) -> Row
    requires start { start < midnight (last_day + 1) }
    requires prices { IsPriced opening high low closing }
    requires volume { volume ≤ most_volume }
    ensures { result ≡ row_of start opening high low closing volume }
{
    Row {
        start: Moment(start as i64),
        opening: Price(opening as i64),
        high: Price(high as i64),
        low: Price(low as i64),
        closing: Price(closing as i64),
        volume: Shares(volume as i64),
    }
}
