//! Moments and slices as text.
ghost use Rattle.std.specs.Prelude.{IfOk};
ghost use Rattle.lean_fixed.specs.Ranges.{IsWithin, IsPrintedMoment};

use lean_fixed::{Moment, Price, Shares, Symbol};
use lean_items::{Arrival, Bar, CoarseRow, FeedNo, Item};
use std::alloc::Global;
use std::test::Fail;

// 00:00 of Monday, 2013-10-07.
const MONDAY: i64 = 23_018_400;

// The word at a place of an item.
fn field(text: &str, place: usize) -> Option<&str> {
    text.split(' ').nth(place)
}

// A number within a range.
fn within(text: Option<&str>, low: i128, high: i128) -> Result<i128, Fail>
    ensures { IfOk result (IsWithin low high) }
{
    let n = text.ok_or("a number")?.parse::<i128>()?;
    if n < low || high < n {
        return Err(Fail::from("a number in its range"));
    }
    Ok(n)
}

fn minute(text: Option<&str>) -> Result<Moment, Fail>
    ensures { IfOk result (λ at. IsPrintedMoment at.0) }
{
    Ok(Moment(MONDAY + within(text, 0, 20_000)? as i64))
}

fn amount(text: Option<&str>) -> Result<i64, Fail> {
    Ok(within(text, 0, 100_000_000_000)? as i64)
}

/// The symbol that a word is.
pub fn symbol(word: &str) -> Result<Symbol, Fail> {
    match Symbol::read(word.as_bytes()) {
        Some(symbol) => Ok(symbol),
        None => Err(Fail::from("a symbol")),
    }
}

// A bar of one price, with its first minute, its end and the price.
fn bar(text: &str) -> Result<Item, Fail> {
    let price = Price(amount(field(text, 4))?);
    Ok(Item::Bar(Bar {
        start: minute(field(text, 2))?,
        end: minute(field(text, 3))?,
        opening: price,
        high: price,
        low: price,
        closing: price,
        volume: Shares(1),
        real: true,
    }))
}

// A coarse row of 1,000 shares, with its symbol, its price and its dollars.
fn row(text: &str, at: Moment) -> Result<Item, Fail> {
    let row = CoarseRow {
        symbol: symbol(field(text, 2).ok_or("a symbol")?)?,
        close: Price(amount(field(text, 3))?),
        volume: Shares(1000),
        dollars: amount(field(text, 4))?,
    };
    Ok(Item::Coarse(at, row))
}

fn arrival(text: &str, at: Moment) -> Result<Arrival, Fail> {
    let feed = FeedNo(within(field(text, 1), 0, 1000)? as u64);
    let item = match field(text, 0) {
        Some("bar") => bar(text)?,
        Some("row") => row(text, at)?,
        _ => return Err(Fail::from("an item")),
    };
    Ok(Arrival { feed, item })
}

/// The moment at the begin of a line: the minutes since Monday, 00:00.
pub fn moment(line: &str) -> Result<Moment, Fail>
    ensures { IfOk result (λ at. IsPrintedMoment at.0) }
{
    minute(line.split("; ").next())
}

/// What stands behind the moment of a line: the bars and the rows that arrive at it, each with the number of its feed.
pub fn slice(alloc: Global, line: &str) -> Result<Vec<Arrival>, Fail> {
    let mut slice = Vec::new(alloc);
    add_all(line, &mut slice)?;
    Ok(slice)
}

fn add_all(line: &str, out: &mut Vec<Arrival>) -> Result<(), Fail> {
    let at = moment(line)?;
    for item in line.split("; ").skip(1) {
        add(item, at, out)?;
    }
    Ok(())
}

fn add(text: &str, at: Moment, out: &mut Vec<Arrival>) -> Result<(), Fail> {
    let arrival = arrival(text, at)?;
    out.extend_from_slice(&[arrival])?;
    Ok(())
}
