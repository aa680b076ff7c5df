ghost use Rattle.std.specs.Prelude.{IfOk, IfSome};
ghost use Rattle.lean_fixed.specs.Ranges.{IsPrice};
ghost use Rattle.fill_models.specs.FillPrice.{IsPriced};

use crate::tests::cases::{costs, number, price, quantity, symbol};
use fill_models::{triggers, try_fill};
use lean_fixed::{Moment, Price, Shares};
use lean_items::Bar;
use lean_orders::{Kind, Order, OrderState};
use std::alloc::Global;
use std::test::Fail;
use test_cases::cases::check;

// The kind, the quantity, the price and the limit of an order that was placed at minute 600, and what a real bar of opening 100, high
// 110, low 90 and closing 105 that ends at minute 601 does with it, with a slip of 2. Then other moments of the order and
// of the session's opening, a bar that is not real, and an order that was triggered before.
const FILLS: &str = "\
limit 1 90 = none
limit 1 91 = 91
limit 1 109 = 109
limit 1 110 = 110
limit 1 200 = 110
limit -1 110 = none
limit -1 109 = 109
limit -1 91 = 91
limit -1 90 = 90
limit -1 50 = 90
stop 1 110 = none
stop 1 109 = 109
stop 1 107 = 107
stop 1 100 = 107
stop -1 90 = none
stop -1 91 = 91
stop -1 103 = 103
stop -1 104 = 103
market 1 100 = none
limit 1000000000 10000000000 = 110
limit 1 91 at 601 = none
limit 1 91 at 602 = none
limit 1 91 at 599 = 91
open 1 1 at 570 opens 570 = 102
open -1 1 at 570 opens 570 = 98
open 1 1 at 569 opens 570 = 102
open 1 1 at 571 opens 570 = none
open 1 1 at 601 opens 601 = none
limit 1 200 unreal = none
stop 1 1 unreal = none
open 1 1 at 570 opens 570 unreal = none
stop-limit 1 110 limit 200 = none
stop-limit 1 109 limit 105 = triggered none
stop-limit 1 109 limit 106 = triggered 106
stop-limit 1 109 limit 200 = triggered 110
stop-limit -1 90 limit 50 = none
stop-limit -1 91 limit 105 = triggered none
stop-limit -1 91 limit 104 = triggered 104
stop-limit -1 91 limit 50 = triggered 90
stop-limit 1 109 limit 106 at 601 = none
stop-limit 1 109 limit 106 unreal = none
stop-limit 1 200 limit 106 before = 106
stop-limit -1 50 limit 104 before = 104
stop-limit 1 200 limit 106 before at 601 = none
";

fn bar(real: bool) -> Bar
    ensures { IsPriced result }
{
    Bar {
        start: Moment(600),
        end: Moment(601),
        opening: Price(100),
        high: Price(110),
        low: Price(90),
        closing: Price(105),
        volume: Shares(1),
        real,
    }
}

fn kind(text: Option<&str>) -> Result<Kind, Fail> {
    match text {
        Some("market") => Ok(Kind::Market),
        Some("limit") => Ok(Kind::Limit),
        Some("stop") => Ok(Kind::Stop),
        Some("open") => Ok(Kind::AtOpen),
        Some("stop-limit") => Ok(Kind::StopLimit),
        _ => Err(Fail::from("a kind")),
    }
}

// The number behind a word of the text, or another one.
fn after(text: &str, word: &str, otherwise: i64) -> Result<i64, Fail> {
    match text.split_once(word) {
        Some((_, rest)) => {
            let n = number(rest.split(' ').next())?;
            Ok(i64::try_from(n)?)
        }
        None => Ok(otherwise),
    }
}

fn fill(alloc: Global, text: &str) -> Result<String, Fail> {
    let mut words = text.split(' ');
    let kind = kind(words.next())?;
    let quantity = quantity(words.next())?;
    let order = Order {
        id: 1,
        symbol: symbol(Some("SPY"))?,
        kind,
        quantity,
        price: Some(price(words.next())?),
        limit: limit(text)?,
        placed: Moment(after(text, " at ", 600)?),
        state: OrderState::Live,
        triggered: text.contains(" before"),
    };
    let opens = Moment(after(text, " opens ", 570)?);
    let costs = costs(Some("0"), Some("0"), Some("2"))?;
    let bar = bar(!text.ends_with("unreal"));
    let trigger = trigger_word(&order, &bar);
    match try_fill(&order, &bar, opens, &costs) {
        Some(price) => Ok(format!(in alloc; "{trigger}{}", price.0)?),
        None => Ok(format!(in alloc; "{trigger}none")?),
    }
}

// Whether the bar triggers a stop-limit order, as a word before what it does.
fn trigger_word(order: &Order, bar: &Bar) -> &'static str {
    match order.kind {
        Kind::StopLimit if !order.triggered && triggers(order, bar) => "triggered ",
        _ => "",
    }
}

// The price behind the word limit.
fn limit(text: &str) -> Result<Option<Price>, Fail>
    ensures { IfOk result (λ limit. IfSome limit (λ price. IsPrice price.0)) }
{
    match text.split_once(" limit ") {
        Some((_, rest)) => Ok(Some(price(rest.split(' ').next())?)),
        None => Ok(None),
    }
}

#[test]
fn fills(rt: HostRuntime) -> Result<(), Fail> {
    check(rt.alloc(), FILLS, fill)
}

// A limit or stop order without a price fills at no bar.
#[test]
fn orders_without_a_price(rt: HostRuntime) -> Result<(), Fail> {
    let costs = costs(Some("0"), Some("0"), Some("0"))?;
    let order = Order {
        id: 1,
        symbol: symbol(Some("SPY"))?,
        kind: Kind::Limit,
        quantity: Shares(1),
        price: None,
        limit: None,
        placed: Moment(0),
        state: OrderState::Live,
        triggered: false,
    };
    assert_eq!(rt; try_fill(&order, &bar(true), Moment(0), &costs), None);
    Ok(())
}
