//! The views in which the expressions of rules are read.
ghost use Rattle.std.specs.Prelude.{◌≡◌, ℕ, List, [], map, pos, unwrap_or, IfOk, OnOk};
ghost use Rattle.exchange_hours.specs.Sessions.{moment};
ghost use Rattle.lean_fixed.specs.declared.money.Price.{Price};
ghost use Rattle.bar_windows.specs.Recent.{StandsFor as WindowsStandFor};
ghost use Rattle.clock_book.specs.Seen.{Seen};
ghost use Rattle.clock_run.specs.Requests.{price_seen};
ghost use Rattle.backtest_core.specs.Mirror.{Sees};
ghost use Rattle.backtest_core.specs.Asking.{facts_of, view_with, value_at};

use crate::facts::Facts;
use crate::mirror::Mirror;
use bar_windows::Windows;
use lean_fixed::{Moment, Money, NoMemory, Price, Shares, Symbol};
use lean_items::Bar;
use rule_lang::{View, WindowValues};
use rule_strategy::RuleView;
use std::alloc::Global;

/// What is seen of a symbol that was given a bar. `NoMemory` comes only where more than 2^32 - 1 orders of it are live.
pub(crate) fn facts_of(
    symbol: Symbol,
    bar: &Bar,
    mirror: &Mirror,
    at: Moment,
) -> Result<Facts, NoMemory>
    ensures at { IfOk result (λ facts. facts.at ≡ at) }
    ensures facts { IfOk result (λ facts. (t : ℕ) (seen : Seen) → at ≡ moment t → Sees mirror.now seen
        → facts ≡ facts_of seen t symbol bar.now) }
{
    let orders = mirror.orders_of(symbol).len();
    if orders > u32::MAX as usize {
        return Err(NoMemory);
    }
    Ok(Facts {
        bar: *bar,
        at,
        price: price_of(symbol, mirror),
        position: mirror.position(symbol),
        cash: mirror.cash(),
        equity: mirror.equity(),
        orders: orders as u32,
    })
}

fn price_of(symbol: Symbol, mirror: &Mirror) -> Price
    ensures { (seen : Seen) → Sees mirror.now seen → result.0 ≡ unwrap_or (price_seen seen symbol) (pos 0) }
{
    match mirror.price(symbol) {
        Some(price) => price,
        None => Price(0),
    }
}

/// Has a view of these, with the values of the windows at some places.
pub(crate) fn fill(
    view: &mut View,
    facts: &Facts,
    windows: &Windows,
    places: &[usize],
) -> Result<(), NoMemory>
    ensures at { view.new.at ≡ facts.now.at }
    ensures view { OnOk result ((closes : List Price) → WindowsStandFor windows.now closes
        → view.new ≡ view_with facts.now (map (value_at closes windows.now.specs) places.now)) }
{
    view.bar = facts.bar;
    view.at = facts.at;
    view.price = facts.price;
    view.position = facts.position;
    view.cash = facts.cash;
    view.equity = facts.equity;
    view.orders = facts.orders;
    fill_windows(&mut view.windows, windows, places)
}

// The values of the windows at some places. It takes memory only where there is no room from earlier views.
fn fill_windows(
    values: &mut WindowValues,
    windows: &Windows,
    places: &[usize],
) -> Result<(), NoMemory>
    ensures { OnOk result ((closes : List Price) → WindowsStandFor windows.now closes
        → values.new ≡ map (value_at closes windows.now.specs) places.now) }
{
    values.0.clear();
    for place in places {
        values.0.push(value_at(windows, *place))?;
    }
    Ok(())
}

fn value_at(windows: &Windows, place: usize) -> Option<i64>
    ensures { (closes : List Price) → WindowsStandFor windows.now closes
        → result ≡ value_at closes windows.now.specs place }
{
    if place < windows.len() {
        windows.value(place)
    } else {
        None
    }
}

/// Views of nothing, to be filled again and again. They take no memory until they are filled.
pub(crate) fn blank_views(alloc: Global) -> RuleView {
    RuleView {
        when: blank(alloc),
        quantity: blank(alloc),
        price: blank(alloc),
        limit: blank(alloc),
    }
}

fn blank(alloc: Global) -> View
    ensures { result.windows ≡ [] }
{
    View {
        bar: Bar {
            start: Moment(0),
            end: Moment(0),
            opening: Price(0),
            high: Price(0),
            low: Price(0),
            closing: Price(0),
            volume: Shares(0),
            real: false,
        },
        at: Moment(0),
        price: Price(0),
        position: Shares(0),
        cash: Money(0),
        equity: Money(0),
        orders: 0,
        windows: WindowValues(Vec::new(alloc)),
    }
}
