ghost use Rattle.std.specs.Prelude.{◌≡◌, option_map, IfSome};
ghost use Rattle.lean_fixed.specs.Ranges.{IsPrice, IsFillPrice};
ghost use Rattle.trade_costs.specs.Fees.{IsCosts};
ghost use Rattle.lean_orders.specs.declared.order.Kind.TheVariants.{StopLimit};
ghost use Rattle.fill_models.specs.FillPrice.{IsPriced, side_of, limit_price, stop_price, open_price, is_tried, passes, triggers, stop_limit_price, fill_price};

use lean_fixed::{Moment, Price, Shares, Side};
use lean_items::Bar;
use lean_orders::{Kind, Order};
use trade_costs::Costs;

/// The price at which the bar fills the resting order, after LEAN's topic "Trade Fills". `None` exactly where it does not,
/// by this table. The bar has to be real and to end after the order's moment, and `opens` is the opening of its session.
///
/// | order | fills where | at |
/// |---|---|---|
/// | buy limit | low < limit | min(high, limit) |
/// | sell limit | high > limit | max(low, limit) |
/// | buy stop | high > stop | max(stop, slipped closing price) |
/// | sell stop | low < stop | min(stop, slipped closing price) |
/// | at-open | the session opens at or after the order's moment | slipped opening price |
/// | buy stop-limit | it or the bar triggers it, and closing < limit | min(high, limit) |
/// | sell stop-limit | it or the bar triggers it, and closing > limit | max(low, limit) |
pub fn try_fill(order: &Order, bar: &Bar, opens: Moment, costs: &Costs) -> Option<Price>
    requires bar { IsPriced bar.now }
    requires price { IfSome order.now.price (λ price. IsPrice price.0) }
    requires limit { IfSome order.now.limit (λ limit. IsPrice limit.0) }
    requires costs { IsCosts costs.now }
    ensures value { result
        ≡ option_map (λ price. record { 0 = price }) (fill_price order.now bar.now opens.0 costs.now) }
    ensures range { IfSome result (λ price. IsFillPrice price.0) }
{
    if !is_tried(order, bar) {
        return None;
    }
    let side = side_of(order.quantity);
    match order.kind {
        Kind::Market => None,
        Kind::Limit => limit_fill(side, bar, order.price?),
        Kind::Stop => stop_fill(side, bar, costs, order.price?),
        Kind::AtOpen => open_fill(side, bar, costs, order.placed, opens),
        Kind::StopLimit if order.triggered || triggers(order, bar) => stop_limit_fill(
            side,
            bar,
            order.limit?,
        ),
        Kind::StopLimit => None,
    }
}

/// Whether the bar triggers the stop-limit order, after LEAN's topic "Stop Limit Orders". The bar has to be real and to end
/// after the order's moment, and it has to have traded past the order's stop: above it for a buy, below it for a sell.
pub fn triggers(order: &Order, bar: &Bar) -> bool
    requires kind { order.now.kind ≡ StopLimit }
    ensures value { result ≡ triggers order.now bar.now }
{
    let passed = match order.price {
        Some(stop) => passes(side_of(order.quantity), bar, stop),
        None => false,
    };
    passed && is_tried(order, bar)
}

fn is_tried(order: &Order, bar: &Bar) -> bool
    ensures { result ≡ is_tried order.now bar.now }
{
    bar.real && order.placed < bar.end
}

fn passes(side: Side, bar: &Bar, stop: Price) -> bool
    ensures { result ≡ passes side bar.now stop.0 }
{
    match side {
        Side::Buy => bar.high > stop,
        Side::Sell => bar.low < stop,
    }
}

fn side_of(quantity: Shares) -> Side
    ensures { result ≡ side_of quantity.0 }
{
    if quantity.0 > 0 {
        Side::Buy
    } else {
        Side::Sell
    }
}

fn limit_fill(side: Side, bar: &Bar, limit: Price) -> Option<Price>
    requires bar { IsPriced bar.now }
    requires price { IsPrice limit.0 }
    ensures value { result
        ≡ option_map (λ price. record { 0 = price }) (limit_price side bar.now limit.0) }
    ensures range { IfSome result (λ price. IsFillPrice price.0) }
{
    match side {
        Side::Buy if bar.low < limit => Some(bar.high.min(limit)),
        Side::Sell if bar.high > limit => Some(bar.low.max(limit)),
        _ => None,
    }
}

fn stop_fill(side: Side, bar: &Bar, costs: &Costs, stop: Price) -> Option<Price>
    requires bar { IsPriced bar.now }
    requires price { IsPrice stop.0 }
    requires costs { IsCosts costs.now }
    ensures value { result
        ≡ option_map (λ price. record { 0 = price }) (stop_price side bar.now costs.now stop.0) }
    ensures range { IfSome result (λ price. IsFillPrice price.0) }
{
    match side {
        Side::Buy if bar.high > stop => Some(stop.max(costs.slipped(bar.closing, side))),
        Side::Sell if bar.low < stop => Some(stop.min(costs.slipped(bar.closing, side))),
        _ => None,
    }
}

fn open_fill(side: Side, bar: &Bar, costs: &Costs, placed: Moment, opens: Moment) -> Option<Price>
    requires bar { IsPriced bar.now }
    requires costs { IsCosts costs.now }
    ensures value { result
        ≡ option_map (λ price. record { 0 = price }) (open_price side bar.now costs.now placed.0 opens.0) }
    ensures range { IfSome result (λ price. IsFillPrice price.0) }
{
    if placed <= opens {
        Some(costs.slipped(bar.opening, side))
    } else {
        None
    }
}

fn stop_limit_fill(side: Side, bar: &Bar, limit: Price) -> Option<Price>
    requires bar { IsPriced bar.now }
    requires price { IsPrice limit.0 }
    ensures value { result
        ≡ option_map (λ price. record { 0 = price }) (stop_limit_price side bar.now limit.0) }
    ensures range { IfSome result (λ price. IsFillPrice price.0) }
{
    match side {
        Side::Buy if bar.closing < limit => Some(bar.high.min(limit)),
        Side::Sell if bar.closing > limit => Some(bar.low.max(limit)),
        _ => None,
    }
}
