ghost use Rattle.std.specs.Prelude.{◌≡◌, ◌+◌, ◌<◌, pos, unsigned_abs, ◌+ℤ◌, ◌-ℤ◌, ◌*ℤ◌};
ghost use Rattle.lean_fixed.specs.Ranges.{IsAtMost, IsPrice, IsPosition, IsFee, IsMoney, most_price};
ghost use Rattle.lean_orders.specs.Traded.{IsFill};
ghost use Rattle.portfolio.specs.LotRanges.{most_cost, most_value, IsBounded};
ghost use Rattle.portfolio.specs.Running.{price_or_zero, value_at, gross_at, revalued, marked_totals, paid, filled_lot, applied_totals};
ghost use Rattle.portfolio.specs.Stands.{most_fills};
ghost use Rattle.portfolio.specs.Small.{IsSmall, IsPriced, IsSmallHolding};

use crate::lot::{Lot, value_of};
use lean_fixed::Price;
use lean_orders::Fill;

/// The running totals of all fills and marks. Money is in 1/10000 dollar.
#[derive(Clone, Copy)]
pub struct Totals {
    /// The starting cash less what the fills cost.
    pub cash: i128,
    /// The sum of the fees.
    pub fees: i128,
    /// The sum of the profits of all lots.
    pub realised: i128,
    /// The sum of position times last price.
    pub value: i128,
    /// The sum of |position| times last price.
    pub gross: i128,
    /// The number of fills.
    pub fills: u32,
}

/// What is kept of one symbol.
#[derive(Clone, Copy)]
pub struct Holding {
    pub lot: Lot,
    /// The last price at which the symbol was marked.
    pub price: Option<Price>,
}

impl Holding {
    /// No position, and no price.
    pub const NONE: Holding = Holding {
        lot: Lot::NONE,
        price: None,
    };
}

impl Totals {
    /// Of a starting cash, and nothing else.
    pub fn starting(cash: i128) -> Totals
        ensures cash { result.cash ≡ cash }
        ensures fees { result.fees ≡ pos 0 }
        ensures realised { result.realised ≡ pos 0 }
        ensures value { result.value ≡ pos 0 }
        ensures gross { result.gross ≡ pos 0 }
        ensures fills { result.fills ≡ 0 }
    {
        Totals {
            cash,
            fees: 0,
            realised: 0,
            value: 0,
            gross: 0,
            fills: 0,
        }
    }

    /// The cash and the value of all positions.
    pub fn equity(self) -> i128
        requires { IsSmall self }
        ensures value { result ≡ self.cash +ℤ self.value }
        ensures range { IsMoney result }
    {
        self.cash + self.value
    }

    /// The gross value of all positions but this one.
    pub fn gross_without(self, holding: &Holding) -> i128
        requires small { IsSmall self }
        requires holding { IsSmallHolding holding.now }
        ensures value { result ≡ self.gross
            -ℤ gross_at holding.now.lot.position (price_or_zero holding.now.price) }
        ensures range { IsMoney result }
    {
        let price = price_or_zero(holding.price);
        less(self.gross, value_at(magnitude(holding.lot.position), price))
    }

    /// After a mark of the symbol of this holding.
    #[tactic(auto, using(crate::proofs::TotalsLemmas::same_totals))]
    pub fn marked(self, holding: &Holding, price: Price) -> Totals
        requires small { IsSmall self }
        requires holding { IsSmallHolding holding.now }
        requires price { IsPrice price.0 }
        ensures { result ≡ marked_totals self holding.now price.0 }
    {
        let position = holding.lot.position;
        self.revalued(position, price_or_zero(holding.price), position, price.0)
    }

    /// After a fill that makes `after` of the lot of this holding.
    pub fn applied(self, holding: &Holding, after: &Lot, fill: &Fill) -> Totals
        requires small { IsSmall self }
        requires fewer { self.fills < most_fills }
        requires holding { IsSmallHolding holding.now }
        requires after { after.now ≡ filled_lot holding.now.lot fill.now }
        requires bounded { IsBounded after.now }
        requires fill { IsFill fill.now }
        ensures { result ≡ applied_totals self holding.now fill.now }
    {
        let price = price_or_zero(holding.price);
        self.revalued(holding.lot.position, price, after.position, price)
            .paid(&holding.lot, after, fill)
    }

    fn revalued(self, position: i64, price: i64, new_position: i64, new_price: i64) -> Totals
        requires small { IsSmall self }
        requires position { IsPosition position }
        requires price { IsAtMost most_price price }
        requires new_position { IsPosition new_position }
        requires new_price { IsAtMost most_price new_price }
        ensures cash { result.cash ≡ self.cash }
        ensures fees { result.fees ≡ self.fees }
        ensures realised { result.realised ≡ self.realised }
        ensures value { result.value
            ≡ self.value -ℤ value_at position price +ℤ value_at new_position new_price }
        ensures gross { result.gross
            ≡ self.gross -ℤ gross_at position price +ℤ gross_at new_position new_price }
        ensures fills { result.fills ≡ self.fills }
    {
        Totals {
            cash: self.cash,
            fees: self.fees,
            realised: self.realised,
            value: value_changed(self.value, position, price, new_position, new_price),
            gross: gross_changed(self.gross, position, price, new_position, new_price),
            fills: self.fills,
        }
    }

    fn paid(self, before: &Lot, after: &Lot, fill: &Fill) -> Totals
        requires cash { IsAtMost most_cost self.cash }
        requires fees { IsAtMost most_cost self.fees }
        requires realised { IsAtMost most_cost self.realised }
        requires fewer { self.fills < most_fills }
        requires before { IsBounded before.now }
        requires after { IsBounded after.now }
        requires fill { IsFill fill.now }
        ensures cash { result.cash ≡ self.cash
            -ℤ ((fill.now.quantity.0 *ℤ fill.now.price.0) +ℤ fill.now.fee.0) }
        ensures fees { result.fees ≡ self.fees +ℤ fill.now.fee.0 }
        ensures realised { result.realised
            ≡ self.realised -ℤ before.now.profit +ℤ after.now.profit }
        ensures value { result.value ≡ self.value }
        ensures gross { result.gross ≡ self.gross }
        ensures fills { result.fills ≡ self.fills + 1 }
    {
        Totals {
            cash: less(self.cash, cost_of(fill)),
            fees: more(self.fees, fill.fee.0),
            realised: changed(self.realised, before.profit, after.profit),
            value: self.value,
            gross: self.gross,
            fills: self.fills + 1,
        }
    }
}

fn price_or_zero(price: Option<Price>) -> i64
    requires { IsPriced price }
    ensures value { result ≡ price_or_zero price }
    ensures range { IsAtMost most_price result }
{
    match price {
        None => 0,
        Some(price) => price.0,
    }
}

fn value_at(position: i64, price: i64) -> i128
    requires position { IsPosition position }
    requires price { IsAtMost most_price price }
    ensures value { result ≡ value_at position price }
    ensures range { IsAtMost most_cost result }
{
    position as i128 * price as i128
}

fn magnitude(position: i64) -> i64
    requires { IsPosition position }
    ensures value { result ≡ pos (unsigned_abs position) }
    ensures range { IsPosition result }
{
    position.abs()
}

fn value_changed(total: i128, position: i64, price: i64, new_position: i64, new_price: i64) -> i128
    requires total { IsAtMost most_cost total }
    requires position { IsPosition position }
    requires price { IsAtMost most_price price }
    requires new_position { IsPosition new_position }
    requires new_price { IsAtMost most_price new_price }
    ensures { result ≡ total -ℤ value_at position price +ℤ value_at new_position new_price }
{
    changed(
        total,
        value_at(position, price),
        value_at(new_position, new_price),
    )
}

fn gross_changed(total: i128, position: i64, price: i64, new_position: i64, new_price: i64) -> i128
    requires total { IsAtMost most_cost total }
    requires position { IsPosition position }
    requires price { IsAtMost most_price price }
    requires new_position { IsPosition new_position }
    requires new_price { IsAtMost most_price new_price }
    ensures { result ≡ total -ℤ gross_at position price +ℤ gross_at new_position new_price }
{
    value_changed(
        total,
        magnitude(position),
        price,
        magnitude(new_position),
        new_price,
    )
}

fn cost_of(fill: &Fill) -> i128
    requires { IsFill fill.now }
    ensures value { result ≡ (fill.now.quantity.0 *ℤ fill.now.price.0) +ℤ fill.now.fee.0 }
    ensures range { IsAtMost most_cost result }
{
    with_fee(value_of(fill.quantity.0, fill.price.0), fill.fee.0)
}

fn with_fee(value: i128, fee: i128) -> i128
    requires value { IsAtMost most_value value }
    requires fee { IsFee fee }
    ensures value { result ≡ value +ℤ fee }
    ensures range { IsAtMost most_cost result }
{
    value + fee
}

fn less(total: i128, cost: i128) -> i128
    requires total { IsAtMost most_cost total }
    requires cost { IsAtMost most_cost cost }
    ensures value { result ≡ total -ℤ cost }
    ensures range { IsMoney result }
{
    total - cost
}

fn more(total: i128, fee: i128) -> i128
    requires total { IsAtMost most_cost total }
    requires fee { IsFee fee }
    ensures { result ≡ total +ℤ fee }
{
    total + fee
}

fn changed(total: i128, before: i128, after: i128) -> i128
    requires total { IsAtMost most_cost total }
    requires before { IsAtMost most_cost before }
    requires after { IsAtMost most_cost after }
    ensures { result ≡ total -ℤ before +ℤ after }
{
    total - before + after
}
