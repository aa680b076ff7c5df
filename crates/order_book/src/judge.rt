//! What is against a request.
ghost use Rattle.std.specs.Prelude.{◌≡◌, true, IfSome};
ghost use Rattle.std.specs.Bool.{OnTrue, OnFalse};
ghost use Rattle.lean_fixed.specs.Ranges.{IsPrice, IsQuantity};
ghost use Rattle.clock_book.specs.Submits.{is_quantity, is_priced, is_unpriced, has_price, has_limit};

use crate::book::Book;
use crate::orders::{has_limit, has_price};
use buying_power::{Power, allows};
use lean_fixed::ranges::MOST_QUANTITY;
use lean_fixed::{Money, Price, Shares};
use lean_orders::{Cause, Request};

impl Book {
    ghost use Rattle.std.specs.Prelude.{◌≡◌, Option, Some, None, IfOk, IfNone};
    ghost use Rattle.lean_fixed.specs.Ranges.{IsPrice, IsQuantity};
    ghost use Rattle.buying_power.specs.Buying.{IsPower};
    ghost use Rattle.clock_book.specs.Books as clock;
    ghost use Rattle.clock_book.specs.Submits.{priced_cause, power_of};
    ghost use Rattle.order_book.specs.Judged.{IsJudged, IsSound};
    ghost use Rattle.order_book.specs.Stands.{StandsFor};

    // The price of the request's symbol, or the first cause for which the request is refused.
    pub(crate) fn judge(&self, request: &Request) -> Result<Price, Cause>
        ensures judged { (book : clock.Book) → StandsFor self.now book → IsJudged book request.now result }
        ensures price { IfOk result (λ price. IsPrice price.0) }
        ensures sound { IfOk result (λ price. IsSound request.now) }
    {
        if !is_quantity(request.quantity) {
            return Err(Cause::Quantity);
        }
        match self.ledger.portfolio.price(request.symbol) {
            None => Err(Cause::NoPrice),
            Some(price) => match self.cause_at(request, price) {
                Some(cause) => Err(cause),
                None => Ok(price),
            },
        }
    }

    // The first cause for which a request of this quantity is refused where this is the price of its symbol.
    fn cause_at(&self, request: &Request, price: Price) -> Option<Cause>
        requires quantity { IsQuantity request.now.quantity.0 }
        requires price { IsPrice price.0 }
        ensures value { (book : clock.Book) → StandsFor self.now book
            → result ≡ priced_cause book request.now price.0 }
        ensures sound { IfNone result (IsSound request.now) }
    {
        if is_unpriced(request) {
            return Some(Cause::PriceForm);
        }
        if allows(&self.power(request, price)) {
            None
        } else {
            Some(Cause::BuyingPower)
        }
    }

    // What the buying power rule asks about a request where this is the price of its symbol.
    fn power(&self, request: &Request, price: Price) -> Power
        requires quantity { IsQuantity request.now.quantity.0 }
        requires price { IsPrice price.0 }
        ensures value { (book : clock.Book) → StandsFor self.now book → result ≡ power_of book request.now price.0 }
        ensures range { IsPower result }
    {
        let portfolio = &self.ledger.portfolio;
        Power {
            equity: portfolio.equity(),
            gross_others: portfolio.gross_without(request.symbol),
            held: portfolio.position(request.symbol),
            price,
            quantity: request.quantity,
            leverage: self.leverage,
            fee: self.market.costs.fee(Shares(request.quantity.0.abs())),
        }
    }
}

fn is_quantity(quantity: Shares) -> bool
    ensures value { result ≡ is_quantity quantity.0 }
    ensures range { OnTrue result (IsQuantity quantity.0) }
{
    quantity.0 != 0 && quantity.0.unsigned_abs() <= MOST_QUANTITY as u64
}

// Whether a price that the request's kind wants is missing or out of range.
fn is_unpriced(request: &Request) -> bool
    ensures value { result ≡ is_unpriced request.now }
    ensures price { OnFalse result (has_price request.now.kind ≡ true
        → IfSome request.now.price (λ price. IsPrice price.0)) }
    ensures limit { OnFalse result (has_limit request.now.kind ≡ true
        → IfSome request.now.limit (λ limit. IsPrice limit.0)) }
{
    has_price(request.kind) && !is_priced(request.price)
        || has_limit(request.kind) && !is_priced(request.limit)
}

fn is_priced(price: Option<Price>) -> bool
    ensures value { result ≡ is_priced price }
    ensures range { OnTrue result (IfSome price (λ price. IsPrice price.0)) }
{
    match price {
        Some(price) => price.is_in_range(),
        None => false,
    }
}
