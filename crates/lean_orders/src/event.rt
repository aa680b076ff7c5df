use crate::Kind;
use lean_fixed::{Moment, Money, Price, Shares, Symbol};

/// Why a request was refused.
#[derive(Clone, Copy)]
pub enum Cause {
    /// The quantity of a submit is 0 or beyond 1,000,000,000 either way.
    Quantity,
    /// The symbol of a submit has no price yet.
    NoPrice,
    /// The price of a limit, stop or stop-limit order is missing or not 1 to 10,000,000,000, or the limit of a stop-limit
    /// order is, or the price of an update is out of that range, or the order that is to be updated has none.
    PriceForm,
    /// The account has not the buying power for the order.
    BuyingPower,
    /// There is no order of this id.
    Unknown,
    /// The order is no longer live.
    Closed,
}

/// A trade: an order that was filled, always as a whole.
#[derive(Clone, Copy)]
pub struct Fill {
    pub symbol: Symbol,
    /// The shares that were bought, or, where negative, sold: not 0, and within 1,000,000,000 either way.
    pub quantity: Shares,
    /// The price of one share, from 1 to 10,001,000,000.
    pub price: Price,
    /// The fee of the trade, from 0 to 10^15.
    pub fee: Money,
}

/// What happened to an order.
#[derive(Clone, Copy)]
pub enum What {
    /// It was accepted with this kind, quantity, price and limit. Only a stop-limit order has a limit.
    Submitted(Kind, Shares, Option<Price>, Option<Price>),
    /// It has this price from now on.
    Updated(Price),
    /// It was filled.
    Filled(Fill),
    /// It was canceled.
    Canceled,
    /// A submit, an update or a cancel was refused. A refused submit takes an id; otherwise nothing has changed.
    Invalid(Cause),
}

/// An event of an order's life, after LEAN's topic "Order Events".
#[derive(Clone, Copy)]
pub struct OrderEvent {
    pub at: Moment,
    /// The order's id.
    pub id: u32,
    /// The order's symbol. There is none where the id is unknown.
    pub symbol: Option<Symbol>,
    pub what: What,
}
