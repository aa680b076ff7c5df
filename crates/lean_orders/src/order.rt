use lean_fixed::{Moment, Price, Shares, Symbol};

/// The kinds of orders, after LEAN's topic "Order Types".
#[derive(Clone, Copy)]
pub enum Kind {
    /// Fills at once at the current price.
    Market,
    /// Fills at its price or better.
    Limit,
    /// Fills once the market has passed its price.
    Stop,
    /// Fills at the opening price of a session, as LEAN's market on open order.
    AtOpen,
    /// Becomes a limit order once the market has passed its price.
    StopLimit,
}

/// What a strategy asks for: an order that is yet to be accepted.
#[derive(Clone, Copy)]
pub struct Request {
    pub symbol: Symbol,
    pub kind: Kind,
    /// The shares to be bought, or, where negative, to be sold. Any number may be asked for; accepted is one that is not 0
    /// and within 1,000,000,000 either way.
    pub quantity: Shares,
    /// The price of a limit, stop or stop-limit order, in 1/10000 dollar; of a stop-limit order it is the stop. That of the
    /// other kinds is not looked at.
    pub price: Option<Price>,
    /// The limit of a stop-limit order, in 1/10000 dollar. That of the other kinds is not looked at.
    pub limit: Option<Price>,
}

/// What has become of an order.
#[derive(Clone, Copy)]
pub enum OrderState {
    /// It waits to be filled.
    Live,
    /// It was filled as a whole.
    Filled,
    /// It was canceled.
    Canceled,
    /// It was refused as it was submitted.
    Refused,
}

/// An order, after LEAN's topic "Order Management".
#[derive(Clone, Copy)]
pub struct Order {
    /// The number of its submit, from 1 on.
    pub id: u32,
    pub symbol: Symbol,
    pub kind: Kind,
    /// The shares to be bought, or, where negative, to be sold: not 0, and within 1,000,000,000 either way. That of a refused
    /// order is what was asked for, and may be any number.
    pub quantity: Shares,
    /// The price of a limit, stop or stop-limit order, from 1 to 10,000,000,000; of a stop-limit order it is the stop. The
    /// other kinds have none. That of a refused order is what was asked for: it may be missing, or any number.
    pub price: Option<Price>,
    /// The limit of a stop-limit order, from 1 to 10,000,000,000. The other kinds have none. That of a refused order is what
    /// was asked for.
    pub limit: Option<Price>,
    /// The moment at which it was submitted.
    pub placed: Moment,
    pub state: OrderState,
    /// Whether the market has passed the stop of a stop-limit order, so that it fills as a limit order from then on.
    pub triggered: bool,
}

/// A live order as a strategy sees it.
#[derive(Clone, Copy)]
pub struct Resting {
    /// The number of its submit, from 1 on.
    pub id: u32,
    pub symbol: Symbol,
    pub kind: Kind,
}
