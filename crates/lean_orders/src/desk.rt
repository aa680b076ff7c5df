use crate::{OrderEvent, Request};
use lean_fixed::{Moment, Money, Price, Shares, Symbol};

/// The trades of a security from one moment to another, by which its price is marked and its orders are tried.
#[derive(Clone, Copy)]
pub struct PriceBar {
    /// The first minute of the bar.
    pub start: Moment,
    /// The moment at which the bar is given.
    pub end: Moment,
    /// The first, the greatest, the least and the last price, from 1 to 10,000,000,000.
    pub opening: Price,
    pub high: Price,
    pub low: Price,
    pub closing: Price,
    /// The number of shares that were traded.
    pub volume: Shares,
    /// Whether the bar was read from a file. A bar that was filled forward is not real, and fills no order.
    pub real: bool,
}

/// What the owner of the orders and the money is told to do. Each command has the moment at which it is given.
#[derive(Clone, Copy)]
pub enum Command {
    /// The symbol's price is the closing price of this bar from now on.
    Mark(Moment, Symbol, PriceBar),
    /// The live orders are tried on the bars that were marked since they were last tried.
    Match(Moment),
    /// An order is asked for.
    Submit(Moment, Request),
    /// The order of this id is to have this price.
    Update(Moment, u32, Price),
    /// The order of this id is to be canceled.
    Cancel(Moment, u32),
    /// The cash and the equity are asked for.
    Account(Moment),
}

/// The answer to a command: any number of events or one account, and then `Done`.
#[derive(Clone, Copy)]
pub enum Reply {
    Event(OrderEvent),
    /// The cash and the equity.
    Account(Money, Money),
    /// The command is handled.
    Done,
}

/// The number of a command, from 1 on.
#[derive(Clone, Copy)]
pub struct Ticket(pub u64);

/// A reply and the command that it answers.
#[derive(Clone, Copy)]
pub struct Heard {
    pub ticket: Ticket,
    pub reply: Reply,
}
