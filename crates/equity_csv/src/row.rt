use lean_fixed::{Moment, Price, Shares};

/// A row of a file of equity bars, after the columns of LEAN's US equity data: the trades from `start` on, for a minute, an
/// hour or a day.
#[derive(Clone, Copy, Debug, PartialEq, Eq)]
pub struct Row {
    /// The moment at which the bar starts.
    pub start: Moment,
    /// The first, the greatest, the least and the last price, in 1/10000 dollar, from 1 to 10,000,000,000.
    pub opening: Price,
    pub high: Price,
    pub low: Price,
    pub closing: Price,
    /// The number of shares that were traded, from 0 to 10^15.
    pub volume: Shares,
}
