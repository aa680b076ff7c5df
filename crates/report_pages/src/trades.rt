use lean_fixed::{Price, Shares};

/// What a line of a tape says of the trades of a security: prices in 1/10000 dollar, and the number of shares.
#[derive(Clone, Copy, Debug)]
pub struct Trades {
    pub opening: Price,
    pub high: Price,
    pub low: Price,
    pub closing: Price,
    pub volume: Shares,
}
