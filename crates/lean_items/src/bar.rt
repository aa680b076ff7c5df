ghost use Rattle.std.specs.Prelude.{◌≡◌};
ghost use Rattle.lean_items.specs.Fits.{is_bar_in_range};

use lean_fixed::{Moment, Price, Shares};

/// The trades of a security from one moment to another, after the trade bar of LEAN's "Handling Data" topic.
#[derive(Clone, Copy, Debug, PartialEq, Eq)]
pub struct Bar {
    /// The first minute of the bar.
    pub start: Moment,
    /// The moment at which the bar is given to the algorithm.
    pub end: Moment,
    /// The price of the first trade, in 1/10000 dollar like the other prices.
    pub opening: Price,
    pub high: Price,
    pub low: Price,
    /// The price of the last trade.
    pub closing: Price,
    /// The number of shares that were traded, 0 in a bar that was filled forward.
    pub volume: Shares,
    /// Whether the bar was read from a file. A bar that was filled forward is not real.
    pub real: bool,
}

impl Bar {
    /// Whether the bar's numbers are in their ranges: its moments from -10,000 to 121,000,000, its prices from 1 to
    /// 10,000,000,000, and its volume from 0 to 10^15.
    #[tactic(auto, unfolding(crate::specs::Fits::is_bar_in_range))]
    pub fn is_in_range(&self) -> bool
        ensures { result ≡ is_bar_in_range self.now }
    {
        self.start.is_in_range()
            && self.end.is_in_range()
            && self.opening.is_in_range()
            && self.high.is_in_range()
            && self.low.is_in_range()
            && self.closing.is_in_range()
            && self.volume.is_volume()
    }
}
