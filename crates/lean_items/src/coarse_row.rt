ghost use Rattle.std.specs.Prelude.{◌≡◌};
ghost use Rattle.lean_items.specs.Fits.{is_row_in_range};
ghost use Rattle.lean_items.specs.Coarse.{is_close, is_dollars};

use lean_fixed::ranges::MOST_PRICE;
use lean_fixed::{Moment, Price, Shares, Symbol};

// The most whole dollars that were paid on a day: 10^15.
const MOST_DOLLARS: i64 = 1_000_000_000_000_000;

/// What a coarse universe file says of a security on one day, after LEAN's topic "Coarse Universe".
#[derive(Clone, Copy, Debug, PartialEq, Eq)]
pub struct CoarseRow {
    /// The security.
    pub symbol: Symbol,
    /// The day's last price, in 1/10000 dollar, from 0 to 10,000,000,000.
    pub close: Price,
    /// The number of shares that were traded, from 0 to 10^15.
    pub volume: Shares,
    /// What was paid for them, in whole dollars, from 0 to 10^15.
    pub dollars: i64,
}

impl CoarseRow {
    /// Whether the row's numbers, and the moment from which on it is known, are in their ranges: the moment from -10,000 to
    /// 121,000,000, the price from 0 to 10,000,000,000, and the volume and the dollars from 0 to 10^15.
    #[tactic(auto, unfolding(crate::specs::Fits::is_row_in_range))]
    pub fn is_in_range(&self, at: Moment) -> bool
        ensures { result ≡ is_row_in_range at.0 self.now }
    {
        at.is_in_range() && self.has_close() && self.volume.is_volume() && self.has_dollars()
    }

    fn has_close(&self) -> bool
        ensures { result ≡ is_close self.now.close.0 }
    {
        0 <= self.close.0 && self.close.0 <= MOST_PRICE
    }

    fn has_dollars(&self) -> bool
        ensures { result ≡ is_dollars self.now.dollars }
    {
        0 <= self.dollars && self.dollars <= MOST_DOLLARS
    }
}
