ghost use Rattle.std.specs.Prelude.{◌≡◌, ◌↔◌, true};
ghost use Rattle.lean_fixed.specs.Ranges.{IsPrice, is_price, IsVolume, is_volume};

use crate::ranges::{MOST_PRICE, MOST_VOLUME};

/// A price of one share in 1/10000 dollar, the unit of LEAN's equity files. The price of a bar, an order or a mark is 1 to
/// 10,000,000,000, and that of a fill 1 to 10,001,000,000.
#[derive(Clone, Copy, Debug, PartialEq, Eq, PartialOrd, Ord)]
pub struct Price(pub i64);

/// An amount of money in 1/10000 dollar, within 10^30 either way. A fee is 0 to 10^15, and the cash with which a backtest
/// starts 1 to 10^20.
#[derive(Clone, Copy, Debug, PartialEq, Eq, PartialOrd, Ord)]
pub struct Money(pub i128);

/// A number of shares. The volume of a bar is 0 to 10^15, and that of a consolidated bar up to 1,440 times as much. The
/// quantity of an order or a fill is positive where shares are bought, not 0, and within 10^9 either way. A position is
/// negative where shares are owed, and within 10^15 either way.
#[derive(Clone, Copy, Debug, PartialEq, Eq, PartialOrd, Ord)]
pub struct Shares(pub i64);

/// Whether shares are bought or sold.
#[derive(Clone, Copy, Debug, PartialEq, Eq)]
pub enum Side {
    /// Shares are bought: the quantity is positive.
    Buy,
    /// Shares are sold: the quantity is negative.
    Sell,
}

impl Price {
    /// Whether the price is one of a bar, an order or a mark: from 1 to 10,000,000,000.
    #[inline]
    pub fn is_in_range(self) -> bool
        ensures value { result ≡ is_price self.0 }
        ensures range { (result ≡ true) ↔ IsPrice self.0 }
    {
        1 <= self.0 && self.0 <= MOST_PRICE
    }
}

impl Shares {
    /// Whether the shares are the volume of a bar that a file has: from 0 to 10^15.
    #[inline]
    pub fn is_volume(self) -> bool
        ensures value { result ≡ is_volume self.0 }
        ensures range { (result ≡ true) ↔ IsVolume self.0 }
    {
        0 <= self.0 && self.0 <= MOST_VOLUME
    }
}
