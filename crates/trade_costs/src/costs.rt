ghost use Rattle.std.specs.Prelude.{◌≡◌, pos, ◌*ℤ◌};
ghost use Rattle.lean_fixed.specs.Ranges.{IsWithin, most_quantity, IsFee};

use lean_fixed::{Money, Price, Shares, Side};

/// What trades cost, after LEAN's topics "Transaction Fees" and "Slippage".
#[derive(Clone, Copy)]
pub struct Costs {
    /// The fee of one share, from 0 to 1,000,000.
    pub per_share: Money,
    /// The least fee of a trade, from 0 to 10,000,000,000.
    pub least: Money,
    /// By how much a price turns out worse, in 1/10000 dollar, from 0 to 1,000,000.
    pub slip: i64,
}

impl Costs {
    ghost use Rattle.std.specs.Prelude.{◌≡◌, pos};
    ghost use Rattle.lean_fixed.specs.Ranges.{IsWithin, most_quantity, IsPrice, IsFillPrice, IsFee};
    ghost use Rattle.trade_costs.specs.Fees.{IsCosts, fee, slipped};

    /// The fee of so many shares, 1 to 1,000,000,000.
    pub fn fee(&self, shares: Shares) -> Money
        requires costs { IsCosts self.now }
        requires shares { IsWithin (pos 1) (pos most_quantity) shares.0 }
        ensures value { result.0 ≡ fee self.now shares.0 }
        ensures range { IsFee result.0 }
    {
        let by_shares = by_shares(shares.0, self.per_share.0);
        if by_shares < self.least.0 {
            self.least
        } else {
            Money(by_shares)
        }
    }

    /// The price at which shares are bought or sold where this is the market's price.
    pub fn slipped(&self, price: Price, side: Side) -> Price
        requires costs { IsCosts self.now }
        requires price { IsPrice price.0 }
        ensures value { result.0 ≡ slipped self.now price.0 side }
        ensures range { IsFillPrice result.0 }
    {
        match side {
            Side::Buy => Price(price.0 + self.slip),
            Side::Sell => Price((price.0 - self.slip).max(1)),
        }
    }
}

fn by_shares(shares: i64, per_share: i128) -> i128
    requires shares { IsWithin (pos 1) (pos most_quantity) shares }
    requires per_share { IsWithin (pos 0) (pos 1000000) per_share }
    ensures value { result ≡ shares *ℤ per_share }
    ensures range { IsFee result }
{
    shares as i128 * per_share
}
