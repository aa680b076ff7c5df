ghost use Rattle.std.specs.Prelude.{◌≡◌, ◌≤◌, pos, ◌+ℤ◌, ◌*ℤ◌};
ghost use Rattle.lean_fixed.specs.Ranges.{IsPrice, IsMoney, IsFee};
ghost use Rattle.buying_power.specs.Buying.{IsPower, shares_after, needed, allows};

use lean_fixed::{Money, Price, Shares};

/// What the buying power rule asks about an order. All money is in 1/10000 dollar.
#[derive(Clone, Copy)]
pub struct Power {
    /// The equity of the account, within 10^30 either way like the other money.
    pub equity: Money,
    /// The sum of |position| times price over the other symbols.
    pub gross_others: Money,
    /// The position in the order's symbol, within 10^15 either way.
    pub held: Shares,
    /// The current price of the order's symbol.
    pub price: Price,
    /// The order's quantity, not 0 and within 1,000,000,000 either way.
    pub quantity: Shares,
    /// By how much the positions may exceed the equity, from 1 to 100.
    pub leverage: u32,
    /// The order's fee, from 0 to 10^15.
    pub fee: Money,
}

/// Whether the order may be placed, after LEAN's topic "Buying Power". It may where it does not enlarge the position, or
/// where the gross value of all positions and the fee are at most the leverage times the equity. Live orders do not count.
pub fn allows(power: &Power) -> bool
    requires { IsPower power.now }
    ensures { result ≡ allows power.now }
{
    if shares_after(power) <= power.held.0.unsigned_abs() {
        return true;
    }
    needed(power) <= leveraged(power.leverage, power.equity)
}

// The shares that are held or owed once the order is filled.
fn shares_after(power: &Power) -> u64
    requires { IsPower power.now }
    ensures value { result ≡ shares_after power.now }
    ensures bound { result ≤ 1000001000000000 }
{
    (power.held.0 + power.quantity.0).unsigned_abs()
}

// What is then held or owed in all, and the fee.
fn needed(power: &Power) -> i128
    requires { IsPower power.now }
    ensures { result ≡ needed power.now }
{
    let value = value_of(shares_after(power), power.price);
    in_all(power.gross_others.0, value, power.fee.0)
}

fn in_all(others: i128, value: i128, fee: i128) -> i128
    requires others { IsMoney others }
    requires value { IsMoney value }
    requires fee { IsFee fee }
    ensures { result ≡ others +ℤ value +ℤ fee }
{
    others + value + fee
}

fn value_of(shares: u64, price: Price) -> i128
    requires shares { shares ≤ 1000001000000000 }
    requires price { IsPrice price.0 }
    ensures value { result ≡ pos shares *ℤ price.0 }
    ensures range { IsMoney result }
{
    shares as i128 * price.0 as i128
}

fn leveraged(leverage: u32, equity: Money) -> i128
    requires leverage { leverage ≤ 100 }
    requires equity { IsMoney equity.0 }
    ensures { result ≡ pos leverage *ℤ equity.0 }
{
    leverage as i128 * equity.0
}
