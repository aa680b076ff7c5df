//! Cases as lines of text, and the numbers in them.
ghost use Rattle.std.specs.Prelude.{IfOk};
ghost use Rattle.lean_fixed.specs.Ranges.{IsWithin, IsPrice, IsQuantity, IsFee};
ghost use Rattle.trade_costs.specs.Fees.{IsCosts};

use lean_fixed::{Money, Price, Shares, Symbol};
use std::alloc::Global;
use std::test::Fail;
use trade_costs::Costs;

pub fn word(alloc: Global, text: &str) -> Result<String, Fail> {
    Ok(String::from_str(alloc, text)?)
}

// The next number of a line.
pub fn number(text: Option<&str>) -> Result<i128, Fail> {
    Ok(text.ok_or("a number")?.parse::<i128>()?)
}

// The same, where it lies within a range.
pub fn within(text: Option<&str>, low: i128, high: i128) -> Result<i128, Fail>
    ensures { IfOk result (IsWithin low high) }
{
    let n = number(text)?;
    if n < low || high < n {
        return Err(Fail::from("a number in its range"));
    }
    Ok(n)
}

pub fn price(text: Option<&str>) -> Result<Price, Fail>
    ensures { IfOk result (λ price. IsPrice price.0) }
{
    Ok(Price(within(text, 1, 10_000_000_000)? as i64))
}

pub fn quantity(text: Option<&str>) -> Result<Shares, Fail>
    ensures { IfOk result (λ shares. IsQuantity shares.0) }
{
    let n = within(text, -1_000_000_000, 1_000_000_000)?;
    if n == 0 {
        return Err(Fail::from("a quantity"));
    }
    Ok(Shares(n as i64))
}

pub fn fee(text: Option<&str>) -> Result<Money, Fail>
    ensures { IfOk result (λ money. IsFee money.0) }
{
    Ok(Money(within(text, 0, 1_000_000_000_000_000)?))
}

pub fn costs(
    per_share: Option<&str>,
    least: Option<&str>,
    slip: Option<&str>,
) -> Result<Costs, Fail>
    ensures { IfOk result IsCosts }
{
    Ok(Costs {
        per_share: Money(within(per_share, 0, 1_000_000)?),
        least: Money(within(least, 0, 10_000_000_000)?),
        slip: within(slip, 0, 1_000_000)? as i64,
    })
}

pub fn symbol(text: Option<&str>) -> Result<Symbol, Fail> {
    Ok(Symbol::read(text.ok_or("a symbol")?.as_bytes()).ok_or("a symbol")?)
}
