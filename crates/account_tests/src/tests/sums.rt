ghost use Rattle.std.specs.Prelude.{◌≡◌, IfOk};
ghost use Rattle.lean_fixed.specs.Ranges.{IsPrice, IsFillPrice, IsQuantity};
ghost use Rattle.lean_orders.specs.Traded.{IsFill};
ghost use Rattle.portfolio.specs.Stands.{fills_applied};

use crate::tests::cases::{fee as money, price, quantity, symbol, within};
use lean_fixed::{Money, NoMemory, Price, Shares, Symbol, laws};
use lean_orders::Fill;
use portfolio::Portfolio;
use std::alloc::Global;
use std::fmt::Write;
use std::str;
use std::test::Fail;
use test_cases::cases::check;

// A starting cash, and then fills as `symbol@quantity@price@fee` and marks as `symbol@price`. The answer is cash, fees,
// realised profit and equity, and of each symbol in the order in which it was held its position, its price and the gross
// value of the others.
const ACCOUNTS: &str = "\
1000 = 1000 0 0 1000
1000 A@1@10@0 A@2@11@0 A@-1@12@0 = 980 0 2 980 A 2 - 0
1000 A@1@10@0 A@2@11@0 A@-1@12@0 A@-2@12@0 = 1004 0 4 1004 A 0 - 0
1000 A@10 A@1@10@0 = 990 0 0 1000 A 1 10 0
100000 A@10@1000000@1000 A@-20@1000000@2000 A@1000000 = 10097000 3000 0 97000 A -10 1000000 0
1000 A@10@100@0 A@-20@110@1 A@5@90@0 A@90 = 1749 1 200 1299 A -5 90 0
1000 A@-10@100@0 A@20@90@0 A@-5@110@0 = 750 0 200 750 A 5 - 0
1000 A@3@10@0 A@-1@10@0 A@-1@10@0 A@-1@10@0 = 1000 0 0 1000 A 0 - 0
1000 A@1@10@0 A@2@11@0 A@-1@11@0 A@-1@11@0 A@-1@11@0 = 1001 0 1 1001 A 0 - 0
1000 A@-1@10@0 A@-2@11@0 A@1@11@0 = 1021 0 -1 1021 A -2 - 0
1000 A@-1@10@0 A@-2@11@0 A@1@11@0 A@1@11@0 A@1@11@0 = 999 0 -1 999 A 0 - 0
1000 A@10@10@0 B@-5@20@0 A@11 B@19 A@12 = 1000 0 0 1025 A 10 12 95 B -5 19 120
1000 B@7 A@1@10@0 = 990 0 0 990 B 0 7 0 A 1 - 0
20000000000000000000 A@1000000000@10001000000@1000000000000000 A@10000000000 = 9998000000000000000 1000000000000000 0 19998000000000000000 A 1000000000 10000000000 0
1 A@-1000000000@10001000000@0 A@1000000000@10001000000@0 = 1 0 0 1 A 0 - 0
";

// A portfolio of which it is known how many fills were applied.
#[derive(Drop)]
struct Account {
    portfolio: Portfolio,
    applied: u32,
    ghost counted: { fills_applied portfolio ≡ applied },
}

fn fill_price(text: Option<&str>) -> Result<Price, Fail>
    ensures { IfOk result (λ price. IsFillPrice price.0) }
{
    Ok(Price(within(text, 1, 10_001_000_000)? as i64))
}

fn fill(
    symbol: Symbol,
    quantity: Shares,
    price: Option<&str>,
    fee: Option<&str>,
) -> Result<Fill, Fail>
    requires { IsQuantity quantity.0 }
    ensures { IfOk result (λ fill. IsFill fill × (fill.symbol ≡ symbol)) }
{
    Ok(Fill {
        symbol,
        quantity,
        price: fill_price(price)?,
        fee: money(fee)?,
    })
}

impl Account {
    fn step(&mut self, text: &str) -> Result<(), Fail> {
        let mut parts = text.split('@');
        let symbol = symbol(parts.next())?;
        let first = parts.next();
        match parts.next() {
            None => self.mark(symbol, price(first)?),
            second => {
                let fill = fill(symbol, quantity(first)?, second, parts.next())?;
                self.apply(&fill)
            }
        }
    }

    fn mark(&mut self, symbol: Symbol, price: Price) -> Result<(), Fail>
        requires { IsPrice price.0 }
    {
        match self.portfolio.hold(symbol) {
            Ok(()) => {
                self.portfolio.mark(symbol, price);
                Ok(())
            }
            Err(NoMemory) => Err(Fail::from("memory")),
        }
    }

    fn apply(&mut self, fill: &Fill) -> Result<(), Fail>
        requires { IsFill fill.now }
    {
        if self.applied >= 1_000_000 {
            return Err(Fail::from("too many fills"));
        }
        match self.portfolio.hold(fill.symbol) {
            Ok(()) => {
                self.portfolio.apply(fill);
                self.applied += 1;
                Ok(())
            }
            Err(NoMemory) => Err(Fail::from("memory")),
        }
    }
}

fn sums_of(alloc: Global, text: &str) -> Result<String, Fail> {
    let mut words = text.split(' ');
    let cash = Money(within(words.next(), 1, 100_000_000_000_000_000_000)?);
    let mut account = Account {
        portfolio: Portfolio::new(alloc, cash),
        applied: 0,
    };
    for word in words {
        account.step(word)?;
    }
    said(alloc, &account.portfolio)
}

fn said(alloc: Global, portfolio: &Portfolio) -> Result<String, Fail> {
    let cash = portfolio.cash().0;
    let fees = portfolio.fees().0;
    let realised = portfolio.realised().0;
    let equity = portfolio.equity().0;
    let mut said = format!(in alloc; "{cash} {fees} {realised} {equity}")?;
    for index in 0..10 {
        if let Some(symbol) = portfolio.symbol_at(index) {
            say_holding(portfolio, symbol, &mut said)?;
        }
    }
    Ok(said)
}

fn say_holding(portfolio: &Portfolio, symbol: Symbol, said: &mut String) -> Result<(), Fail> {
    laws::symbol_is_short(symbol);
    let name = str::from_utf8(symbol.bytes())?;
    let position = portfolio.position(symbol).0;
    let others = portfolio.gross_without(symbol).0;
    match portfolio.price(symbol) {
        Some(price) => write!(said, " {name} {position} {} {others}", price.0)?,
        None => write!(said, " {name} {position} - {others}")?,
    }
    Ok(())
}

#[test]
fn accounts(rt: HostRuntime) -> Result<(), Fail> {
    check(rt.alloc(), ACCOUNTS, sums_of)
}
