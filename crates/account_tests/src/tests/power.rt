ghost use Rattle.std.specs.Prelude.{◌≤◌, IfOk};
ghost use Rattle.lean_fixed.specs.Ranges.{IsMoney, IsPosition};
ghost use Rattle.buying_power.specs.Buying.{IsPower};

use crate::tests::cases::{fee, price, quantity, within, word};
use buying_power::{Power, allows};
use lean_fixed::{Money, Shares};
use std::alloc::Global;
use std::test::Fail;
use test_cases::cases::check;

// The equity, the gross value of the others, the position, the price, the quantity, the leverage and the fee.
const QUESTIONS: &str = "\
1000 499 0 10 150 2 1 = yes
1000 499 0 10 151 2 1 = no
1000 499 0 10 150 2 2 = no
1000 500 0 10 150 2 1 = no
1000 499 0 10 -150 2 1 = yes
1000 499 0 10 -151 2 1 = no
1000 499 100 10 50 2 1 = yes
1000 499 100 10 51 2 1 = no
1000 499 100 10 -250 2 1 = yes
1000 499 100 10 -251 2 1 = no
-1 0 1000 10 -1 2 1 = yes
-1 0 1000 10 -2000 2 1 = yes
-1 0 1000 10 -2001 2 1 = no
-1 0 -1000 10 2000 2 1 = yes
-1 0 -1000 10 2001 2 1 = no
0 0 0 1 1 1 0 = no
1 0 0 1 1 1 0 = yes
6000000000000000000 0 0 10000000000 1000000000 2 0 = yes
4999999999999999999 0 0 10000000000 1000000000 2 0 = no
1000000000000000000000000000000 1000000000000000000000000000000 1000000000000000 10000000000 1000000000 100 1000000000000000 = yes
-1000000000000000000000000000000 1000000000000000000000000000000 1000000000000000 10000000000 1000000000 100 0 = no
";

fn money(text: Option<&str>) -> Result<Money, Fail>
    ensures { IfOk result (λ money. IsMoney money.0) }
{
    let most = 1_000_000_000_000_000_000_000_000_000_000;
    Ok(Money(within(text, -most, most)?))
}

fn held(text: Option<&str>) -> Result<Shares, Fail>
    ensures { IfOk result (λ shares. IsPosition shares.0) }
{
    let most = 1_000_000_000_000_000;
    Ok(Shares(within(text, -most, most)? as i64))
}

fn leverage(text: Option<&str>) -> Result<u32, Fail>
    ensures { IfOk result (λ n. (1 ≤ n) × (n ≤ 100)) }
{
    Ok(within(text, 1, 100)? as u32)
}

fn power(text: &str) -> Result<Power, Fail>
    ensures { IfOk result IsPower }
{
    let mut words = text.split(' ');
    let equity = money(words.next())?;
    let gross_others = money(words.next())?;
    let held = held(words.next())?;
    let price = price(words.next())?;
    let quantity = quantity(words.next())?;
    let leverage = leverage(words.next())?;
    let fee = fee(words.next())?;
    Ok(Power {
        equity,
        gross_others,
        held,
        price,
        quantity,
        leverage,
        fee,
    })
}

fn answer(alloc: Global, text: &str) -> Result<String, Fail> {
    let power = power(text)?;
    word(alloc, if allows(&power) { "yes" } else { "no" })
}

#[test]
fn questions(rt: HostRuntime) -> Result<(), Fail> {
    check(rt.alloc(), QUESTIONS, answer)
}
