use crate::tests::cases::{costs, price, within, word};
use lean_fixed::{Shares, Side};
use std::alloc::Global;
use std::test::Fail;
use test_cases::cases::check;

// The fee of a share, the least fee and the shares.
const FEES: &str = "\
50 10000 100 = 10000
50 10000 200 = 10000
50 10000 201 = 10050
50 10000 1000 = 50000
0 0 1 = 0
1000000 0 1000000000 = 1000000000000000
1000000 10000000000 1 = 10000000000
";

fn fee(alloc: Global, text: &str) -> Result<String, Fail> {
    let mut words = text.split(' ');
    let costs = costs(words.next(), words.next(), Some("0"))?;
    let shares = Shares(within(words.next(), 1, 1_000_000_000)? as i64);
    Ok(format!(in alloc; "{}", costs.fee(shares).0)?)
}

#[test]
fn fees(rt: HostRuntime) -> Result<(), Fail> {
    check(rt.alloc(), FEES, fee)
}

// The slip, the side and the price.
const SLIPS: &str = "\
2 buy 100 = 102
2 sell 100 = 98
2 sell 3 = 1
2 sell 2 = 1
2 sell 1 = 1
0 sell 1 = 1
1000000 buy 10000000000 = 10001000000
1000000 sell 10000000000 = 9999000000
";

fn slipped(alloc: Global, text: &str) -> Result<String, Fail> {
    let mut words = text.split(' ');
    let costs = costs(Some("0"), Some("0"), words.next())?;
    let side = match words.next() {
        Some("buy") => Side::Buy,
        Some("sell") => Side::Sell,
        _ => return word(alloc, "no side"),
    };
    let price = price(words.next())?;
    Ok(format!(in alloc; "{}", costs.slipped(price, side).0)?)
}

#[test]
fn slips(rt: HostRuntime) -> Result<(), Fail> {
    check(rt.alloc(), SLIPS, slipped)
}
