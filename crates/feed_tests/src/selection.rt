use lean_fixed::{Price, Shares, Symbol};
use lean_items::CoarseRow;
use std::alloc::Global;
use std::test::Fail;
use test_cases::cases::{check, none};
use universe_rules::{UniverseRule, select};

// top and the three minima; rows of symbol, close, volume and dollars
const CASES: &str = "\
1 0 0 0; AAA 100000 1000 10000 = AAA
1 0 0 0; AAA 100000 1000 10000; BBB 100000 1000 20000 = BBB
9 0 0 0; AAA 1 1 7; BBB 1 1 9; CCC 1 1 8 = BBB CCC AAA
2 0 0 0; CCC 1 1 7; BBB 1 1 7; AAA 1 1 7 = AAA BBB
3 0 0 0; AB 1 1 7; A.B 1 1 7; A 1 1 7; 1 1 1 7 = 1 A A.B
9 0 0 0; AAA 1 1 7; BBB 1 1 8; AAA 1 1 9 = BBB AAA
9 5 0 0; AAA 4 1 7; AAA 5 1 7; BBB 5 1 6 = BBB
9 5 6 7; AAA 5 6 7; BBB 4 6 7; CCC 5 5 7; DDD 5 6 6 = AAA
9 0 0 0; ZZZ 0 0 0; AAA 0 0 1000000000000000 = AAA ZZZ
9 1 0 0; ZZZ 0 0 0 = none
";

fn row_of(text: &str) -> Result<CoarseRow, Fail> {
    let mut words = text.split_whitespace();
    let symbol = words.next().ok_or("no symbol")?;
    let close = words.next().ok_or("no close")?;
    let volume = words.next().ok_or("no volume")?;
    let dollars = words.next().ok_or("no dollars")?;
    Ok(CoarseRow {
        symbol: Symbol::read(symbol.as_bytes()).ok_or("no symbol")?,
        close: Price(close.parse::<i64>()?),
        volume: Shares(volume.parse::<i64>()?),
        dollars: dollars.parse::<i64>()?,
    })
}

fn rule_of(text: &str) -> Result<UniverseRule, Fail> {
    let mut words = text.split_whitespace();
    let top = words.next().ok_or("no top")?;
    let price = words.next().ok_or("no price")?;
    let volume = words.next().ok_or("no volume")?;
    let dollars = words.next().ok_or("no dollars")?;
    Ok(UniverseRule {
        top: top.parse::<u32>()?,
        min_price: Price(price.parse::<i64>()?),
        min_volume: Shares(volume.parse::<i64>()?),
        min_dollars: dollars.parse::<i64>()?,
    })
}

fn selected(alloc: Global, input: &str) -> Result<String, Fail> {
    let (rule, rows) = input.split_once("; ").ok_or("no rule")?;
    let rule = rule_of(rule)?;
    let mut list = Vec::new(alloc);
    for row in rows.split("; ") {
        list.push(row_of(row)?)?;
    }
    let symbols = select(alloc, &list, &rule)?;
    spelled(alloc, &symbols)
}

// Some symbols with a space between them.
pub(crate) fn spelled(alloc: Global, symbols: &[Symbol]) -> Result<String, Fail> {
    if symbols.is_empty() {
        return none(alloc);
    }
    let mut text = String::new(alloc);
    for symbol in symbols {
        if !text.is_empty() {
            text.push(' ')?;
        }
        text.push_str(std::str::from_utf8(symbol.bytes())?)?;
    }
    Ok(text)
}

#[test]
fn selects_by_dollars_and_symbol(rt: HostRuntime) -> Result<(), Fail> {
    check(rt.alloc(), CASES, selected)
}
