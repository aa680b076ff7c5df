//! The first faults of algorithm files: each kind of fault at each table, and two faults in one file.

use crate::tests::cases::check;
use crate::tests::texts::plan_text;
use std::alloc::Global;
use std::fmt::Write;
use std::test::Fail;

// The lines that each file needs.
const USUAL: &str = "start = '20131007'\nend = '20131008'\ncash = '1000'\n";

fn usual_text(alloc: Global, more: &str) -> Result<String, Fail> {
    let mut file = String::from_str(alloc, USUAL)?;
    file.push_str(more)?;
    plan_text(alloc, &file)
}

const SETTINGS: &str = r#"
= missing start
start
= toml
start = '20131007'
start = '20131007'
= toml
start = 20131007
= value start
start = 2013-10-07
= value start
start = '20130229'
= value start
start = '19700101'
= value start
start = '21991231'
= value start
start = '20131007'
= missing end
start = '20131007'
end = '20131006'
= value end
start = '19700102'
end = '20241005'
= limit end
start = '19700102'
end = '20241004'
cash = '0.0001'
= 1 20000 1 2 0 0 0
start = '20131007'
end = '20131007'
cash = '0'
= value cash
start = '20131007'
end = '20131007'
cash = 1000
= value cash
start = '20131007'
end = '20131007'
cash = '10000000000000001'
= value cash
start = '20131007'
end = '20131007'
cash = '10000000000000000'
= 15985 15985 100000000000000000000 2 0 0 0
start = 1
zone = 2
Zone = 3
= unknown Zone
aaaaaaaaaabbbbbbbbbbccccccccccddddddddddeeeeeeeeeeffffffffffgggggggggg = 1
= unknown aaaaaaaaaabbbbbbbbbbccccccccccddddddddddeeeeeeeeeeffffffffffgggggggggg
"my key" = 1
= unknown my key
"st\u0061rt" = '20131007'
= missing end
start.day = 1
= value start
first.day = 1
= unknown first
"#;

#[test]
fn finds_faults_of_settings(rt: HostRuntime) -> Result<(), Fail> {
    check(rt.alloc(), SETTINGS, plan_text)
}

const TABLES: &str = r#"
= 15985 15986 10000000 2 0 0 0
leverage = 0
= value leverage
leverage = 101
= value leverage
leverage = 2.0
= value leverage
leverage = -1
fee-per-share = '1'
= value leverage
leverage = 100
fee-per-share = '100'
fee-minimum = '1000000'
slippage = 1000000
= 15985 15986 10000000 100 1000000 10000000000 1000000
fee-per-share = '100.0001'
= value fee-per-share
fee-minimum = '1000000.0001'
= value fee-minimum
slippage = 1000001
= value slippage
slippage = '1'
= value slippage
slippage = -1
fee-minimum = 'x'
= value fee-minimum
securities = []
rules = []
= 15985 15986 10000000 2 0 0 0
[securities]
symbol = 'A'
= value securities
securities = [{symbol = 'A', resolution = 'daily'}, 1]
= value securities
securities = [{symbol = 'A', resolution = 'daily', fill = true}]
= unknown fill
securities = [{resolution = 'daily'}]
= missing symbol
securities = [{symbol = 'spy', resolution = 'daily'}]
= value symbol
securities = [{symbol = 'A', resolution = 'weekly'}]
= value resolution
securities = [{symbol = 'A', resolution = 'daily', fill-forward = 'no'}]
= value fill-forward
securities = [{symbol = 'A', resolution = 'minute', period = 7}]
= value period
securities = [{symbol = 'A', resolution = 'minute', period = 0}]
= value period
securities = [{symbol = 'A', resolution = 'minute', period = 1440}]
= 15985 15986 10000000 2 0 0 0 A:minute:true:1440
securities = [{symbol = 'A', resolution = 'minute', period = 2880}]
= value period
securities = [{symbol = 'A', resolution = 'hour', period = 15}]
= value period
securities = [{symbol = 'A', resolution = 'hour', period = 180}]
= 15985 15986 10000000 2 0 0 0 A:hour:true:180
securities = [{symbol = 'A', resolution = 'daily', period = 1440}]
= value period
securities = [{symbol = 'A', resolution = 'daily'}, {symbol = 'A', resolution = 'weekly'}]
= value symbol
[universe]
resolution = 'hour'
top = 256
min-price = '1000000'
min-volume = 1000000000000000
min-dollar-volume = 1000000000000000
= 15985 15986 10000000 2 0 0 0 universe:hour:true:-:256:10000000000:1000000000000000:1000000000000000
universe = 1
= value universe
[universe]
resolution = 'hour'
= missing top
[universe]
resolution = 'hour'
top = 257
= value top
[universe]
resolution = 'hour'
top = 1
min-price = '1000000.0001'
min-volume = -1
= value min-price
[universe]
resolution = 'hour'
top = 1
min-volume = 1000000000000001
= value min-volume
[universe]
resolution = 'hour'
top = 1
min-dollar-volume = '1'
= value min-dollar-volume
[universe]
symbol = 'A'
= unknown symbol
[universe]
top = 0
[[securities]]
symbol = 'A'
resolution = 'daily'
fill-forward = 1
= value fill-forward
[[rules]]
do = 'never'
[universe]
resolution = 'daily'
top = 0
= value top
"#;

#[test]
fn finds_faults_of_tables(rt: HostRuntime) -> Result<(), Fail> {
    check(rt.alloc(), TABLES, usual_text)
}

const RULES: &str = r#"rules = 'none'
= value rules
rules = [{do = 'cancel'}]
= missing when
rules = [{when = '1<2'}]
= missing do
rules = [{when = '1<2', do = 'stop'}]
= value do
rules = [{when = '1<2', do = 'cancel', symbol = 1}]
= value symbol
rules = [{when = '1<2', do = 'cancel', quantity = '1', kind = 'market'}]
= unknown kind
rules = [{when = 1, do = 'cancel', kind = 'market'}]
= value when
rules = [{when = 1, do = 'cancel', side = 'buy'}]
= unknown side
rules = [{when = '1<2', do = 'update', kind = 'limit'}]
= unknown kind
rules = [{when = '1<2', do = 'update', quantity = '1'}]
= unknown quantity
rules = [{when = '1<2', do = 'update', limit = '1'}]
= missing price
rules = [{when = '1<2', do = 'update', price = '1', limit = '1'}]
= unknown limit
rules = [{when = '1<2', do = 'order', quantity = '1'}]
= missing kind
rules = [{when = '1<2', do = 'order', kind = 'fill'}]
= value kind
rules = [{when = '1<2', do = 'order', kind = 'market'}]
= missing quantity
rules = [{when = '1<2', do = 'order', kind = 'market', quantity = '1', price = '1'}]
= unknown price
rules = [{when = '1<2', do = 'order', kind = 'open', quantity = '1', price = '1'}]
= unknown price
rules = [{when = '1<2', do = 'order', kind = 'limit', quantity = '1'}]
= missing price
rules = [{when = '1<2', do = 'order', kind = 'stop', quantity = '1', price = '1', limit = '1'}]
= unknown limit
rules = [{when = '<', do = 'order', kind = 'stop-limit', quantity = '1', price = '1'}]
= missing limit
rules = [{when = '1<2', do = 'order', kind = 'open', quantity = '1', symbol = 'A'}]
= 15985 15986 10000000 2 0 0 0 A:open:0
rules = [{when = '1<', do = 'cancel'}, {when = '1<2', do = 'order', kind = 'open', quantity = 5}]
= value quantity
rules = [{when = '1<', do = 'cancel'}, {when = '1<2', do = 'order', kind = 'open', quantity = '('}]
= rule 1 when syntax 2
rules = [{when = '1<2', do = 'cancel'}, {when = '1<2', do = 'order', kind = 'open', quantity = '1<2'}]
= rule 2 quantity type 0
rules = [{when = '1<2', do = 'order', kind = 'stop-limit', quantity = '1', price = '1.', limit = '$'}]
= rule 1 price number 0
rules = [{when = '1<2', do = 'order', kind = 'stop-limit', quantity = '1', price = '1', limit = '2 $'}]
= rule 1 limit token 2
rules = [{when = '1<2', do = 'update', price = 'sma(0)'}]
= rule 1 price number 4
rules = [{when = '(((((((((((((((((((((((((((((((((1<2)', do = 'cancel'}]
= rule 1 when depth 32
"#;

#[test]
fn finds_faults_of_rules(rt: HostRuntime) -> Result<(), Fail> {
    check(rt.alloc(), RULES, usual_text)
}

// So many securities, S0, S1 and so on, or so many rules.
fn many(alloc: Global, securities: u32, rules: u32) -> Result<String, Fail> {
    let mut file = String::new(alloc);
    for number in 0..securities {
        writeln!(
            file,
            "[[securities]]\nsymbol = 'S{number}'\nresolution = 'daily'"
        )?;
    }
    for _ in 0..rules {
        file.push_str("[[rules]]\nwhen = '1 == 1'\ndo = 'cancel'\n")?;
    }
    usual_text(alloc, &file)
}

#[test]
fn counts_securities_and_rules(rt: HostRuntime) -> Result<(), Fail> {
    let alloc = rt.alloc();
    assert_eq!(&rt; many(alloc, 257, 0)?.as_str(), "limit securities");
    assert_eq!(&rt; many(alloc, 256, 65)?.as_str(), "limit rules");
    assert!(&rt; many(alloc, 256, 64)?.len() > 256 * 17 + 64 * 13);
    Ok(())
}

// A rule whose `when` is `1<2` and so many blanks.
fn with_blanks(alloc: Global, blanks: usize) -> Result<String, Fail> {
    let mut file = String::from_str(alloc, "rules = [{do = 'cancel', when = '1<2")?;
    for _ in 0..blanks {
        file.push(' ')?;
    }
    file.push_str("'}]\n")?;
    usual_text(alloc, &file)
}

#[test]
fn bounds_the_texts_of_expressions(rt: HostRuntime) -> Result<(), Fail> {
    let alloc = rt.alloc();
    assert_eq!(&rt; with_blanks(alloc, 998)?.as_str(), "limit when");
    assert_eq!(&rt;
        with_blanks(alloc, 997)?.as_str(),
        "15985 15986 10000000 2 0 0 0 any:cancel:0"
    );
    Ok(())
}
