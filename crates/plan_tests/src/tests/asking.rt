//! What a rule asks for: the commands for one security at one moment.

use crate::tests::cases::check;
use lean_fixed::{Moment, Money, Price, Shares, Symbol};
use lean_items::Bar;
use lean_orders::{Command, Kind, Request, Resting};
use rule_lang::{View, WindowValues};
use rule_strategy::{Plan, RuleView, requests};
use std::alloc::Global;
use std::fmt::Write;
use std::str;
use std::test::Fail;
use test_words::kind_word;

// A view at 09:30 of 2013-10-07, in which the one window of an expression has this value.
fn view(alloc: Global, value: Option<i64>) -> Result<View, Fail> {
    let mut windows = Vec::new(alloc);
    windows.push(value)?;
    Ok(View {
        bar: Bar {
            start: Moment(23_018_969),
            end: Moment(23_018_970),
            opening: Price(1_000_000),
            high: Price(1_010_000),
            low: Price(990_000),
            closing: Price(1_005_000),
            volume: Shares(10),
            real: true,
        },
        at: Moment(23_018_970),
        price: Price(1_005_000),
        position: Shares(-3),
        cash: Money(10_000_000),
        equity: Money(7_000_000),
        orders: 5,
        windows: WindowValues(windows),
    })
}

fn rule_view(alloc: Global) -> Result<RuleView, Fail> {
    Ok(RuleView {
        when: view(alloc, Some(11))?,
        quantity: view(alloc, Some(22))?,
        price: view(alloc, Some(33))?,
        limit: view(alloc, None)?,
    })
}

fn append_order(symbol: Symbol, id: u32, kind: Kind, live: &mut Vec<Resting>) -> Result<(), Fail> {
    live.extend_from_slice(&[Resting { id, symbol, kind }])?;
    Ok(())
}

fn live_orders(alloc: Global, symbol: Symbol) -> Result<Vec<Resting>, Fail> {
    let mut live = Vec::new(alloc);
    append_order(symbol, 2, Kind::Market, &mut live)?;
    append_order(symbol, 3, Kind::Limit, &mut live)?;
    append_order(symbol, 5, Kind::Stop, &mut live)?;
    append_order(symbol, 7, Kind::AtOpen, &mut live)?;
    append_order(symbol, 11, Kind::StopLimit, &mut live)?;
    Ok(live)
}

// What the rules of a file ask for, rule by rule, for a security with five live orders.
fn asked_text(alloc: Global, rules: &str) -> Result<String, Fail> {
    let mut file = String::from_str(alloc, "start='20131007'\nend='20131007'\ncash='1'\n")?;
    file.push_str(rules)?;
    match Plan::read(alloc, file.as_bytes()) {
        Err(_) => Err(Fail::from("a file that is no plan")),
        Ok(plan) => text_of(alloc, &plan),
    }
}

fn text_of(alloc: Global, plan: &Plan) -> Result<String, Fail> {
    let symbol = Symbol::read(b"SPY").ok_or("no symbol")?;
    let live = live_orders(alloc, symbol)?;
    let view = rule_view(alloc)?;
    let mut commands = Vec::new(alloc);
    for rule in &plan.rules.0 {
        requests(rule, symbol, &view, &live, &mut commands)
            .ok()
            .ok_or("no memory")?;
    }
    let mut out = String::new(alloc);
    for command in &commands {
        write_command(command, &mut out)?;
    }
    if out.is_empty() {
        out.push_str("nothing")?;
    }
    Ok(out)
}

fn write_command(command: &Command, out: &mut String) -> Result<(), Fail> {
    match command {
        Command::Submit(at, request) => write_request(at, request, out),
        Command::Update(at, id, price) => {
            write!(out, "{} update {id} {};", at.0, price.0)?;
            Ok(())
        }
        Command::Cancel(at, id) => {
            write!(out, "{} cancel {id};", at.0)?;
            Ok(())
        }
        _ => Err(Fail::from("no request")),
    }
}

fn write_request(at: &Moment, request: &Request, out: &mut String) -> Result<(), Fail> {
    let symbol = str::from_utf8(request.symbol.bytes())?;
    let kind = kind_word(request.kind);
    write!(out, "{} {symbol} {kind} {}", at.0, request.quantity.0)?;
    write_price(&request.price, out)?;
    write_price(&request.limit, out)?;
    out.push(';')?;
    Ok(())
}

fn write_price(price: &Option<Price>, out: &mut String) -> Result<(), Fail> {
    match price {
        None => out.push_str(" -")?,
        Some(price) => write!(out, " {}", price.0)?,
    }
    Ok(())
}

const ASKED: &str =
    r#"rules = [{when = 'position < 0', do = 'order', kind = 'market', quantity = '0 - position'}]
= 23018970 SPY market 3 - -;
rules = [{when = 'position > 0', do = 'order', kind = 'market', quantity = '1'}]
= nothing
rules = [{when = '1 < 2', do = 'order', kind = 'market', quantity = '2.9999'}]
= 23018970 SPY market 2 - -;
rules = [{when = '1 < 2', do = 'order', kind = 'open', quantity = '-2.9999'}]
= 23018970 SPY open -2 - -;
rules = [{when = '1 < 2', do = 'order', kind = 'market', quantity = '0.9'}]
= 23018970 SPY market 0 - -;
rules = [{when = '1 < 2', do = 'order', kind = 'market', quantity = '100000000000000'}]
= 23018970 SPY market 100000000000000 - -;
rules = [{when = '1 < 2', do = 'order', kind = 'market', quantity = '100000000000000.0001'}]
= nothing
rules = [{when = '1 < 2', do = 'order', kind = 'market', quantity = '-100000000000000.0001'}]
= nothing
rules = [{when = '1 < 2', do = 'order', kind = 'market', quantity = '1 / 0'}]
= nothing
rules = [{when = '1 < 2', do = 'order', kind = 'limit', quantity = '1', price = 'close + 1'}]
= 23018970 SPY limit 1 1015000 -;
rules = [{when = '1 < 2', do = 'order', kind = 'stop', quantity = '1', price = '-100000000000000'}]
= 23018970 SPY stop 1 -1000000000000000000 -;
rules = [{when = '1 < 2', do = 'order', kind = 'stop', quantity = '1', price = '100000000000001'}]
= nothing
rules = [{when = '1 < 2', do = 'order', kind = 'stop-limit', quantity = 'orders', price = 'high', limit = 'low'}]
= 23018970 SPY stop-limit 5 1010000 990000;
rules = [{when = '1 < 2', do = 'order', kind = 'stop-limit', quantity = '1', price = 'high', limit = '1/0'}]
= nothing
rules = [{when = 'sma(1) == 0.0011', do = 'order', kind = 'limit', quantity = 'sma(1) * 10000', price = 'sma(1)'}]
= 23018970 SPY limit 22 33 -;
rules = [{when = '1 < 2', do = 'order', kind = 'stop-limit', quantity = '1', price = '1', limit = 'sma(1)'}]
= nothing
rules = [{when = '1 < 2', do = 'update', price = 'low'}]
= 23018970 update 3 990000;23018970 update 5 990000;23018970 update 11 990000;
rules = [{when = '1 < 2', do = 'update', price = '1/0'}]
= nothing
rules = [{when = '1 < 2', do = 'update', price = '100000000000000.0001'}]
= nothing
rules = [{when = '2 < 1', do = 'cancel'}]
= nothing
rules = [{when = '1 < 2', do = 'cancel'}, {when = '1 < 2', do = 'order', kind = 'market', quantity = '1', symbol = 'AAPL'}]
= 23018970 cancel 2;23018970 cancel 3;23018970 cancel 5;23018970 cancel 7;23018970 cancel 11;23018970 SPY market 1 - -;
"#;

#[test]
fn asks_as_the_rules_say(rt: HostRuntime) -> Result<(), Fail> {
    check(rt.alloc(), ASKED, asked_text)
}
