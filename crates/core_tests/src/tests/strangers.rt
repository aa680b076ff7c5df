//! Replies that no one awaits, and bars that do not fit.

use crate::tests::lines::{append_text, check, compare, play};
use crate::tests::playing::{Game, begin, hear};
use crate::tests::slices::symbol;
use backtest_core::Core;
use lean_fixed::{Moment, Money, Price, Shares, Symbol};
use lean_orders::{Fill, OrderEvent, Reply, What};
use std::alloc::Global;
use std::test::Fail;

const BUYER: &str = "\
run 20131007 20131007 10000
bars SPY
market 10 when position == 0
";

// A bar without a price, a bar of no feed, and one that fits.
const ODD_BARS: &str = "\
601; bar 1 600 601 0
602; bar 7 601 602 1000000
603; bar 1 602 603 1000000
960
";

const ODD_LINES: &str = "\
20131007 10:03 order 1 SPY submitted market 10 -
20131007 10:03 order 1 SPY filled 10 100.0000 fee 0.0000
20131007 16:00 close cash 9000.0000 equity 10000.0000
";

const PERIOD: &str = "\
run 20131007 20131007 10000
bars SPY
period = 2
market 10 when position < 20
";

// Bars of two minutes are made; the third and the last bar start before the one ahead of them ended, and neither asks nor marks.
const STALE_BARS: &str = "\
601; bar 1 600 601 1000000
602; bar 1 601 602 1000000
603; bar 1 600 603 2000000
604; bar 1 602 604 1000000
605; bar 1 603 605 2000000
960
";

const STALE_LINES: &str = "\
20131007 10:02 order 1 SPY submitted market 10 -
20131007 10:02 order 1 SPY filled 10 100.0000 fee 0.0000
20131007 10:04 order 2 SPY submitted market 10 -
20131007 10:04 order 2 SPY filled 10 100.0000 fee 0.0000
20131007 16:00 close cash 8000.0000 equity 10000.0000
";

const BAR: &str = "601; bar 1 600 601 1000000";

// The fill of 10 shares that no order was asked for counts as a position, so the rule does not ask.
const STRANGE_LINES: &str = "\
19700101 00:00 close cash 1.0000 equity 2.0000
20131007 10:00 order 7 SPY canceled
20131007 10:00 order 8 SPY filled 10 100.0000 fee 0.0000
";

fn event(at: i64, id: u32, symbol: Symbol, what: What) -> Reply {
    Reply::Event(OrderEvent {
        at: Moment(at),
        id,
        symbol: Some(symbol),
        what,
    })
}

// A fill of an order that was not asked for.
fn fill(at: i64, symbol: Symbol, quantity: i64, price: i64) -> Reply {
    let fill = Fill {
        symbol,
        quantity: Shares(quantity),
        price: Price(price),
        fee: Money(0),
    };
    event(at, 8, symbol, What::Filled(fill))
}

// An account, a cancel, and fills, of which only the last has a moment, a quantity and a price.
fn hear_strangers(core: &mut Core, symbol: Symbol) -> Result<(), Fail> {
    hear(core, Reply::Done)?;
    hear(core, Reply::Account(Money(10_000), Money(20_000)))?;
    hear(core, event(23_019_000, 7, symbol, What::Canceled))?;
    hear(core, fill(-1, symbol, 10, 1_000_000))?;
    hear(core, fill(23_019_000, symbol, 0, 1_000_000))?;
    hear(core, fill(23_019_000, symbol, 10, 0))?;
    hear(core, fill(23_019_000, symbol, 10, 1_000_000))
}

// What a core prints of replies that no one awaits, and at a bar behind them.
fn after_strangers(alloc: Global) -> Result<String, Fail> {
    let mut game = begin(alloc, BUYER)?;
    hear_all(&mut game)?;
    let mut said = String::new(alloc);
    append_text(&game, &mut said)?;
    play(alloc, &mut game, BAR, &mut said)?;
    Ok(said)
}

fn hear_all(game: &mut Game) -> Result<(), Fail> {
    hear_strangers(&mut game.core, symbol("SPY")?)
}

#[test]
fn odd_bars(rt: HostRuntime) -> Result<(), Fail> {
    check(rt.alloc(), BUYER, ODD_BARS, ODD_LINES)
}

#[test]
fn stale_bars(rt: HostRuntime) -> Result<(), Fail> {
    check(rt.alloc(), PERIOD, STALE_BARS, STALE_LINES)
}

#[test]
fn strange_replies(rt: HostRuntime) -> Result<(), Fail> {
    compare(
        rt.alloc(),
        BUYER,
        &after_strangers(rt.alloc())?,
        STRANGE_LINES,
    )
}
