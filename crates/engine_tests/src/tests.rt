//! Runs over feeds of a few items: what is written, and how the run ends.
ghost use Rattle.std.specs.Prelude.{◌≡◌, ◌+◌, ◌<◌, ◌^◌, vec_len, IfOk};
ghost use Rattle.clock_book.specs.Books.{Book as ClockBook};
ghost use Rattle.order_book.specs.Kept.{order_count};
ghost use Rattle.order_book.specs.Stands.{StandsFor};
ghost use Rattle.lean_fixed.specs.Ranges.{IsMoment};

use crate::running::run_dots;
use backtest_engine::Ended;
use exchange_hours::Hours;
use lean_fixed::{Moment, Money, Price, Resolution, Shares, Symbol};
use lean_io::MemSink;
use lean_items::{Bad, Bar, FeedKey, FeedKind, Item, Reason};
use order_book::Book;
use pool_tests::{MemPool, Script};
use std::alloc::Global;
use std::str;
use std::sync::Arc;
use std::test::Fail;
use trade_costs::Costs;

const HOURS: &str = r#"{"entries":{"Equity-usa-[*]":{
"monday":[{"start":"09:30:00","end":"16:00:00","state":"market"}]}}}"#;

fn new_book(alloc: Global) -> Result<Book, Fail>
    ensures stands { IfOk result (λ book. (s : ClockBook) × StandsFor book s) }
    ensures count { IfOk result (λ book. order_count book ≡ 0) }
{
    let hours = Arc::new(alloc, Hours::read(alloc, HOURS.as_bytes())?)?;
    let costs = Costs {
        per_share: Money(0),
        least: Money(0),
        slip: 0,
    };
    Ok(Book::new(alloc, Money(10_000_000), costs, 1, hours))
}

// The feed of a symbol from minute 5 on. It fills forward, so that the pool of a script gives the whole script.
fn key() -> Result<FeedKey, Fail>
    ensures { IfOk result (λ key. IsMoment key.start.0) }
{
    Ok(FeedKey {
        kind: FeedKind::Equity(Symbol::read(b"SPY").ok_or("a symbol")?, Resolution::Minute),
        start: Moment(5),
        fill: true,
    })
}

// A bar of one minute that ends at a minute.
fn bar(end: u32) -> Item {
    Item::Bar(Bar {
        start: Moment(end as i64 - 1),
        end: Moment(end as i64),
        opening: Price(10),
        high: Price(10),
        low: Price(10),
        closing: Price(10),
        volume: Shares(1),
        real: true,
    })
}

fn word(ended: Ended) -> &'static str {
    match ended {
        Ended::Done => "done",
        Ended::BadRow => "bad row",
        Ended::ReadFault => "read fault",
        Ended::WriteFault => "write fault",
        Ended::NoMemory => "no memory",
        Ended::Limit => "limit",
    }
}

// What a run from minute 5 to minute 9 over two feeds of these items writes, and how it ends.
fn ran(alloc: Global, items: Vec<Item>, room: usize) -> Result<String, Fail>
    requires { vec_len items + 1 < 2 ^ 40 }
{
    let mut faults: u64 = 0;
    let mut pool = MemPool::new(alloc, Script::new(items), &mut faults);
    let mut out = MemSink::new(alloc, 100, room, Vec::new(alloc))?;
    let book = new_book(alloc)?;
    let ended = run_dots(alloc, &mut pool, book, &[key()?, key()?], 5, 9, &mut out);
    let mut said = String::new(alloc);
    said.push_str(str::from_utf8(out.bytes()).ok().ok_or("a text")?)?;
    said.push_str(word(ended))?;
    Ok(said)
}

#[test]
fn a_dot_a_moment(rt: HostRuntime) -> Result<(), Fail> {
    let said = ran(rt.alloc(), vec![in rt.alloc(); bar(6), bar(8)]?, 65_536)?;
    assert_eq!(rt; said.as_str(), "..end\ndone");
    Ok(())
}

#[test]
fn a_malformed_line_behind_its_moment(rt: HostRuntime) -> Result<(), Fail> {
    let bad = Item::Bad(Bad {
        file: 0,
        line: 3,
        reason: Reason::Price,
    });
    let said = ran(rt.alloc(), vec![in rt.alloc(); bar(6), bad]?, 65_536)?;
    assert_eq!(rt;
        said.as_str(),
        ".data equity/usa/minute/spy/19700101_spy_minute_trade.csv line 3 price\nbad row"
    );
    Ok(())
}

#[test]
fn a_failed_read_behind_whole_moments(rt: HostRuntime) -> Result<(), Fail> {
    let said = ran(
        rt.alloc(),
        vec![in rt.alloc(); bar(6), Item::Faulted]?,
        65_536,
    )?;
    assert_eq!(rt; said.as_str(), ".read fault");
    Ok(())
}

#[test]
fn items_that_fall_are_passed_over(rt: HostRuntime) -> Result<(), Fail> {
    let said = ran(
        rt.alloc(),
        vec![in rt.alloc(); bar(7), bar(6), bar(8)]?,
        65_536,
    )?;
    assert_eq!(rt; said.as_str(), "..end\ndone");
    Ok(())
}

#[test]
fn a_sink_without_room(rt: HostRuntime) -> Result<(), Fail> {
    let said = ran(rt.alloc(), vec![in rt.alloc(); bar(6), bar(8)]?, 1)?;
    assert_eq!(rt; said.as_str(), ".write fault");
    Ok(())
}
