ghost use Rattle.std.specs.Prelude.{◌≡◌, ◌≤◌};
ghost use Rattle.lean_fixed.specs.Ranges.{IsMoment, IsWindow};

use crate::{MeetFolder, Rule};
use exchange_hours::Hours;
use feed_pool::WorkerPool;
use lean_fixed::{Day, Moment, NoMemory, Resolution, Symbol, Window};
use lean_items::{FeedKey, FeedKind, FeedNo, Item, Pool};
use std::alloc::Global;
use std::sync::{Arc, Wait};
use std::test::*;
use std::thread::Threads;

// 2013-10-07.
const DAY: i32 = 15_985;

const HOURS: &[u8] =
    b"{\"entries\":{\"Equity-usa-[*]\":{\"monday\":[{\"start\":\"09:30\",\"end\":\"16:00\",\"state\":\"market\"}]}}}";

fn window() -> Window
    ensures { IsWindow result }
{
    Window {
        first: Day(DAY),
        last: Day(DAY),
    }
}

fn hours(alloc: Global) -> Result<Arc<Hours>, Fail> {
    let hours = Hours::read(alloc, HOURS)?;
    Ok(Arc::new(alloc, hours)?)
}

fn symbol(text: &[u8]) -> Result<Symbol, Fail> {
    Ok(Symbol::read(text).ok_or("a symbol")?)
}

fn key(symbol: Symbol) -> FeedKey
    ensures { IsMoment result.start.0 }
{
    FeedKey {
        kind: FeedKind::Equity(symbol, Resolution::Minute),
        start: Moment(23_018_400),
        fill: false,
    }
}

// What came of a story: the items in order as letters, `b` for a bar, `e` for an end, `f` for a failed read, `x` for any other.
fn letter(item: &Item) -> char {
    match item {
        Item::Bar(_) => 'b',
        Item::End => 'e',
        Item::Faulted => 'f',
        _ => 'x',
    }
}

// Adds two feeds, takes the two items of each, and finishes the pool.
fn both<P: Pool>(
    alloc: Global,
    pool: &mut P,
    first: FeedKey,
    second: FeedKey,
) -> Result<String, NoMemory>
    requires added { P.added pool.old ≡ 0 }
    requires first { IsMoment first.start.0 }
    requires second { IsMoment second.start.0 }
{
    let mut told = String::new(alloc);
    let one = pool.add(alloc, first)?;
    let two = pool.add(alloc, second)?;
    told.push(letter(&pool.take(*&one)))?;
    told.push(letter(&pool.take(*&two)))?;
    let _ = pool.finish();
    Ok(told)
}

fn meet<R: Threads + Wait + Copy + Send + 'static>(
    rt: &R,
    alloc: Global,
    rule: Rule,
    workers: u32,
) -> Result<String, Fail>
    requires some { 1 ≤ workers }
    requires few { workers ≤ 64 }
{
    let mut folder = MeetFolder::new(alloc, rule)?;
    let mut told = String::new(alloc);
    let first = key(symbol(b"SPY")?);
    let second = key(symbol(b"AAPL")?);
    {
        let mut pool: WorkerPool<'_, MeetFolder, R> = WorkerPool::new(
            rt,
            alloc,
            &mut folder,
            window(),
            hours(alloc)?,
            workers,
        )?;
        let items = both(alloc, &mut pool, first, second)?;
        told.push_str(items.as_str())?;
    }
    Ok(format!(in alloc; "{told} {} {}", folder.faults(), folder.hands())?)
}

#[test]
fn feeds_meet(rt: HostRuntime) -> Result<(), Fail> {
    let told = meet(&rt, rt.alloc(), Rule::Meet, 2)?;
    assert_eq!(rt; told.as_str(), "bb 0 0");
    Ok(())
}

#[test]
fn feeds_keep_on(rt: HostRuntime) -> Result<(), Fail> {
    let told = meet(&rt, rt.alloc(), Rule::KeepOn, 2)?;
    assert_eq!(rt; told.as_str(), "bb 0 0");
    Ok(())
}
