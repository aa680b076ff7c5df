ghost use Rattle.std.specs.Prelude.{◌≤ℤ◌, pos, IfOk};
ghost use Rattle.lean_fixed.specs.Calendar.{last_day};

use crate::hours::usual_file;
use exchange_hours::Hours;
use feed_paths::{next_file, path_text};
use lean_fixed::ranges::LAST_DAY;
use lean_fixed::{Day, Moment, Resolution, Symbol, Window};
use lean_items::{FeedKey, FeedKind};
use std::alloc::Global;
use std::test::Fail;
use test_cases::cases::{check, none};

// Market hours on each day from Monday to Friday, but for Friday 1970-01-02.
fn hours(alloc: Global) -> Result<Hours, Fail> {
    let file = usual_file(alloc, ",'holidays':['1/2/1970']")?;
    Ok(Hours::read(alloc, file.as_bytes())?)
}

fn kind_of(word: &str, symbol: &str) -> Result<FeedKind, Fail> {
    let resolution = match word {
        "coarse" => return Ok(FeedKind::Coarse),
        "minute" => Resolution::Minute,
        "hour" => Resolution::Hour,
        "daily" => Resolution::Daily,
        _ => return Err("a kind of feed")?,
    };
    let symbol = Symbol::read(symbol.as_bytes()).ok_or("a symbol")?;
    Ok(FeedKind::Equity(symbol, resolution))
}

fn window_of(first: &str, last: &str) -> Result<Window, Fail>
    ensures { IfOk result (λ window. window.last.0 ≤ℤ pos last_day) }
{
    let (first, last): (i32, i32) = (first.parse()?, last.parse()?);
    if last > LAST_DAY {
        return Err("a day past the last one")?;
    }
    Ok(Window {
        first: Day(first),
        last: Day(last),
    })
}

// Appends the paths of a feed's files, each with a space before it.
fn append_paths(key: &FeedKey, window: Window, hours: &Hours, out: &mut String) -> Result<(), Fail>
    requires { window.last.0 ≤ℤ pos last_day }
{
    let mut after = None;
    for _ in 0..20 {
        let Some(file) = next_file(*key, window, hours, after) else {
            return Ok(());
        };
        out.push(' ')?;
        path_text(*key, file, out)?;
        after = Some(file);
    }
    Err("more than 20 files")?
}

// The files of a feed: its kind and symbol, the minute of its start, and the first and last day of the window.
// 1970-01-03 and 1970-01-04 are a weekend. A coarse file needs no session.
const FILES: &str = "\
minute SPY 0 0 5 = equity/usa/minute/spy/19700101_spy_minute_trade.csv equity/usa/minute/spy/19700105_spy_minute_trade.csv equity/usa/minute/spy/19700106_spy_minute_trade.csv
minute BRK.B -10000 0 4 = equity/usa/minute/brk.b/19700101_brk.b_minute_trade.csv equity/usa/minute/brk.b/19700105_brk.b_minute_trade.csv
minute 3M 7199 0 5 = equity/usa/minute/3m/19700105_3m_minute_trade.csv equity/usa/minute/3m/19700106_3m_minute_trade.csv
minute SPY 7200 0 5 = equity/usa/minute/spy/19700106_spy_minute_trade.csv
minute SPY 8640 0 5 = none
minute SPY 9223372036854775807 0 84005 = none
minute SPY 1440 0 3 = none
minute SPY 0 -3 -1 = none
minute ABCDEFGHIJKL 23018970 15985 15985 = equity/usa/minute/abcdefghijkl/20131007_abcdefghijkl_minute_trade.csv
minute SPY 120965760 84004 84005 = equity/usa/minute/spy/21991230_spy_minute_trade.csv equity/usa/minute/spy/21991231_spy_minute_trade.csv
hour SPY 0 0 5 = equity/usa/hour/spy.csv
hour BRK.B 0 0 5 = equity/usa/hour/brk.b.csv
daily A1.Z9 0 0 5 = equity/usa/daily/a1.z9.csv
daily SPY 9223372036854775807 0 5 = equity/usa/daily/spy.csv
coarse - 0 0 3 = equity/usa/fundamental/coarse/19700101.csv equity/usa/fundamental/coarse/19700102.csv equity/usa/fundamental/coarse/19700103.csv
coarse - 0 0 0 = none
coarse - 0 1 1 = equity/usa/fundamental/coarse/19700101.csv
coarse - 0 1 2 = equity/usa/fundamental/coarse/19700101.csv equity/usa/fundamental/coarse/19700102.csv
coarse - 0 15985 15985 = equity/usa/fundamental/coarse/20131006.csv
coarse - 0 3 2 = none
coarse - 0 84005 84005 = equity/usa/fundamental/coarse/21991230.csv
";

fn paths(alloc: Global, text: &str) -> Result<String, Fail> {
    let (word, rest) = text.split_once(' ').ok_or("a kind")?;
    let (symbol, rest) = rest.split_once(' ').ok_or("a symbol")?;
    let (start, rest) = rest.split_once(' ').ok_or("a start")?;
    let (first, last) = rest.split_once(' ').ok_or("two days")?;
    let key = FeedKey {
        kind: kind_of(word, symbol)?,
        start: Moment(start.parse()?),
        fill: false,
    };
    let mut out = String::new(alloc);
    append_paths(&key, window_of(first, last)?, &hours(alloc)?, &mut out)?;
    match out.strip_prefix(" ") {
        Some(paths) => Ok(String::from_str(alloc, paths)?),
        None => none(alloc),
    }
}

#[test]
fn lists_the_files_of_a_feed(rt: HostRuntime) -> Result<(), Fail> {
    check(rt.alloc(), FILES, paths)
}

// The first file of all days, and those past the last day and past the greatest number.
const ENDS: &str = "\
coarse = 0 none none
minute = 0 none none
hour = 0 none none
daily = 0 none none
";

fn number(alloc: Global, file: Option<u32>) -> Result<String, Fail> {
    match file {
        Some(file) => Ok(format!(in alloc; "{file}")?),
        None => none(alloc),
    }
}

fn numbers(alloc: Global, word: &str) -> Result<String, Fail> {
    let key = FeedKey {
        kind: kind_of(word, "SPY")?,
        start: Moment(i64::MIN),
        fill: true,
    };
    let window = Window {
        first: Day(i32::MIN),
        last: Day(LAST_DAY),
    };
    let hours = hours(alloc)?;
    let first = number(alloc, next_file(key, window, &hours, None))?;
    let past = number(alloc, next_file(key, window, &hours, Some(84_005)))?;
    let end = number(alloc, next_file(key, window, &hours, Some(u32::MAX)))?;
    Ok(format!(in alloc; "{first} {past} {end}")?)
}

#[test]
fn ends_with_the_numbers(rt: HostRuntime) -> Result<(), Fail> {
    check(rt.alloc(), ENDS, numbers)
}
