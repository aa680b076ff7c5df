//! The worked report of five days, where a read of one of its files fails, or a write, and where its last prices are others.

use crate::tests::folders::{add, begun, path_of};
use crate::tests::running::{add_other, offline, with_failing_call, with_failing_write};
use lean_io::{MemFolder, MemSink};
use std::alloc::Global;
use std::collections::BTreeMap;
use std::fmt::Write;
use std::test::Fail;
use test_cases::cases::{check, compare};

const PLAN: &str = "\
run 20131007 20131011 100000
fees 0.005 1
merged SPY 15
market 100 when close > sma(4) and position == 0
market 0 - position when close < sma(4) and position > 0
";

// The price of all minutes of a day.
const DAYS: &str = "\
spy/20131007 1670000
spy/20131008 1680000
spy/20131009 1660000
spy/20131010 1650000
spy/20131011 1690000
";

// The lines of eight moments, and the summary.
const REPORT: &str = "\
20131007 16:00 close cash 100000.0000 equity 100000.0000

20131008 09:45 order 1 SPY submitted market 100 -
20131008 09:45 order 1 SPY filled 100 168.0000 fee 1.0000

20131008 16:00 close cash 83199.0000 equity 99999.0000

20131009 09:45 order 2 SPY submitted market -100 -
20131009 09:45 order 2 SPY filled -100 166.0000 fee 1.0000

20131009 16:00 close cash 99798.0000 equity 99798.0000

20131010 16:00 close cash 99798.0000 equity 99798.0000

20131011 09:45 order 3 SPY submitted market 100 -
20131011 09:45 order 3 SPY filled 100 169.0000 fee 1.0000

20131011 16:00 close cash 82897.0000 equity 99797.0000

end 3 orders 3 fills 0 open
fees 3.0000
realised -200.0000
cash 82897.0000
equity 99797.0000
drawdown 203.0000
hold SPY 100 169.0000";

fn files_of_week(alloc: Global) -> Result<BTreeMap<String, Vec<u8>>, Fail> {
    files_of(alloc, DAYS)
}

fn files_of(alloc: Global, days: &str) -> Result<BTreeMap<String, Vec<u8>>, Fail> {
    let mut files = begun(alloc, PLAN)?;
    for day in days.lines() {
        add_day(alloc, &mut files, day)?;
    }
    Ok(files)
}

fn add_day(alloc: Global, files: &mut BTreeMap<String, Vec<u8>>, day: &str) -> Result<(), Fail> {
    let (name, price) = day.split_once(' ').ok_or("no price")?;
    let path = path_of(alloc, name)?;
    let minutes = minutes_at(alloc, price)?;
    add(alloc, files, &path, &minutes)
}

// The minutes from 09:30 to 15:59 at one price.
fn minutes_at(alloc: Global, price: &str) -> Result<String, Fail> {
    let mut minutes = String::new(alloc);
    for minute in 570u32..960 {
        let start = minute * 60_000;
        write!(minutes, "{start},{price},{price},{price},{price},1000\n")?;
    }
    Ok(minutes)
}

// Each of the first 201 calls of a file fails in turn: the status and the number of moments whose lines were printed, calls that
// come to the same told once. Behind the last call that is made nothing fails.
const FAILING_CALLS: &str = "\
spy/20131007 = 4 0, 4 1, 0 whole
spy/20131008 = 4 1, 4 2, 4 3, 0 whole
spy/20131009 = 4 3, 4 4, 4 5, 0 whole
spy/20131010 = 4 5, 4 6, 0 whole
spy/20131011 = 4 6, 4 7, 4 8, 0 whole
";

fn failing_calls(alloc: Global, name: &str) -> Result<String, Fail> {
    let mut told = String::new(alloc);
    for call in 0u64..201 {
        let files = files_of_week(alloc)?;
        let answer = with_failing_call(alloc, files, name, call, REPORT)?;
        add_other(&mut told, &answer)?;
    }
    Ok(told)
}

#[test]
fn failing_reads_of_a_week(rt: HostRuntime) -> Result<(), Fail> {
    check(rt.alloc(), FAILING_CALLS, failing_calls)
}

// Each of the first 80 writes fails in turn.
fn failing_writes(alloc: Global) -> Result<String, Fail> {
    let mut told = String::new(alloc);
    for write in 1usize..81 {
        let files = files_of_week(alloc)?;
        let answer = with_failing_write(alloc, files, write, REPORT)?;
        add_other(&mut told, &answer)?;
    }
    Ok(told)
}

#[test]
fn failing_writes_of_a_week(rt: HostRuntime) -> Result<(), Fail> {
    let told = failing_writes(rt.alloc())?;
    compare(rt.alloc(), "writes", &told, "5 front, 0 whole")
}

// The same days, but for the prices of the last three.
const OTHER_DAYS: &str = "\
spy/20131007 1670000
spy/20131008 1680000
spy/20131009 1700000
spy/20131010 1700000
spy/20131011 1700000
";

// What is then printed of them, and the summary.
const OTHER_END: &str = "\
20131009 16:00 close cash 83199.0000 equity 100199.0000
20131010 16:00 close cash 83199.0000 equity 100199.0000
20131011 16:00 close cash 83199.0000 equity 100199.0000
end 1 orders 1 fills 0 open
fees 1.0000
realised 0.0000
cash 83199.0000
equity 100199.0000
drawdown 1.0000
hold SPY 100 170.0000
";

// The lines of the first moments of a report.
fn first_lines(alloc: Global, report: &str, moments: usize) -> Result<String, Fail> {
    let mut front = String::new(alloc);
    for lines in report.split("\n\n").take(moments) {
        front.push_str(lines)?;
        front.push('\n')?;
    }
    Ok(front)
}

// The lines of the three moments of the first two days stay as they are.
#[test]
fn later_prices_of_a_week(rt: HostRuntime) -> Result<(), Fail> {
    let alloc = rt.alloc();
    let files = files_of(alloc, OTHER_DAYS)?;
    let mut folder = MemFolder::new(alloc, files, Vec::new(alloc))?;
    let mut out = MemSink::new(alloc, 65_536, 65_536, Vec::new(alloc))?;
    let status = offline(alloc, "backtest a.toml", &mut folder, &mut out)?;
    assert_eq!(rt; status.code(), 0);
    let told = str::from_utf8(out.bytes())?;
    let front = first_lines(alloc, REPORT, 3)?;
    let end = told.strip_prefix(front.as_str()).ok_or("other lines")?;
    compare(alloc, "behind them", end, OTHER_END)
}
