//! The words of demos, and demos as the ends of the backtests of made folders, through both top calls.
ghost use Rattle.std.specs.Prelude.{◌≤◌};

use crate::tests::{check_tapes, check_writes, failing_folder, words_of};
use crate::{Status, lean_main, lean_offline};
use data_maker::make;
use lean_io::{Folder, MemSink};
use std::alloc::Global;
use std::fmt::Write;
use std::process::Abort;
use std::sync::Wait;
use std::test::Fail;
use std::thread::Threads;
use test_cases::cases::compare;

const WORDS: &str = "\
demo, daily/spy: = 1 usage;
demo , daily/spy: = 1 usage;
demo 0000007, daily/spy: = 1 usage;
demo 1000000, daily/spy: = 1 usage;
demo 7x, daily/spy: = 1 usage;
demo x, daily/spy: = 1 usage;
demo +7, daily/spy: = 1 usage;
demo -7, daily/spy: = 1 usage;
demo 7.0, daily/spy: = 1 usage;
demo demo.toml, daily/spy: = 1 usage;
demo 7 8, daily/spy: = 1 usage;
demo 7 -x, daily/spy: = 1 usage;
demo 7 --workers, daily/spy: = 1 usage;
demo 7 --workers 65, daily/spy: = 1 usage;
demo --workers 8, daily/spy: = 1 usage;
demo --workers=8, daily/spy: = 1 usage;
demo 7 --workers 8 --workers 8, daily/spy: = 1 usage;
Demo 7, daily/spy: = 1 usage;
--workers 8 demo 7, daily/spy: = 1 usage;
";

#[test]
fn words_of_demos(rt: HostRuntime) -> Result<(), Fail> {
    check_tapes(&rt, WORDS)
}

// The status of a command, and what it printed.
fn printed<F: Folder>(alloc: Global, words: &str, folder: &mut F) -> Result<String, Fail> {
    let words = words_of(alloc, words)?;
    let mut out = MemSink::new(alloc, 65_536, 200_000, Vec::new(alloc))?;
    let status = lean_offline(alloc, &words, folder, &mut out);
    with_status(alloc, status, out.bytes())
}

fn printed_by_main<R: Abort + Threads + Wait + AllocGlobal + Copy + Send + Sync + 'static>(
    rt: &R,
    words: &str,
) -> Result<String, Fail> {
    let alloc = rt.alloc();
    let words = words_of(alloc, words)?;
    let mut folder = unread(alloc)?;
    let mut out = MemSink::new(alloc, 7, 200_000, Vec::new(alloc))?;
    let status = lean_main(rt, alloc, &words, &mut folder, &mut out);
    with_status(alloc, status, out.bytes())
}

fn with_status(alloc: Global, status: Status, bytes: &[u8]) -> Result<String, Fail> {
    let mut text = String::new(alloc);
    write!(text, "{} {}", status.code(), str::from_utf8(bytes)?)?;
    Ok(text)
}

// A folder whose hours file can't be read.
fn unread(alloc: Global) -> Result<lean_io::MemFolder, Fail> {
    failing_folder(alloc, "hours:usual", "hours", "0")
}

// The line of a number, and the lines behind the last close line of the backtest of the folder that is made from it.
fn end_of_backtest(alloc: Global, number: u64) -> Result<String, Fail>
    requires { number ≤ 999999 }
{
    let mut folder = make(alloc, number)?;
    let report = printed(alloc, "backtest demo.toml", &mut folder)?;
    let lines = report
        .strip_prefix("0 ")
        .ok_or("the backtest is not whole")?;
    let mut end = String::new(alloc);
    let mut closes = 0;
    for line in lines.lines() {
        if line.contains(" close cash ") {
            end.clear();
            closes = 1;
        } else {
            writeln!(end, "{line}")?;
        }
    }
    if closes == 0 || !end.starts_with("end ") {
        return Err("no close line")?;
    }
    Ok(format!(in alloc; "0 demo {number}\n{end}")?)
}

#[test]
fn demo_is_the_end_of_its_backtest(rt: HostRuntime) -> Result<(), Fail> {
    let alloc = rt.alloc();
    let mut folder = unread(alloc)?;
    let end = end_of_backtest(alloc, 7)?;
    compare(
        alloc,
        "demo 007",
        &printed(alloc, "demo 007", &mut folder)?,
        &end,
    )
}

#[test]
fn demo_of_the_greatest_number(rt: HostRuntime) -> Result<(), Fail> {
    let alloc = rt.alloc();
    let mut folder = unread(alloc)?;
    let end = end_of_backtest(alloc, 999_999)?;
    compare(
        alloc,
        "demo 999999",
        &printed(alloc, "demo 999999", &mut folder)?,
        &end,
    )
}

#[test]
fn workers_change_no_demo(rt: HostRuntime) -> Result<(), Fail> {
    let alloc = rt.alloc();
    let mut folder = unread(alloc)?;
    let none = printed(alloc, "demo 7", &mut folder)?;
    compare(
        alloc,
        "one worker",
        &printed_by_main(&rt, "demo 7 --workers 1")?,
        &none,
    )?;
    compare(
        alloc,
        "eight workers",
        &printed_by_main(&rt, "demo --workers=8 7")?,
        &none,
    )
}

#[test]
fn failing_writes_of_demos(rt: HostRuntime) -> Result<(), Fail> {
    check_writes(rt.alloc(), "demo 7", "daily/spy:", "demo 7\nend ", 1)
}
