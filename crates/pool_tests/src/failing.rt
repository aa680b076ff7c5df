//! Feeds whose folder fails at a call: what is given before the failed call is a front of the whole list.

use crate::filled::filled_text;
use crate::folders::{Case, folder_of};
use crate::rows::rows_text;
use lean_io::MemFolder;
use std::alloc::Global;
use std::test::Fail;
use test_cases::cases::check;
use test_cases::cut::SlowFolder;

// The files of 2013-10-07 and 2013-10-08 of each kind of feed.
fn files_of(kind: &str) -> &str {
    match kind {
        "SPY.minute" => {
            "SPY.07:34200000,5,5,5,5,7;34260000,6,6,6,6,7; | SPY.08:34200000,8,8,8,8,7;"
        }
        "SPY.hour" => "SPY.hour:20131007 09:00,5,5,5,5,7;20131008 15:00,6,6,6,6,7;",
        "SPY.daily" => "SPY.daily:20131007 00:00,5,5,5,5,7;20131008 00:00,6,6,6,6,7;",
        _ => "coarse.06:X 1,SPY,6.45,7,9;X 2,A,1,2,3; | coarse.07:X 3,B,2,2,2;",
    }
}

fn failing(alloc: Global, kind: &str, file: &str, call: u64) -> Result<MemFolder, Fail> {
    folder_of(alloc, files_of(kind), file, call)
}

fn case_of(alloc: Global, kind: &str) -> Result<Case, Fail> {
    let text = format!(in alloc; "usual {kind} 07 08 0")?;
    Case::read(alloc, text.as_str())
}

fn whole_rows(alloc: Global, case: &Case, inner: MemFolder) -> Result<String, Fail> {
    let mut folder = inner;
    rows_text(alloc, case, &mut folder)
}

fn slow_rows(alloc: Global, case: &Case, inner: MemFolder) -> Result<String, Fail> {
    let mut folder = SlowFolder { inner };
    rows_text(alloc, case, &mut folder)
}

fn slow_filled(alloc: Global, case: &Case, inner: MemFolder) -> Result<String, Fail> {
    let mut folder = SlowFolder { inner };
    filled_text(alloc, case, &mut folder)
}

// What is read, one byte a read, and which call of which file fails. A minute row takes 19 reads, a row of the other files 25,
// and the two rows of the first coarse file 17 and 12; the read behind the last row finds the end.
const ROWS: &str = "\
SPY.minute SPY.07 0 = faulted
SPY.minute SPY.07 19 = faulted
SPY.minute SPY.07 20 = 07.0931 5 v7, faulted
SPY.minute SPY.07 38 = 07.0931 5 v7, faulted
SPY.minute SPY.07 39 = 07.0931 5 v7, 07.0932 6 v7, faulted
SPY.minute SPY.07 40 = 07.0931 5 v7, 07.0932 6 v7, 08.0931 8 v7, end
SPY.minute SPY.08 0 = 07.0931 5 v7, 07.0932 6 v7, faulted
SPY.minute SPY.08 19 = 07.0931 5 v7, 07.0932 6 v7, faulted
SPY.minute SPY.08 20 = 07.0931 5 v7, 07.0932 6 v7, 08.0931 8 v7, faulted
SPY.minute SPY.08 21 = 07.0931 5 v7, 07.0932 6 v7, 08.0931 8 v7, end
SPY.hour SPY.hour 0 = faulted
SPY.hour SPY.hour 25 = faulted
SPY.hour SPY.hour 26 = 07.1000 5 v7, faulted
SPY.hour SPY.hour 51 = 07.1000 5 v7, 08.1600 6 v7, faulted
SPY.hour SPY.hour 52 = 07.1000 5 v7, 08.1600 6 v7, end
SPY.daily SPY.daily 0 = faulted
SPY.daily SPY.daily 25 = faulted
SPY.daily SPY.daily 26 = 07.1600 5 v7, faulted
SPY.daily SPY.daily 51 = 07.1600 5 v7, 08.1600 6 v7, faulted
SPY.daily SPY.daily 52 = 07.1600 5 v7, 08.1600 6 v7, end
coarse coarse.06 0 = faulted
coarse coarse.06 17 = faulted
coarse coarse.06 18 = 07.0000 SPY 64500 7 9, faulted
coarse coarse.06 29 = 07.0000 SPY 64500 7 9, faulted
coarse coarse.06 30 = 07.0000 SPY 64500 7 9, 07.0000 A 10000 2 3, faulted
coarse coarse.07 0 = 07.0000 SPY 64500 7 9, 07.0000 A 10000 2 3, faulted
coarse coarse.07 12 = 07.0000 SPY 64500 7 9, 07.0000 A 10000 2 3, faulted
coarse coarse.07 13 = 07.0000 SPY 64500 7 9, 07.0000 A 10000 2 3, 08.0000 B 20000 2 2, faulted
coarse coarse.07 14 = 07.0000 SPY 64500 7 9, 07.0000 A 10000 2 3, 08.0000 B 20000 2 2, end
";

// The same with filled bars. None is given before the row behind them was read.
const FILLED: &str = "\
SPY.minute SPY.07 20 = 07.0931 5 v7, faulted
SPY.minute SPY.08 0 = 07.0931 5 v7, 07.0932 6 v7, faulted
SPY.minute SPY.08 19 = 07.0931 5 v7, 07.0932 6 v7, faulted
SPY.minute SPY.08 20 = 07.0931 5 v7, 07.0932 6 v7, 07.0933-07.1600 6 fill, 08.0931 8 v7, faulted
SPY.minute SPY.08 21 = 07.0931 5 v7, 07.0932 6 v7, 07.0933-07.1600 6 fill, 08.0931 8 v7, 08.0932-08.1600 8 fill, end
SPY.hour SPY.hour 51 = 07.1000 5 v7, 07.1100-07.1600 5 fill, 08.1000-08.1500 5 fill, 08.1600 6 v7, faulted
SPY.daily SPY.daily 51 = 07.1600 5 v7, 08.1600 6 v7, faulted
coarse coarse.06 18 = 07.0000 SPY 64500 7 9, faulted
";

fn split(input: &str) -> Result<(&str, &str, u64), Fail> {
    let (kind, rest) = input.split_once(' ').ok_or("no file")?;
    let (file, call) = rest.split_once(' ').ok_or("no call")?;
    Ok((kind, file, call.parse()?))
}

fn rows(alloc: Global, input: &str) -> Result<String, Fail> {
    let (kind, file, call) = split(input)?;
    let case = case_of(alloc, kind)?;
    slow_rows(alloc, &case, failing(alloc, kind, file, call)?)
}

fn filled(alloc: Global, input: &str) -> Result<String, Fail> {
    let (kind, file, call) = split(input)?;
    let case = case_of(alloc, kind)?;
    slow_filled(alloc, &case, failing(alloc, kind, file, call)?)
}

#[test]
fn a_failed_call_comes_behind_the_rows_before_it(rt: HostRuntime) -> Result<(), Fail> {
    check(rt.alloc(), ROWS, rows)?;
    check(rt.alloc(), FILLED, filled)
}

// Whether a text is the whole one, or a front of its items and then a failed read.
fn is_front(whole: &str, part: &str) -> bool {
    match part.strip_suffix("faulted") {
        Some(front) => whole.starts_with(front),
        None => part == whole,
    }
}

// Whether what is given with a call that fails is a front, by a whole hand and one byte at a time.
fn shows_fronts(
    alloc: Global,
    case: &Case,
    kind: &str,
    file: &str,
    call: u64,
) -> Result<bool, Fail> {
    let rows = whole_rows(alloc, case, failing(alloc, kind, "none", 0)?)?;
    let whole = whole_rows(alloc, case, failing(alloc, kind, file, call)?)?;
    let slow = slow_rows(alloc, case, failing(alloc, kind, file, call)?)?;
    Ok(is_front(rows.as_str(), whole.as_str()) && is_front(rows.as_str(), slow.as_str()))
}

// The first call whose failure shows no front, if there is one.
fn wrong_call(alloc: Global, kind: &str, file: &str) -> Result<Option<u64>, Fail> {
    let case = case_of(alloc, kind)?;
    for call in 0..60 {
        if !shows_fronts(alloc, &case, kind, file, call)? {
            return Ok(Some(call));
        }
    }
    Ok(None)
}

#[test]
fn each_call_may_fail(rt: HostRuntime) -> Result<(), Fail> {
    let alloc = rt.alloc();
    for (kind, file) in [
        ("SPY.minute", "SPY.07"),
        ("SPY.minute", "SPY.08"),
        ("SPY.hour", "SPY.hour"),
        ("SPY.daily", "SPY.daily"),
        ("coarse", "coarse.06"),
        ("coarse", "coarse.07"),
    ] {
        let wrong = wrong_call(alloc, kind, file)?;
        assert_eq!(rt; wrong, None, "{kind} {file}");
    }
    Ok(())
}
