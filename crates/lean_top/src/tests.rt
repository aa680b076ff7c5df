//! Worked daily tapes through both top calls, over folders and sinks in memory that fail at chosen calls.
ghost use Rattle.std.specs.Prelude.{◌<◌, ◌≤◌};

use crate::{Status, lean_main, lean_offline};
use lean_io::{Folder, MemFolder, MemSink};
use std::alloc::{AllocError, Global};
use std::collections::BTreeMap;
use std::fmt::Write;
use std::process::Abort;
use std::sync::Wait;
use std::test::Fail;
use std::thread::Threads;
use test_cases::cases::{compare, parts_of};
use test_cases::cut::SlowFolder;

const USUAL: &str = "\
{\"entries\":{\"Equity-usa-[*]\":{\
\"monday\":[{\"start\":\"09:30:00\",\"end\":\"16:00:00\",\"state\":\"market\"}],\
\"tuesday\":[{\"start\":\"09:30:00\",\"end\":\"16:00:00\",\"state\":\"market\"}]}}}";

// The first day closes early, and the second is a holiday.
const EARLY: &str = "\
{\"entries\":{\"Equity-usa-[*]\":{\
\"monday\":[{\"start\":\"09:30:00\",\"end\":\"16:00:00\",\"state\":\"market\"}],\
\"tuesday\":[{\"start\":\"09:30:00\",\"end\":\"16:00:00\",\"state\":\"market\"}],\
\"holidays\":[\"10/8/2013\"],\"earlyCloses\":{\"10/7/2013\":\"13:00:00\"}}}}";

// The bytes that a case writes. Of rows: `T*V` is the row of time T with four prices and volume V, `_` a space, `;` an LF and
// `<` a CR.
fn bytes_of(alloc: Global, text: &str) -> Result<Vec<u8>, AllocError> {
    let mut bytes = Vec::new(alloc);
    match text {
        "usual" => bytes.extend_from_slice(USUAL.as_bytes())?,
        "early" => bytes.extend_from_slice(EARLY.as_bytes())?,
        _ => {
            for byte in text.as_bytes() {
                match *byte {
                    b'_' => bytes.push(b' ')?,
                    b'*' => bytes.extend_from_slice(b",1672000,1680000,1670000,1675000,")?,
                    b';' => bytes.push(b'\n')?,
                    b'<' => bytes.push(b'\r')?,
                    other => bytes.push(other)?,
                }
            }
        }
    }
    Ok(bytes)
}

// The path of a file of that name: `hours`, `plan` for an algorithm file, or `daily/spy`, or `07/spy` for the minutes of 2013-10-07.
fn path_of(alloc: Global, name: &str) -> Result<String, Fail> {
    if name == "hours" {
        return Ok(String::from_str(alloc, "market-hours/market-hours-database.json")?);
    }
    if name == "plan" {
        return Ok(String::from_str(alloc, "a.toml")?);
    }
    let mut path = String::from_str(alloc, "equity/usa/")?;
    let (folder, symbol) = name.split_once('/').ok_or("no symbol")?;
    match folder {
        "07" | "08" => write!(
            path,
            "minute/{symbol}/201310{folder}_{symbol}_minute_trade.csv"
        )?,
        _ => write!(path, "{folder}/{symbol}.csv")?,
    }
    Ok(path)
}

// The files that a case writes, as `hours:usual daily/spy:LINE;LINE; 07/aapl:LINE;`, and a file with the call of it that fails.
fn folder_of(alloc: Global, files: &str, fails: Vec<(String, u64)>) -> Result<MemFolder, Fail> {
    let mut map = BTreeMap::new(alloc);
    for file in files.split(' ') {
        let (name, text) = file.split_once(':').ok_or("no name")?;
        let _ = map.insert(path_of(alloc, name)?, bytes_of(alloc, text)?)?;
    }
    Ok(MemFolder::new(alloc, map, fails)?)
}

pub(crate) fn words_of(alloc: Global, words: &str) -> Result<Vec<String>, AllocError> {
    let mut all = Vec::new(alloc);
    for word in words.split(' ') {
        all.push(String::from_str(alloc, word)?)?;
    }
    Ok(all)
}

// How a command ended: the status, and the lines with `;` for LF and `*` for the four prices.
fn said_of(alloc: Global, status: Status, bytes: &[u8]) -> Result<String, Fail> {
    let mut said = String::new(alloc);
    write!(said, "{} ", status.code())?;
    let lines = str::from_utf8(bytes)?;
    for (place, line) in lines
        .split(" 167.2000 168.0000 167.0000 167.5000 ")
        .enumerate()
    {
        if place > 0 {
            said.push('*')?;
        }
        for (number, part) in line.split('\n').enumerate() {
            if number > 0 {
                said.push(';')?;
            }
            said.push_str(part)?;
        }
    }
    Ok(said)
}

pub(crate) fn offline<F: Folder>(
    alloc: Global,
    words: &str,
    folder: &mut F,
    most: usize,
) -> Result<String, Fail>
    requires { 1 ≤ most }
{
    let words = words_of(alloc, words)?;
    let mut out = MemSink::new(alloc, most, 65_536, Vec::new(alloc))?;
    let status = lean_offline(alloc, &words, folder, &mut out);
    said_of(alloc, status, out.bytes())
}

fn threaded<R: Abort + Threads + Wait + AllocGlobal + Copy + Send + Sync + 'static>(
    rt: &R,
    words: &str,
    folder: &mut MemFolder,
) -> Result<String, Fail> {
    let alloc = rt.alloc();
    let words = words_of(alloc, words)?;
    let mut out = MemSink::new(alloc, 7, 65_536, Vec::new(alloc))?;
    let status = lean_main(rt, alloc, &words, folder, &mut out);
    said_of(alloc, status, out.bytes())
}

const TAPES: &str = "\
tape SPY, daily/spy:20131007_00:00*1;20131008_00:00*2; = 0 20131007 SPY*1;20131008 SPY*2;end 2 rows;
tape SPY, daily/spy:20131007_00:00*1<;;20131008_00:00*2 = 0 20131007 SPY*1;20131008 SPY*2;end 2 rows;
tape SPY, daily/aapl:20131007_00:00*1; = 0 end 0 rows;
tape SPY, daily/spy: = 0 end 0 rows;
tape SPY AAPL, daily/spy:20131007_00:00*1; daily/aapl:20131007_00:00*1 = 0 20131007 SPY*1;20131007 AAPL*1;end 2 rows;
tape SPY AAPL, daily/spy:20131008_00:00*2; daily/aapl:20131007_00:00*1 = 0 20131007 AAPL*1;20131008 SPY*2;end 2 rows;
tape SPY AAPL, daily/spy:20131008_00:00*2; daily/aapl:20131007_00:00*1;1;20131008_00:00*2 = 3 20131007 AAPL*1;data equity/usa/daily/aapl.csv line 2 fields;
tape SPY AAPL, daily/spy:20131007_00:00*1;1 daily/aapl:20131007_00:00*1;2 = 3 20131007 SPY*1;20131007 AAPL*1;data equity/usa/daily/spy.csv line 2 fields;
tape SPY AAPL, daily/spy:20131007_00:00*1;20131008_00:00*2;1 daily/aapl:20131007_00:00*1;2 = 3 20131007 SPY*1;20131007 AAPL*1;data equity/usa/daily/aapl.csv line 2 fields;
tape SPY AAPL, daily/spy:20131007_00:00*1; daily/aapl:;1 = 3 data equity/usa/daily/aapl.csv line 2 fields;
tape SPY, daily/spy:20131008_00:00*2;20131007_00:00*1; = 3 20131008 SPY*2;data equity/usa/daily/spy.csv line 2 order;
tape SPY, daily/spy:20131007_00:00*1;20131007_00:00*1;20131008_00:00*2; = 3 20131007 SPY*1;data equity/usa/daily/spy.csv line 2 order;
tape, daily/spy:20131007_00:00*1; = 1 usage;
tape spy, daily/spy:20131007_00:00*1; = 1 usage;
tape SPY SPY, daily/spy:20131007_00:00*1; = 1 usage;
tape minute 20131008 20131007 SPY, daily/spy:20131007_00:00*1; = 1 usage;
";

// Each case through both calls, and through hands that read one byte at a time into a sink that takes one byte at a time.
pub(crate) fn check_tapes<R: Abort + Threads + Wait + AllocGlobal + Copy + Send + Sync + 'static>(
    rt: &R,
    cases: &str,
) -> Result<(), Fail> {
    let alloc = rt.alloc();
    for case in cases.lines() {
        let (input, wanted) = parts_of(case)?;
        let (words, files) = input.split_once(", ").ok_or("no files")?;
        let mut folder = folder_of(alloc, files, Vec::new(alloc))?;
        compare(
            alloc,
            input,
            &offline(alloc, words, &mut folder, 65_536)?,
            wanted,
        )?;
        compare(alloc, input, &threaded(rt, words, &mut folder)?, wanted)?;
        let mut slow = SlowFolder { inner: folder };
        compare(alloc, input, &offline(alloc, words, &mut slow, 1)?, wanted)?;
    }
    Ok(())
}

#[test]
fn worked_tapes(rt: HostRuntime) -> Result<(), Fail> {
    check_tapes(&rt, TAPES)
}

#[test]
fn no_words(rt: HostRuntime) -> Result<(), Fail> {
    let alloc = rt.alloc();
    let words = Vec::new(alloc);
    let mut folder = folder_of(alloc, "daily/spy:", Vec::new(alloc))?;
    let mut out = MemSink::new(alloc, 65_536, 65_536, Vec::new(alloc))?;
    let status = lean_offline(alloc, &words, &mut folder, &mut out);
    assert_eq!(rt; status.code(), 1);
    assert_eq!(rt; out.bytes(), b"usage\n".as_slice());
    Ok(())
}

const FILES: &str = "\
daily/spy:20131007_00:00*1234;20131008_00:00*2000; \
daily/aapl:20131007_00:00*1;20131008_00:00*2;";

// Call k of the file of SPY fails, where AAPL has two rows: the opening is call 0, and a read gives one byte, or all. A row
// is known when its LF was read; the rows of a day are printed before a failed read stops the tape.
const FAILING_READS: &str = "\
0 1 = 4 
1 1 = 4 
52 1 = 4 
53 1 = 4 20131007 SPY*1234;20131007 AAPL*1;
104 1 = 4 20131007 SPY*1234;20131007 AAPL*1;
105 1 = 4 20131007 SPY*1234;20131007 AAPL*1;20131008 SPY*2000;20131008 AAPL*2;
106 1 = 0 20131007 SPY*1234;20131007 AAPL*1;20131008 SPY*2000;20131008 AAPL*2;end 4 rows;
1 256 = 4 
2 256 = 4 20131007 SPY*1234;20131007 AAPL*1;20131008 SPY*2000;20131008 AAPL*2;
3 256 = 0 20131007 SPY*1234;20131007 AAPL*1;20131008 SPY*2000;20131008 AAPL*2;end 4 rows;
";

#[test]
fn failing_reads(rt: HostRuntime) -> Result<(), Fail> {
    let alloc = rt.alloc();
    for case in FAILING_READS.lines() {
        let (input, wanted) = parts_of(case)?;
        let (call, most) = input.split_once(' ').ok_or("no number")?;
        let mut folder = failing_folder(alloc, FILES, "daily/spy", call)?;
        let answer = if most == "1" {
            let mut slow = SlowFolder { inner: folder };
            offline(alloc, "tape SPY AAPL", &mut slow, 65_536)?
        } else {
            offline(alloc, "tape SPY AAPL", &mut folder, 65_536)?
        };
        compare(alloc, input, &answer, wanted)?;
    }
    Ok(())
}

// The files that a case writes, where that call of the file of a name fails.
pub(crate) fn failing_folder(
    alloc: Global,
    files: &str,
    name: &str,
    call: &str,
) -> Result<MemFolder, Fail> {
    let mut fails = Vec::new(alloc);
    fails.push((path_of(alloc, name)?, call.parse()?))?;
    folder_of(alloc, files, fails)
}

// The sink takes 16 bytes at a time and fails at each of its writes in turn, of which there are `writes`.
pub(crate) fn check_writes(
    alloc: Global,
    words: &str,
    files: &str,
    whole: &str,
    writes: usize,
) -> Result<(), Fail>
    requires { writes < 100 }
{
    let words = words_of(alloc, words)?;
    for k in 1..writes + 1 {
        let mut fails = Vec::new(alloc);
        fails.push(k as u64)?;
        let mut folder = folder_of(alloc, files, Vec::new(alloc))?;
        let mut out = MemSink::new(alloc, 16, 65_536, fails)?;
        let status = lean_offline(alloc, &words, &mut folder, &mut out);
        let bytes = out.bytes();
        let count = bytes.len() / 16;
        if status != Status::WriteFault || !whole.as_bytes().starts_with(bytes) || count + 1 != k {
            Err(format!(in alloc; "write {k} of {whole}")?)?;
        }
    }
    Ok(())
}

const WHOLE: &str = "\
20131007 SPY 167.2000 168.0000 167.0000 167.5000 1
20131008 SPY 167.2000 168.0000 167.0000 167.5000 2
end 2 rows
";

#[test]
fn failing_writes(rt: HostRuntime) -> Result<(), Fail> {
    check_writes(
        rt.alloc(),
        "tape SPY",
        "daily/spy:20131007_00:00*1;20131008_00:00*2;",
        WHOLE,
        8,
    )
}
