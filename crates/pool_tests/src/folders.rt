//! Folders, hours, windows and keys as cases write them.
ghost use Rattle.std.specs.Prelude.{◌≤◌};
ghost use Rattle.lean_fixed.specs.Ranges.{IsMoment, IsWindow};

use exchange_hours::Hours;
use lean_fixed::{Day, Moment, Resolution, Symbol, Window};
use lean_io::MemFolder;
use lean_items::{FeedKey, FeedKind};
use std::alloc::{AllocError, Global};
use std::collections::BTreeMap;
use std::sync::Arc;
use std::test::Fail;

// 2013-09-30.
const BEFORE: i32 = 15_978;

// The text with each ' as a ".
fn quoted(alloc: Global, text: &str) -> Result<String, AllocError> {
    let mut out = String::new(alloc);
    for letter in text.chars() {
        out.push(if letter == '\'' { '"' } else { letter })?;
    }
    Ok(out)
}

// The text of an hours file: from an opening to a closing on each day from Monday to Friday, and then further members.
fn hours_file(alloc: Global, opens: &str, closes: &str, more: &str) -> Result<String, AllocError> {
    let day = format!(in alloc; "[{{'start':'{opens}','end':'{closes}','state':'market'}}]")?;
    let days = format!(in alloc;
        "'monday':{day},'tuesday':{day},'wednesday':{day},'thursday':{day},'friday':{day}{more}"
    )?;
    let file = format!(in alloc; "{{'entries':{{'Equity-usa-[*]':{{{days}}}}}}}")?;
    quoted(alloc, file.as_str())
}

fn file_of(alloc: Global, word: &str) -> Result<String, AllocError> {
    match word {
        "early" => hours_file(
            alloc,
            "09:30",
            "16:00",
            ",'earlyCloses':{'10/7/2013':'13:00:00'}",
        ),
        "holiday" => hours_file(alloc, "09:30", "16:00", ",'holidays':['10/8/2013']"),
        "night" => hours_file(alloc, "22:00", "24:00", ""),
        _ => hours_file(alloc, "09:30", "16:00", ""),
    }
}

// The hours of a word: `early` closes at 13:00 of 2013-10-07, `holiday` has one on 2013-10-08, `night` is from 22:00 to 24:00,
// and any other from 09:30 to 16:00.
fn hours_of(alloc: Global, word: &str) -> Result<Arc<Hours>, Fail> {
    let file = file_of(alloc, word)?;
    let hours = Hours::read(alloc, file.as_bytes())?;
    Ok(Arc::new(alloc, hours)?)
}

fn equity(symbol: &str, resolution: Resolution) -> Result<FeedKind, Fail> {
    let symbol = Symbol::read(symbol.as_bytes()).ok_or("a symbol")?;
    Ok(FeedKind::Equity(symbol, resolution))
}

/// What the feed of a word reads: `coarse`, or a symbol and a resolution as SPY.hour.
pub(crate) fn kind_of(word: &str) -> Result<FeedKind, Fail> {
    let Some((symbol, resolution)) = word.split_once('.') else {
        return Ok(FeedKind::Coarse);
    };
    match resolution {
        "minute" => equity(symbol, Resolution::Minute),
        "hour" => equity(symbol, Resolution::Hour),
        _ => equity(symbol, Resolution::Daily),
    }
}

/// The key of a feed from so many minutes behind 00:00 of a day of October 2013 on, or from a minute before it for the coarse
/// rows.
pub(crate) fn key_of(kind: FeedKind, first: u8, minutes: u16, fill: bool) -> FeedKey
    ensures { IsMoment result.start.0 }
{
    let start = start_of(&kind, first, minutes);
    FeedKey { kind, start, fill }
}

fn start_of(kind: &FeedKind, first: u8, minutes: u16) -> Moment
    ensures { IsMoment result.0 }
{
    let day = (BEFORE as u32 + first as u32) * 1_440;
    match kind {
        FeedKind::Coarse => moment_at(day - 1),
        FeedKind::Equity(_, _) => moment_at(day + minutes as u32),
    }
}

fn moment_at(minute: u32) -> Moment
    requires { minute ≤ 121_000_000 }
    ensures { IsMoment result.0 }
{
    Moment(minute as i64)
}

/// A feed as a case writes it: the word of the hours, that of what it reads, the first and the last day of the window, and the
/// minutes behind the first day's 00:00 from which on it gives.
#[derive(Drop)]
pub(crate) struct Case {
    pub(crate) hours: Arc<Hours>,
    kind: FeedKind,
    first: u8,
    last: u8,
    minutes: u16,
}

impl Case {
    pub(crate) fn read(alloc: Global, text: &str) -> Result<Case, Fail> {
        let mut words = text.split(' ');
        let hours = words.next().unwrap_or("");
        let kind = kind_of(words.next().unwrap_or(""))?;
        let first = words.next().unwrap_or("").parse()?;
        let last = words.next().unwrap_or("").parse()?;
        let minutes = words.next().unwrap_or("").parse()?;
        let hours = hours_of(alloc, hours)?;
        Ok(Case {
            hours,
            kind,
            first,
            last,
            minutes,
        })
    }

    pub(crate) fn window(&self) -> Window
        ensures { IsWindow result }
    {
        Window {
            first: Day(BEFORE + self.first as i32),
            last: Day(BEFORE + self.last as i32),
        }
    }

    pub(crate) fn key(&self, fill: bool) -> FeedKey
        ensures { IsMoment result.start.0 }
    {
        key_of(*&self.kind, self.first, self.minutes, fill)
    }
}

// The path of a name: SPY.hour, SPY.daily, the day of a minute file as SPY.07, or that of a coarse file as coarse.07.
fn path_of(alloc: Global, name: &str) -> Result<String, AllocError> {
    let (symbol, kind) = name.split_once('.').unwrap_or((name, ""));
    let symbol = lower(alloc, symbol)?;
    match kind {
        "hour" => format!(in alloc; "equity/usa/hour/{symbol}.csv"),
        "daily" => format!(in alloc; "equity/usa/daily/{symbol}.csv"),
        day if symbol.as_str() == "coarse" => {
            format!(in alloc; "equity/usa/fundamental/coarse/201310{day}.csv")
        }
        day => {
            format!(in alloc; "equity/usa/minute/{symbol}/201310{day}_{symbol}_minute_trade.csv")
        }
    }
}

fn lower(alloc: Global, text: &str) -> Result<String, AllocError> {
    let mut out = String::new(alloc);
    for byte in text.as_bytes() {
        out.push(char::from(byte.to_ascii_lowercase()))?;
    }
    Ok(out)
}

// The bytes of a text with each ; as an LF.
fn bytes_of(alloc: Global, text: &str) -> Result<Vec<u8>, AllocError> {
    let mut bytes = Vec::new(alloc);
    for byte in text.as_bytes() {
        bytes.push(if *byte == b';' { b'\n' } else { *byte })?;
    }
    Ok(bytes)
}

/// A folder of the files that a case writes, as `SPY.07:row;row; | SPY.08:row;`, of which call so many of one file fails.
pub(crate) fn folder_of(
    alloc: Global,
    files: &str,
    fails: &str,
    call: u64,
) -> Result<MemFolder, Fail> {
    let mut map = BTreeMap::new(alloc);
    for file in files.split(" | ") {
        let (name, text) = file.split_once(':').ok_or("no name")?;
        let _ = map.insert(path_of(alloc, name)?, bytes_of(alloc, text)?)?;
    }
    let mut calls = Vec::new(alloc);
    calls.push((path_of(alloc, fails)?, call))?;
    Ok(MemFolder::new(alloc, map, calls)?)
}

/// A case and, behind a comma, the folder of its files, of which none fails.
pub(crate) fn files_of_case(alloc: Global, input: &str) -> Result<(Case, MemFolder), Fail> {
    let (case, files) = input.split_once(", ").ok_or("no files")?;
    let case = Case::read(alloc, case)?;
    let folder = folder_of(alloc, files, "none", 0)?;
    Ok((case, folder))
}
