//! Runs of a backtest over files and into a sink in memory that fail at a call.
ghost use Rattle.std.specs.Prelude.{◌≤◌};

use crate::tests::folders::path_of;
use lean_io::{Folder, MemFolder, MemSink};
use lean_top::{Status, lean_offline};
use std::alloc::Global;
use std::collections::BTreeMap;
use std::fmt::Write;
use std::test::Fail;

/// The status of a backtest where that call of the file of a name fails, and how much of the report was printed. The opening is
/// call 0.
pub fn with_failing_call(
    alloc: Global,
    files: BTreeMap<String, Vec<u8>>,
    name: &str,
    call: u64,
    report: &str,
) -> Result<String, Fail> {
    let mut fails = Vec::new(alloc);
    fails.push((path_of(alloc, name)?, call))?;
    let mut folder = MemFolder::new(alloc, files, fails)?;
    let mut out = MemSink::new(alloc, 65_536, 65_536, Vec::new(alloc))?;
    let status = offline(alloc, "backtest a.toml", &mut folder, &mut out)?;
    let printed = moments_in(alloc, report, out.bytes())?;
    Ok(format!(in alloc; "{} {printed}", status.code())?)
}

/// The status of a backtest where that write fails, of 16 bytes at most, and how much of the report was printed. The first write
/// is write 1.
pub fn with_failing_write(
    alloc: Global,
    files: BTreeMap<String, Vec<u8>>,
    write: usize,
    report: &str,
) -> Result<String, Fail>
    requires { 1 ≤ write }
{
    let mut fails = Vec::new(alloc);
    fails.push(write as u64)?;
    let mut folder = MemFolder::new(alloc, files, Vec::new(alloc))?;
    let mut out = MemSink::new(alloc, 16, 65_536, fails)?;
    let status = offline(alloc, "backtest a.toml", &mut folder, &mut out)?;
    let printed = front_of(alloc, report, out.bytes(), write - 1)?;
    Ok(format!(in alloc; "{} {printed}", status.code())?)
}

/// Runs a command line.
pub fn offline<F: Folder>(
    alloc: Global,
    words: &str,
    folder: &mut F,
    out: &mut MemSink,
) -> Result<Status, Fail> {
    let mut all = Vec::new(alloc);
    for word in words.split(' ') {
        all.push(String::from_str(alloc, word)?)?;
    }
    Ok(lean_offline(alloc, &all, folder, out))
}

// The number of moments of whose lines the bytes are all, or `whole`. A blank line of the report parts its moments, and the summary
// stands behind the last one.
fn moments_in(alloc: Global, report: &str, bytes: &[u8]) -> Result<String, Fail> {
    let mut front = String::new(alloc);
    for (moments, lines) in report.split("\n\n").enumerate() {
        if front.as_bytes() == bytes {
            return Ok(format!(in alloc; "{moments}")?);
        }
        front.push_str(lines)?;
        front.push('\n')?;
    }
    match front.as_bytes() == bytes {
        true => Ok(String::from_str(alloc, "whole")?),
        false => Ok(String::from_str(alloc, "other bytes")?),
    }
}

// `whole` where the bytes are the report, and `front` where they are its first ones, of so many writes.
fn front_of(
    alloc: Global,
    report: &str,
    bytes: &[u8],
    writes: usize,
) -> Result<&'static str, Fail> {
    let mut whole = String::new(alloc);
    for lines in report.split("\n\n") {
        whole.push_str(lines)?;
        whole.push('\n')?;
    }
    if whole.as_bytes() == bytes {
        return Ok("whole");
    }
    let least = bytes.len().div_ceil(16);
    match whole.as_bytes().starts_with(bytes) && least <= writes && writes <= bytes.len() {
        true => Ok("front"),
        false => Ok("other bytes"),
    }
}

/// Appends an answer, unless it is the last one.
pub fn add_other(told: &mut String, answer: &str) -> Result<(), Fail> {
    if told.ends_with(answer) {
        return Ok(());
    }
    if !told.is_empty() {
        told.push_str(", ")?;
    }
    told.push_str(answer)?;
    Ok(())
}
