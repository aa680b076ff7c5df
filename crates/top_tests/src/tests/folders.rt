//! The files of a folder in memory.

use std::alloc::Global;
use std::collections::BTreeMap;
use std::fmt::Write;
use std::test::Fail;
use test_words::HOURS;
use test_words::plans::file_of;

/// A plan in short and the usual hours.
pub fn begun(alloc: Global, plan: &str) -> Result<BTreeMap<String, Vec<u8>>, Fail> {
    let mut files = BTreeMap::new(alloc);
    add(alloc, &mut files, "a.toml", &file_of(alloc, plan)?)?;
    add(
        alloc,
        &mut files,
        "market-hours/market-hours-database.json",
        HOURS,
    )?;
    Ok(files)
}

/// Adds a file.
pub fn add(
    alloc: Global,
    files: &mut BTreeMap<String, Vec<u8>>,
    path: &str,
    text: &str,
) -> Result<(), Fail> {
    let path = String::from_str(alloc, path)?;
    let mut bytes = Vec::new(alloc);
    bytes.extend_from_slice(text.as_bytes())?;
    let _ = files.insert(path, bytes)?;
    Ok(())
}

/// The path of the minutes of a security on a date, or of the coarse file of a date, as `spy/20131007` and `coarse/20131007`.
pub fn path_of(alloc: Global, name: &str) -> Result<String, Fail> {
    let (folder, date) = name.split_once('/').ok_or("no date")?;
    let mut path = String::from_str(alloc, "equity/usa/")?;
    match folder {
        "coarse" => write!(path, "fundamental/coarse/{date}.csv")?,
        _ => write!(path, "minute/{folder}/{date}_{folder}_minute_trade.csv")?,
    }
    Ok(path)
}
