//! The words of a backtest, as the command line reads them and as a simple command of `clap` does.

use crate::tests::folders::add;
use crate::tests::running::offline;
use clap::{Arg, Command, value_parser};
use lean_io::{MemFolder, MemSink};
use std::alloc::Global;
use std::collections::BTreeMap;
use std::str;
use std::test::Fail;
use test_cases::cases::{check, compare, parts_of};

// The words behind `backtest`, and the path and the number of workers that they are.
const WORDS: &str = "\
a.toml = a.toml, 0 workers
a.toml --workers 8 = a.toml, 8 workers
--workers=8 a.toml = a.toml, 8 workers
";

// What `clap` finds with one positional argument and one option.
fn found_by_clap(alloc: Global, words: &str) -> Result<String, Fail> {
    let mut all = Vec::new(alloc);
    all.push("backtest")?;
    for word in words.split(' ') {
        all.push(word)?;
    }
    let path = Arg::new(alloc, "path").required(true);
    let workers = Arg::new(alloc, "workers")
        .long("workers")
        .value_parser(value_parser!(u32))
        .default_value("0");
    let command = Command::new(alloc, "backtest").arg(path)?.arg(workers)?;
    let matches = command.try_get_matches_from(all.as_slice())?;
    let path = matches.get_str("path").ok_or("no path")?;
    let workers = matches.get_one::<u32>("workers").ok_or("no workers")?;
    Ok(format!(in alloc; "{path}, {workers} workers")?)
}

// What the command line prints where an empty algorithm file stands at that path alone.
fn printed_with(alloc: Global, words: &str, path: &str) -> Result<String, Fail> {
    let words = format!(in alloc; "backtest {words}")?;
    let mut files = BTreeMap::new(alloc);
    add(alloc, &mut files, path, "")?;
    let mut folder = MemFolder::new(alloc, files, Vec::new(alloc))?;
    let mut out = MemSink::new(alloc, 65_536, 65_536, Vec::new(alloc))?;
    let _ = offline(alloc, &words, &mut folder, &mut out)?;
    Ok(String::from_str(alloc, str::from_utf8(out.bytes())?)?)
}

// The file at the path that `clap` finds is the one that is read: without it a line says that it is missing.
#[test]
fn words_agree(rt: HostRuntime) -> Result<(), Fail> {
    let alloc = rt.alloc();
    check(alloc, WORDS, found_by_clap)?;
    for case in WORDS.lines() {
        let (words, found) = parts_of(case)?;
        let (path, _) = found.split_once(',').ok_or("no path")?;
        let printed = printed_with(alloc, words, path)?;
        compare(alloc, words, &printed, "algorithm missing start\n")?;
    }
    Ok(())
}
