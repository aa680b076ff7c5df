//! The files of a made folder.
ghost use Rattle.std.specs.Prelude.{◌≡◌, ℕ, ◌+◌, ◌<◌, ◌≤◌, List, ◌∷◌, ◌++◌, take, drop, filter, OnOk, IfOk, string_bytes};
ghost use Rattle.std.specs.List.{flat_map};
ghost use Rattle.lean_fixed.specs.Calendar.{last_day};
ghost use Rattle.lean_fixed.specs.declared.resolution.Resolution.TheVariants.{Minute};
ghost use Rattle.lean_items.specs.declared.feed_key.FeedKind.TheVariants.{Equity};
ghost use Rattle.lean_io.specs.MemFolder.{map_files};
ghost use Rattle.feed_paths.specs.Paths.{path_of};
ghost use Rattle.equity_csv.specs.Written.{IsRow};
ghost use Rattle.data_maker.specs.Walk.{walked};
ghost use Rattle.data_maker.specs.Texts.{securities};
ghost use Rattle.data_maker.specs.MadeFiles.{with_file, with_files, with_days, files_of, is_workday, minutes, row_line, security_files, hours_path, plan_path, made_files};
ghost use Rattle.data_maker.specs.MadeState.{told};

use crate::made_folder::MadeFolder;
use crate::texts::{SECURITIES, hours_bytes, plan_bytes, symbol_of};
use crate::walk::Walk;
use equity_csv::{Row, write_minute};
use feed_paths::path_text;
use lean_fixed::{Day, Moment, NoMemory, Resolution, Symbol};
use lean_io::MemFolder;
use lean_items::{FeedKey, FeedKind};
use std::alloc::Global;
use std::collections::BTreeMap;

// Where the hours file and the algorithm file lie.
const HOURS_PATH: &str = "market-hours/market-hours-database.json";

const PLAN_PATH: &str = "demo.toml";

// The days of the rows, as days since 1970-01-01: from 2013-10-07 to 2013-10-18, but for the weekend.
const FIRST_DAY: u32 = 15_985;

const END_DAY: u32 = 15_997;

// The minutes of a day that have a row: from 09:30 to 15:59.
const FIRST_MINUTE: u64 = 570;

const END_MINUTE: u64 = 960;

const MINUTES_PER_DAY: u64 = 1_440;

// Room for the rows of a day, of at most 45 bytes each.
const ROOM: usize = 17_550;

// What holds the files until the folder is made.
type FileMap = BTreeMap<String, Vec<u8>>;

/// Makes the folder of a number from 0 to 999,999: an hours file, a minute file for each of sixteen securities on each of ten
/// days, 62,400 rows in all, and an algorithm file over them, `demo.toml`. The prices are a random walk that the number
/// seeds. `NoMemory`: there is no memory for the files, which are under 4 MB.
pub fn make(alloc: Global, number: u64) -> Result<MadeFolder, NoMemory>
    requires { number ≤ 999999 }
    ensures files { IfOk result (λ folder. told folder ≡ files_of (made_files number)) }
    ensures hands { IfOk result (λ folder. folder.hands ≡ 0) }
{
    let mut files = BTreeMap::new(alloc);
    put(&mut files, hours_path(alloc)?, hours_bytes(alloc)?)?;
    put_securities(alloc, number, &mut files)?;
    put(&mut files, plan_path(alloc)?, plan_bytes(alloc)?)?;
    let folder = MadeFolder::of(alloc, files)?;
    Ok(folder)
}

fn hours_path(alloc: Global) -> Result<String, NoMemory>
    ensures { IfOk result (λ path. string_bytes path ≡ hours_path) }
{
    Ok(String::from_str(alloc, HOURS_PATH)?)
}

fn plan_path(alloc: Global) -> Result<String, NoMemory>
    ensures { IfOk result (λ path. string_bytes path ≡ plan_path) }
{
    Ok(String::from_str(alloc, PLAN_PATH)?)
}

// The minute files of all securities.
#[tactic(auto, unfolding(crate::specs::Texts::securities))]
fn put_securities(alloc: Global, number: u64, files: &mut FileMap) -> Result<(), NoMemory>
    requires { number ≤ 999999 }
    ensures { OnOk result (map_files files.new
        ≡ with_files (map_files files.old) (flat_map (security_files number) securities)) }
{
    for security in 0..SECURITIES {
        put_security(alloc, number, security, files)?;
    }
    Ok(())
}

// The minute files of a security.
fn put_security(
    alloc: Global,
    number: u64,
    security: u64,
    files: &mut FileMap,
) -> Result<(), NoMemory>
    requires number { number ≤ 999999 }
    requires security { security < 16 }
    ensures { OnOk result (map_files files.new
        ≡ with_files (map_files files.old) (security_files number security)) }
{
    let symbol = symbol_of(security);
    let mut walk = Walk::new(number, security);
    for day in FIRST_DAY..END_DAY {
        pass_day(alloc, symbol, day, &mut walk, files)?;
    }
    Ok(())
}

// The minute file of a day that is no weekend.
fn pass_day(
    alloc: Global,
    symbol: Symbol,
    day: u32,
    walk: &mut Walk,
    files: &mut FileMap,
) -> Result<(), NoMemory>
    requires day { day ≤ last_day }
    requires range { walk.old.random < 2147483648 }
    requires least { 10000 ≤ walk.old.price }
    requires most { walk.old.price ≤ 100000000 }
    ensures files { OnOk result ((later : List ℕ)
        → with_days (map_files files.new) symbol walk.new.random walk.new.price (filter is_workday later)
        ≡ with_days (map_files files.old) symbol walk.old.random walk.old.price (filter is_workday (day ∷ later))) }
    ensures range { OnOk result (walk.new.random < 2147483648) }
    ensures least { OnOk result (10000 ≤ walk.new.price) }
    ensures most { OnOk result (walk.new.price ≤ walk.old.price + 390000) }
{
    if is_workday(day) {
        put_day(alloc, symbol, day, walk, files)?;
        return Ok(());
    }
    Ok(())
}

fn is_workday(day: u32) -> bool
    requires { day ≤ last_day }
    ensures { result ≡ is_workday day }
{
    let weekday = Day(day as i32).weekday();
    1 <= weekday && weekday <= 5
}

// The minute file of a day.
fn put_day(
    alloc: Global,
    symbol: Symbol,
    day: u32,
    walk: &mut Walk,
    files: &mut FileMap,
) -> Result<(), NoMemory>
    requires day { day ≤ last_day }
    requires range { walk.old.random < 2147483648 }
    requires least { 10000 ≤ walk.old.price }
    requires most { walk.old.price ≤ 100000000 }
    ensures files { OnOk result ((later : List ℕ)
        → with_days (map_files files.new) symbol walk.new.random walk.new.price later
        ≡ with_days (map_files files.old) symbol walk.old.random walk.old.price (day ∷ later)) }
    ensures range { OnOk result (walk.new.random < 2147483648) }
    ensures least { OnOk result (10000 ≤ walk.new.price) }
    ensures most { OnOk result (walk.new.price ≤ walk.old.price + 390000) }
{
    let bytes = day_bytes(alloc, day, walk)?;
    let path = minute_path(alloc, symbol, day)?;
    put(files, path, bytes)?;
    Ok(())
}

// The lines of the rows of a day.
fn day_bytes(alloc: Global, day: u32, walk: &mut Walk) -> Result<Vec<u8>, NoMemory>
    requires day { day ≤ last_day }
    requires range { walk.old.random < 2147483648 }
    requires least { 10000 ≤ walk.old.price }
    requires most { walk.old.price ≤ 100000000 }
    ensures bytes { IfOk result (λ bytes. (later : List ℕ) → bytes.items
        ≡ flat_map row_line (take 390 (walked walk.old.random walk.old.price (minutes day ++ later)))) }
    ensures left { OnOk result ((later : List ℕ) → walked walk.new.random walk.new.price later
        ≡ drop 390 (walked walk.old.random walk.old.price (minutes day ++ later))) }
    ensures range { OnOk result (walk.new.random < 2147483648) }
    ensures least { OnOk result (10000 ≤ walk.new.price) }
    ensures most { OnOk result (walk.new.price ≤ walk.old.price + 390000) }
{
    let midnight = MINUTES_PER_DAY * day as u64;
    let mut out = Vec::with_capacity(alloc, ROOM)?;
    for minute in FIRST_MINUTE..END_MINUTE {
        let row = walk.next_row(midnight + minute);
        append_row(&row, &mut out)?;
    }
    Ok(out)
}

// The line of a row.
#[tactic(auto, unfolding(crate::specs::MadeFiles::row_line))]
fn append_row(row: &Row, out: &mut Vec<u8>) -> Result<(), NoMemory>
    requires { IsRow row.now }
    ensures { OnOk result (out.new.items ≡ out.old.items ++ row_line row.now) }
{
    write_minute(row, out)
}

// The path of the minute file of a day.
fn minute_path(alloc: Global, symbol: Symbol, day: u32) -> Result<String, NoMemory>
    requires { day ≤ last_day }
    ensures { IfOk result (λ path. string_bytes path ≡ path_of (Equity symbol Minute) day) }
{
    let mut path = String::new(alloc);
    let key = FeedKey {
        kind: FeedKind::Equity(symbol, Resolution::Minute),
        start: Moment(0),
        fill: true,
    };
    path_text(key, day, &mut path)?;
    Ok(path)
}

// Puts a file at a path.
fn put(files: &mut FileMap, path: String, bytes: Vec<u8>) -> Result<(), NoMemory>
    ensures { OnOk result (map_files files.new
        ≡ with_file (map_files files.old) (record { path = string_bytes path; bytes = bytes.items })) }
{
    let _ = files.insert(path, bytes)?;
    Ok(())
}
