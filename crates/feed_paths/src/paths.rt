//! Where the files of a folder lie, after LEAN's folder layout.
ghost use Rattle.std.specs.Prelude.{◌≡◌, ◌+◌, ◌<◌, ◌≤◌, ◌++◌, true, length, OnOk, OnErr, string_bytes, string_len, string_capacity};
ghost use Rattle.std.specs.List.{list_all, flat_map};
ghost use Rattle.lean_fixed.specs.Calendar.{last_day};
ghost use Rattle.lean_fixed.specs.Printed.{day_text};
ghost use Rattle.lean_fixed.specs.Symbol.{is_symbol_byte};
ghost use Rattle.lean_items.specs.declared.feed_key.FeedKind.TheVariants.{Equity};
ghost use Rattle.feed_paths.specs.Paths.{path, path_of, lower, lower_case};
ghost use Rattle.feed_paths.specs.Parts.{part_text, has_text};

use crate::laws::paths_are_short;
use crate::part::Part;
use lean_fixed::laws::{day_reads_back, symbol_is_short};
use lean_fixed::{Day, NoMemory, Resolution, Symbol};
use lean_items::{FeedKey, FeedKind};

// No path has more bytes.
const MOST: usize = 80;

/// Appends the path of a feed's file, from the folder on. The number of the file is one that `next_file` gives: its day,
/// from 0 to 84,005, or 0 where the feed has one file. `NoMemory` comes only where the text has no room for 80 more bytes,
/// and leaves it as it was; no path is longer.
///
/// The paths are those of US equities in LEAN's "Data Format" topic, with the symbol in lower case.
pub fn path_text(key: FeedKey, file: u32, out: &mut String) -> Result<(), NoMemory>
    requires { file ≤ last_day }
    ensures ok { OnOk result (string_bytes out.new ≡ string_bytes out.old ++ path key file) }
    ensures err { OnErr result (string_bytes out.new ≡ string_bytes out.old) }
    ensures full { OnErr result (string_capacity out.old < string_len out.old + 80) }
    ensures capacity { string_capacity out.old ≤ string_capacity out.new }
{
    out.reserve(MOST)?;
    push_path(key.kind, file, out);
    Ok(())
}

// Appends the path of a kind's file.
fn push_path(kind: FeedKind, file: u32, out: &mut String)
    requires file { file ≤ last_day }
    requires room { string_len out.old + 80 ≤ string_capacity out.old }
    ensures bytes { string_bytes out.new ≡ string_bytes out.old ++ path_of kind file }
    ensures capacity { string_capacity out.old ≤ string_capacity out.new }
{
    paths_are_short();
    match kind {
        FeedKind::Coarse => push_parts(
            &[
                Part::Text("equity/usa/fundamental/coarse/"),
                Part::Date(file),
                Part::Text(".csv"),
            ],
            out,
        ),
        FeedKind::Equity(symbol, resolution) => push_equity(symbol, resolution, file, out),
    }
}

// Appends the path of a security's file.
fn push_equity(symbol: Symbol, resolution: Resolution, file: u32, out: &mut String)
    requires file { file ≤ last_day }
    requires room { string_len out.old + 80 ≤ string_capacity out.old }
    ensures bytes { string_bytes out.new
        ≡ string_bytes out.old ++ path_of (Equity symbol resolution) file }
    ensures capacity { string_capacity out.old ≤ string_capacity out.new }
{
    symbol_is_short(symbol);
    paths_are_short();
    match resolution {
        Resolution::Minute => push_parts(
            &[
                Part::Text("equity/usa/minute/"),
                Part::Name(symbol),
                Part::Text("/"),
                Part::Date(file),
                Part::Text("_"),
                Part::Name(symbol),
                Part::Text("_minute_trade.csv"),
            ],
            out,
        ),
        Resolution::Hour => push_parts(
            &[
                Part::Text("equity/usa/hour/"),
                Part::Name(symbol),
                Part::Text(".csv"),
            ],
            out,
        ),
        Resolution::Daily => push_parts(
            &[
                Part::Text("equity/usa/daily/"),
                Part::Name(symbol),
                Part::Text(".csv"),
            ],
            out,
        ),
    }
}

// Appends parts, one after the other.
fn push_parts(parts: &[Part], out: &mut String)
    requires told { list_all has_text parts.now ≡ true }
    requires room { string_len out.old + length (flat_map part_text parts.now)
        ≤ string_capacity out.old }
    ensures bytes { string_bytes out.new ≡ string_bytes out.old ++ flat_map part_text parts.now }
    ensures capacity { string_capacity out.old ≤ string_capacity out.new }
{
    for part in parts {
        push_part(part, out);
    }
}

fn push_part(part: &Part, out: &mut String)
    requires told { has_text part.now ≡ true }
    requires room { string_len out.old + length (part_text part.now) ≤ string_capacity out.old }
    ensures bytes { string_bytes out.new ≡ string_bytes out.old ++ part_text part.now }
    ensures capacity { string_capacity out.old ≤ string_capacity out.new }
{
    match part {
        Part::Text(text) => out.push_str(text).unwrap(),
        Part::Name(symbol) => push_lower(symbol, out),
        Part::Date(day) => push_day(*day, out),
    }
}

fn push_lower(symbol: &Symbol, out: &mut String)
    requires { string_len out.old + length symbol.now ≤ string_capacity out.old }
    ensures bytes { string_bytes out.new ≡ string_bytes out.old ++ lower symbol.now }
    ensures capacity { string_capacity out.old ≤ string_capacity out.new }
{
    symbol_is_short(*symbol);
    for byte in symbol.bytes() {
        out.push(lower_case(*byte)).unwrap();
    }
}

fn lower_case(byte: u8) -> char
    requires { is_symbol_byte byte ≡ true }
    ensures value { result ≡ lower_case byte }
    ensures ascii { result < 128 }
{
    byte.to_ascii_lowercase() as char
}

fn push_day(day: u32, out: &mut String)
    requires day { day ≤ last_day }
    requires room { string_len out.old + length (day_text day) ≤ string_capacity out.old }
    ensures bytes { string_bytes out.new ≡ string_bytes out.old ++ day_text day }
    ensures capacity { string_capacity out.old ≤ string_capacity out.new }
{
    day_reads_back();
    for digit in Day(day as i32).digits() {
        out.push(digit as char).unwrap();
    }
}
