//! The lines of a tape, each written behind a place of a page.
ghost use Rattle.std.specs.Prelude.{◌≡◌, ◌+◌, ◌≤◌, ◌∷◌, [], length, decimal, unsigned_abs, codes, IfOk, string_bytes};
ghost use Rattle.lean_fixed.specs.Calendar.{last_day};
ghost use Rattle.lean_fixed.specs.Printed.{money_text};
ghost use Rattle.lean_items.specs.Reasons.{reason_text};
ghost use Rattle.feed_paths.specs.Paths.{path_of};
ghost use Rattle.report_pages.specs.Lines.{part, row_line, end_line, data_line_of};
ghost use Rattle.report_pages.specs.Written.{IsAdded};

use crate::trades::Trades;
use feed_paths::laws::paths_are_short;
use feed_paths::path_text;
use lean_fixed::laws::symbol_is_short;
use lean_fixed::ranges::LAST_DAY;
use lean_fixed::writing::{put_number, put_price, put_text};
use lean_fixed::{Moment, NoMemory, Price, Symbol};
use lean_items::{Bad, FeedKey, FeedKind, Reason};
use std::alloc::Global;

// Writes the line of a row behind its front, and gives the place behind it.
pub(crate) fn write_row(
    front: &[u8],
    symbol: &Symbol,
    trades: &Trades,
    line: &mut [u8],
    place: usize,
) -> usize
    requires front { length front.now ≤ 16 }
    requires room { place + 140 ≤ length line.old }
    ensures added { IsAdded (row_line front.now symbol.now trades.now) place line.old line.new result }
    ensures most { result ≤ place + 140 }
{
    let at = write_front(front, line, place);
    let at = write_symbol(symbol, line, at);
    let at = write_price(trades.opening, line, at);
    let at = write_price(trades.high, line, at);
    let at = write_price(trades.low, line, at);
    let at = write_price(trades.closing, line, at);
    let at = write_number(volume_of(trades), line, at);
    write_byte(b'\n', line, at)
}

// Writes the front of a line. The copy of a length that is known needs no call: a day has eight bytes, and a moment fourteen.
#[inline(always)]
fn write_front(front: &[u8], line: &mut [u8], place: usize) -> usize
    requires { place + length front.now ≤ length line.old }
    ensures { IsAdded front.now place line.old line.new result }
{
    match front.len() {
        8 => put_text(front, line, place),
        14 => put_text(front, line, place),
        _ => put_text(front, line, place),
    }
}

// Writes a space and a symbol.
#[inline(always)]
fn write_symbol(symbol: &Symbol, line: &mut [u8], place: usize) -> usize
    requires { place + 13 ≤ length line.old }
    ensures added { IsAdded (part symbol.now) place line.old line.new result }
    ensures most { result ≤ place + 13 }
{
    let at = write_byte(b' ', line, place);
    symbol.put(line, at)
}

// Writes a space and a price.
#[inline(always)]
fn write_price(price: Price, line: &mut [u8], place: usize) -> usize
    requires { place + 22 ≤ length line.old }
    ensures added { IsAdded (part (money_text price.0)) place line.old line.new result }
    ensures most { result ≤ place + 22 }
{
    let at = write_byte(b' ', line, place);
    put_price(price, line, at)
}

// Writes a space and a number.
#[inline(always)]
fn write_number(number: u64, line: &mut [u8], place: usize) -> usize
    requires { place + 21 ≤ length line.old }
    ensures added { IsAdded (part (decimal number)) place line.old line.new result }
    ensures most { result ≤ place + 21 }
{
    let at = write_byte(b' ', line, place);
    put_number(number, line, at)
}

// Writes a byte.
#[inline(always)]
fn write_byte(byte: u8, line: &mut [u8], place: usize) -> usize
    requires { place + 1 ≤ length line.old }
    ensures added { IsAdded (byte ∷ []) place line.old line.new result }
    ensures next { result ≡ place + 1 }
{
    line[place] = byte;
    place + 1
}

// Writes the line that counts the rows.
pub(crate) fn write_end(rows: u64, line: &mut [u8], place: usize) -> usize
    requires { place + 32 ≤ length line.old }
    ensures added { IsAdded (end_line rows) place line.old line.new result }
    ensures most { result ≤ place + 32 }
{
    let at = put_text(b"end ", line, place);
    let at = put_number(rows, line, at);
    put_text(b" rows\n", line, at)
}

// Writes the line that names a malformed line of the file at a path.
pub(crate) fn write_refusal(path: &[u8], bad: &Bad, line: &mut [u8], place: usize) -> usize
    requires path { length path.now ≤ 80 }
    requires room { place + 140 ≤ length line.old }
    ensures added { IsAdded (data_line_of path.now bad.now) place line.old line.new result }
    ensures most { result ≤ place + 140 }
{
    let at = put_text(b"data ", line, place);
    let at = put_text(path, line, at);
    let at = put_text(b" line ", line, at);
    let at = put_number(bad.line as u64, line, at);
    let at = write_reason(bad.reason, line, at);
    write_byte(b'\n', line, at)
}

// Writes a space and the word of a reason.
fn write_reason(reason: Reason, line: &mut [u8], place: usize) -> usize
    requires { place + 7 ≤ length line.old }
    ensures added { IsAdded (part (reason_text reason)) place line.old line.new result }
    ensures most { result ≤ place + 7 }
{
    let at = write_byte(b' ', line, place);
    put_text(reason.word().as_bytes(), line, at)
}

// The path of a file of a feed. It has at most 80 bytes.
pub(crate) fn path_at(alloc: Global, kind: FeedKind, file: u32) -> Result<String, NoMemory>
    ensures path { IfOk result (λ path. file ≤ last_day → string_bytes path ≡ path_of kind file) }
    ensures short { IfOk result (λ path. length (string_bytes path) ≤ 80) }
{
    paths_are_short();
    let mut path = String::new(alloc);
    path_text(key_of(kind), file.min(LAST_DAY as u32), &mut path)?;
    Ok(path)
}

// A key of that kind. Where a feed starts does not change its paths.
fn key_of(kind: FeedKind) -> FeedKey
    ensures { result.kind ≡ kind }
{
    FeedKey {
        kind,
        start: Moment(0),
        fill: false,
    }
}

fn volume_of(trades: &Trades) -> u64
    ensures { result ≡ unsigned_abs trades.now.volume.0 }
{
    trades.volume.0.unsigned_abs()
}
