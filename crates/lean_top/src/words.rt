//! The words of a command line, read by hand.
ghost use Rattle.std.specs.Prelude.{◌≡◌, ◌<◌, ◌≤◌, ◌&&◌, codes, if◌then◌else◌, None, Some, unsigned_abs, IfOk, IfSome, map, length, option_map, string_bytes};
ghost use Rattle.std.specs.List.{list_all};
ghost use Rattle.lean_fixed.specs.Calendar.{last_day};
ghost use Rattle.lean_fixed.specs.Ranges.{IsDay};
ghost use Rattle.lean_fixed.specs.Symbol.{is_symbol};
ghost use Rattle.lean_top.specs.Asked.{asked_by, IsAsked, IsInOrder};
ghost use Rattle.lean_top.specs.Command.{command, all_differ, symbols_of, resolution_of, window_day, window_from, window_of, session_words, tape_words, is_plain, workers_of, workers_in, workers_by, with_number, word_and_workers, or_else, backtest_words, demo_words, demo_number};

use lean_fixed::ranges::LAST_DAY;
use lean_fixed::{Day, NoMemory, Resolution, Symbol, Window, read_digits};
use std::alloc::Global;

/// The most symbols of a tape.
const MOST_SYMBOLS: usize = 64;

/// The most workers of a backtest.
const MOST_WORKERS: u64 = 64;

/// The most digits of the number of a demo.
const MOST_DIGITS: usize = 6;

/// What the words ask for.
#[derive(Drop)]
pub enum Command {
    /// The daily tape of these symbols.
    DailyTape(Vec<Symbol>),
    /// The session tape of bars of a resolution, over a window, of these symbols.
    SessionTape(Resolution, Window, Vec<Symbol>),
    /// The backtest of the algorithm file at this path, with so many workers.
    Backtest(String, u32),
    /// The demo of this number, with so many workers.
    Demo(u64, u32),
}

/// What the words ask for. `None` exactly where they are none that are taken.
pub fn read_words(alloc: Global, words: &[String]) -> Result<Option<Command>, NoMemory>
    ensures asked { IfOk result
        (λ found. option_map asked_by found ≡ command (map string_bytes words.now)) }
    ensures few { IfOk result (λ found. IfSome found IsAsked) }
{
    let Some((name, rest)) = words.split_first() else {
        return Ok(None);
    };
    if name.as_str() == "tape" {
        return read_tape(alloc, rest);
    }
    if name.as_str() == "backtest" {
        return read_backtest(alloc, rest);
    }
    if name.as_str() == "demo" {
        return Ok(read_demo(rest));
    }
    Ok(None)
}

// What `tape` and these words ask for.
fn read_tape(alloc: Global, words: &[String]) -> Result<Option<Command>, NoMemory>
    ensures asked { IfOk result
        (λ found. option_map asked_by found ≡ tape_words (map string_bytes words.now)) }
    ensures few { IfOk result (λ found. IfSome found IsAsked) }
{
    match read_symbols(alloc, words) {
        Ok(Some(symbols)) => Ok(Some(Command::DailyTape(symbols))),
        Ok(None) => read_session(alloc, words),
        Err(NoMemory) => Err(NoMemory),
    }
}

// What `RES FIRST LAST SYMBOL ..` asks for.
fn read_session(alloc: Global, words: &[String]) -> Result<Option<Command>, NoMemory>
    ensures asked { IfOk result
        (λ found. option_map asked_by found ≡ session_words (map string_bytes words.now)) }
    ensures few { IfOk result (λ found. IfSome found IsAsked) }
{
    let Some((resolution, rest)) = words.split_first() else {
        return Ok(None);
    };
    let Some((first, rest)) = rest.split_first() else {
        return Ok(None);
    };
    let Some((last, symbols)) = rest.split_first() else {
        return Ok(None);
    };
    let Some(resolution) = read_resolution(resolution.as_bytes()) else {
        return Ok(None);
    };
    let Some(window) = read_window(first.as_bytes(), last.as_bytes()) else {
        return Ok(None);
    };
    match read_symbols(alloc, symbols) {
        Ok(Some(symbols)) => Ok(Some(Command::SessionTape(resolution, window, symbols))),
        Ok(None) => Ok(None),
        Err(NoMemory) => Err(NoMemory),
    }
}

// The resolution that a word names.
fn read_resolution(word: &[u8]) -> Option<Resolution>
    ensures { result ≡ resolution_of word.now }
{
    if word == b"minute".as_slice() {
        return Some(Resolution::Minute);
    }
    if word == b"hour".as_slice() {
        return Some(Resolution::Hour);
    }
    if word == b"daily".as_slice() {
        return Some(Resolution::Daily);
    }
    None
}

// The window from one day to another, which does not lie before it.
fn read_window(first: &[u8], last: &[u8]) -> Option<Window>
    ensures value { result ≡ window_of (window_day first.now) (window_day last.now) }
    ensures range { IfSome result IsInOrder }
{
    let Some(first) = read_window_day(first) else {
        return None;
    };
    let Some(last) = read_window_day(last) else {
        return None;
    };
    if last < first {
        return None;
    }
    Some(window_from(first, last))
}

// A day from 19700102 to 21991230, as days since 1970-01-01.
fn read_window_day(word: &[u8]) -> Option<u32>
    ensures value { result ≡ window_day word.now }
    ensures range { IfSome result (λ day. (1 ≤ day) × (day < last_day)) }
{
    let Some(day) = Day::read(word) else {
        return None;
    };
    let number = number_of(day);
    if number < 1 {
        return None;
    }
    if number >= LAST_DAY as u32 {
        return None;
    }
    Some(number)
}

fn number_of(day: Day) -> u32
    requires { IsDay day.0 }
    ensures { result ≡ unsigned_abs day.0 }
{
    day.0.unsigned_abs()
}

fn window_from(first: u32, last: u32) -> Window
    requires first { (1 ≤ first) × (first < last_day) }
    requires last { (first ≤ last) × (last < last_day) }
    ensures value { result ≡ window_from first last }
    ensures range { IsInOrder result }
{
    Window {
        first: Day(first as i32),
        last: Day(last as i32),
    }
}

// 1 to 64 different symbols. `None` exactly where the words are others.
fn read_symbols(alloc: Global, words: &[String]) -> Result<Option<Vec<Symbol>>, NoMemory>
    ensures symbols { IfOk result (λ symbols. option_map (λ v. v.items) symbols
        ≡ symbols_of (map string_bytes words.now)) }
    ensures few { IfOk result (λ symbols. IfSome symbols (λ v. length v.items ≤ 64)) }
{
    if words.is_empty() || words.len() > MOST_SYMBOLS {
        return Ok(None);
    }
    read_different(alloc, words)
}

// The symbols that the words are. `None` exactly where one is no symbol, or stands twice.
fn read_different(alloc: Global, words: &[String]) -> Result<Option<Vec<Symbol>>, NoMemory>
    ensures { IfOk result (λ symbols. option_map (λ v. v.items) symbols
        ≡ (let texts = map string_bytes words.now in if list_all is_symbol texts && all_differ texts then Some texts else None)) }
{
    let mut symbols = Vec::with_capacity(alloc, words.len())?;
    for word in words {
        let Some(symbol) = Symbol::read(word.as_bytes()) else {
            return Ok(None);
        };
        if symbols.contains(&symbol) {
            return Ok(None);
        }
        symbols.push(symbol)?;
    }
    Ok(Some(symbols))
}

// What `backtest` and these words ask for.
fn read_backtest(alloc: Global, words: &[String]) -> Result<Option<Command>, NoMemory>
    ensures asked { IfOk result
        (λ found. option_map asked_by found ≡ backtest_words (map string_bytes words.now)) }
    ensures few { IfOk result (λ found. IfSome found IsAsked) }
{
    let Some(found) = read_word_and_workers(words) else {
        return Ok(None);
    };
    let path = String::from_str(alloc, found.0)?;
    Ok(Some(Command::Backtest(path, found.1)))
}

// What `demo` and these words ask for.
fn read_demo(words: &[String]) -> Option<Command>
    ensures asked { option_map asked_by result ≡ demo_words (map string_bytes words.now) }
    ensures few { IfSome result IsAsked }
{
    let Some(found) = read_word_and_workers(words) else {
        return None;
    };
    let Some(number) = read_number(found.0.as_bytes()) else {
        return None;
    };
    Some(Command::Demo(number, found.1))
}

// The number that one to six digits say.
fn read_number(text: &[u8]) -> Option<u64>
    ensures value { result ≡ demo_number text.now }
    ensures few { IfSome result (λ number. number ≤ 999999) }
{
    if text.len() > MOST_DIGITS {
        return None;
    }
    read_digits(text)
}

// A plain word, and the number of workers where `--workers=K` or `--workers K` stands in front of it or behind it, or else 0.
fn read_word_and_workers(words: &[String]) -> Option<(&str, u32)>
    ensures value { option_map (λ found. (found.0.now, found.1)) result ≡ word_and_workers (map string_bytes words.now) }
    ensures few { IfSome result (λ found. found.1 ≤ 64) }
{
    match words {
        [word] => plain_with(word.as_str(), Some(0)),
        [first, second] => read_two(first.as_str(), second.as_str()),
        [first, second, third] => read_three(first.as_str(), second.as_str(), third.as_str()),
        [] => None,
        [_, _, _, _, ..] => None,
    }
}

// `PATH --workers=K` or `--workers=K PATH`.
fn read_two<'w>(first: &'w str, second: &'w str) -> Option<(&'w str, u32)>
    ensures value { option_map (λ found. (found.0.now, found.1)) result
        ≡ or_else (with_number first.now (workers_in second.now)) (with_number second.now (workers_in first.now)) }
    ensures few { IfSome result (λ found. found.1 ≤ 64) }
{
    match plain_with(first, read_workers_in(second.as_bytes())) {
        Some(found) => Some(found),
        None => plain_with(second, read_workers_in(first.as_bytes())),
    }
}

// `PATH --workers K` or `--workers K PATH`.
fn read_three<'w>(first: &'w str, second: &'w str, third: &'w str) -> Option<(&'w str, u32)>
    ensures value { option_map (λ found. (found.0.now, found.1)) result
        ≡ or_else (with_number first.now (workers_by second.now third.now)) (with_number third.now (workers_by first.now second.now)) }
    ensures few { IfSome result (λ found. found.1 ≤ 64) }
{
    match plain_with(first, read_workers_by(second.as_bytes(), third.as_bytes())) {
        Some(found) => Some(found),
        None => plain_with(third, read_workers_by(first.as_bytes(), second.as_bytes())),
    }
}

// The word with the number of workers, where there is one and the word is plain.
fn plain_with(word: &str, workers: Option<u32>) -> Option<(&str, u32)>
    requires { IfSome workers (λ count. count ≤ 64) }
    ensures value { option_map (λ found. (found.0.now, found.1)) result ≡ with_number word.now workers }
    ensures few { IfSome result (λ found. found.1 ≤ 64) }
{
    let Some(count) = workers else {
        return None;
    };
    if !is_plain_word(word.as_bytes()) {
        return None;
    }
    Some((word, count))
}

// Whether a word is not empty, and no option.
fn is_plain_word(word: &[u8]) -> bool
    ensures { result ≡ is_plain word.now }
{
    match word {
        [] => false,
        [first, ..] => *first != b'-',
    }
}

// The number in `--workers=K`.
fn read_workers_in(word: &[u8]) -> Option<u32>
    ensures value { result ≡ workers_in word.now }
    ensures few { IfSome result (λ count. count ≤ 64) }
{
    match word.strip_prefix(b"--workers=".as_slice()) {
        Some(number) => read_workers(number),
        None => None,
    }
}

// The number in `--workers K`.
fn read_workers_by(name: &[u8], number: &[u8]) -> Option<u32>
    ensures value { result ≡ workers_by name.now number.now }
    ensures few { IfSome result (λ count. count ≤ 64) }
{
    if name != b"--workers".as_slice() {
        return None;
    }
    read_workers(number)
}

// The number of workers that one or two digits say, at most 64.
fn read_workers(text: &[u8]) -> Option<u32>
    ensures value { result ≡ workers_of text.now }
    ensures few { IfSome result (λ count. count ≤ 64) }
{
    if text.len() > 2 {
        return None;
    }
    let Some(count) = read_digits(text) else {
        return None;
    };
    if count > MOST_WORKERS {
        return None;
    }
    Some(count as u32)
}
