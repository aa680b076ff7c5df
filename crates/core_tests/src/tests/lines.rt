//! The lines of some moments.

use crate::tests::playing::{Game, begin, name, symbol_of, trade};
use crate::tests::slices::{moment, slice};
use backtest_core::{Changes, Stop};
use std::alloc::Global;
use std::fmt::Write;
use std::str;
use std::test::Fail;

/// What is printed at the moments of some lines by a plan. Behind the lines of a moment stands `end N` for each feed that ends,
/// and `feed N SYMBOL` for each that begins, or at the end why a moment can't go on.
pub fn report(alloc: Global, plan: &str, moments: &str) -> Result<String, Fail> {
    let mut game = begin(alloc, plan)?;
    let mut said = String::new(alloc);
    for line in moments.lines() {
        if !play(alloc, &mut game, line, &mut said)? {
            return Ok(said);
        }
    }
    Ok(said)
}

/// One moment of a game, whose lines are appended. The answer is whether it can go on.
pub fn play(alloc: Global, game: &mut Game, line: &str, said: &mut String) -> Result<bool, Fail> {
    let slice = slice(alloc, line)?;
    match trade(alloc, game, moment(line)?, &slice)? {
        Some(stop) => {
            halt(game, stop, said)?;
            Ok(false)
        }
        None => {
            close(game, said)?;
            Ok(true)
        }
    }
}

/// Appends what the core prints at its moment.
pub fn append_text(game: &Game, said: &mut String) -> Result<(), Fail> {
    said.push_str(str::from_utf8(game.core.text())?)?;
    Ok(())
}

fn halt(game: &Game, stop: Stop, said: &mut String) -> Result<(), Fail> {
    append_text(game, said)?;
    said.push_str(match stop {
        Stop::NoMemory => "no memory\n",
        Stop::Requests => "too many requests\n",
        Stop::Securities => "too many securities\n",
    })?;
    Ok(())
}

fn close(game: &mut Game, said: &mut String) -> Result<(), Fail> {
    let changes = game.core.close_moment()?;
    append_text(game, said)?;
    change(game, &changes, said)
}

fn change(game: &mut Game, changes: &Changes, said: &mut String) -> Result<(), Fail> {
    for feed in &changes.removed {
        writeln!(said, "end {}", feed.0)?;
    }
    for key in &changes.added {
        let symbol = symbol_of(key)?;
        let feed = name(game, symbol)?;
        writeln!(said, "feed {} {}", feed.0, str::from_utf8(symbol.bytes())?)?;
    }
    Ok(())
}

/// That a plan prints these lines at some moments.
pub fn check(alloc: Global, plan: &str, moments: &str, wanted: &str) -> Result<(), Fail> {
    compare(alloc, plan, &report(alloc, plan, moments)?, wanted)
}

/// That what a plan printed are these lines.
pub fn compare(alloc: Global, plan: &str, said: &str, wanted: &str) -> Result<(), Fail> {
    if said == wanted {
        return Ok(());
    }
    Err(format!(in alloc; "{plan}prints\n{said}")?)?
}
