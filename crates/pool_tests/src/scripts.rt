//! Items of a script as cases write them.
ghost use Rattle.std.specs.Prelude.{◌+◌, ◌<◌};

use crate::Script;
use lean_fixed::{Moment, Price, Shares, Symbol};
use lean_items::{Bad, Bar, CoarseRow, Item, Reason};
use std::alloc::Global;
use std::test::Fail;

// 00:00 of 2013-10-07.
const DAY: i64 = 15_985 * 1_440;

// A bar of the minute before a time, as 1001, at a price of 5 and a volume of 1.
fn bar_of(time: u16) -> Bar {
    let minute = (time / 100) as i64 * 60 + (time % 100) as i64;
    Bar {
        start: Moment(DAY + minute - 1),
        end: Moment(DAY + minute),
        opening: Price(5),
        high: Price(5),
        low: Price(5),
        closing: Price(5),
        volume: Shares(1),
        real: true,
    }
}

fn coarse_of(word: &str) -> Result<CoarseRow, Fail> {
    let symbol = Symbol::read(word.as_bytes()).ok_or("a symbol")?;
    Ok(CoarseRow {
        symbol,
        close: Price(10_000),
        volume: Shares(2),
        dollars: 3,
    })
}

// A time stands for a bar, a symbol for a coarse row of 00:00, and a price of 0 is out of its range.
fn item_of(word: &str) -> Result<Item, Fail> {
    match word {
        "bad" => Ok(Item::Bad(Bad {
            file: 15_985,
            line: 9,
            reason: Reason::Fields,
        })),
        "faulted" => Ok(Item::Faulted),
        "end" => Ok(Item::End),
        _ => match word.parse() {
            Ok(time) => Ok(Item::Bar(bar_of(time))),
            Err(_) => Ok(Item::Coarse(Moment(DAY), coarse_of(word)?)),
        },
    }
}

/// The script of the words of a case.
pub(crate) fn script_of(alloc: Global, words: &str) -> Result<Script, Fail> {
    let mut items = Vec::new(alloc);
    for word in words.split(' ') {
        items.push(item_of(word)?)?;
    }
    if items.len() > 1_000 {
        return Err("a long script")?;
    }
    Ok(Script::new(items))
}
