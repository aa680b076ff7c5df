//! Items as text. A moment is a day of October 2013 and a time, as 07.1001. A bar is its end, its price or its four prices,
//! and its volume or `fill`. Filled bars side by side of the same prices are one text with the first and the last end.

use lean_fixed::Moment;
use lean_items::{Arrival, Bad, Bar, CoarseRow, Item};
use std::alloc::{AllocError, Global};

// 00:00 of 2013-09-30.
const BEFORE: i64 = 15_978 * 1_440;

fn push_two(out: &mut String, n: u64) -> Result<(), AllocError> {
    out.push(char::from(b'0' + (n / 10 % 10) as u8))?;
    out.push(char::from(b'0' + (n % 10) as u8))
}

fn push_moment(out: &mut String, at: Moment) -> Result<(), AllocError> {
    let minute = at.0.wrapping_sub(BEFORE).unsigned_abs();
    push_two(out, minute / 1_440)?;
    out.push('.')?;
    push_two(out, minute % 1_440 / 60)?;
    push_two(out, minute % 60)
}

fn push_number(alloc: Global, out: &mut String, n: i64) -> Result<(), AllocError> {
    let text = format!(in alloc; "{n}")?;
    out.push_str(text.as_str())
}

fn is_flat(bar: &Bar) -> bool {
    bar.opening == bar.closing && bar.high == bar.closing && bar.low == bar.closing
}

fn push_prices(alloc: Global, out: &mut String, bar: &Bar) -> Result<(), AllocError> {
    if is_flat(bar) {
        return push_number(alloc, out, bar.closing.0);
    }
    let text = format!(in alloc;
        "{}/{}/{}/{}",
        bar.opening.0, bar.high.0, bar.low.0, bar.closing.0
    )?;
    out.push_str(text.as_str())
}

// Whether a filled bar goes on with the prices of the filled bar before it, from its end on.
fn goes_on(before: &Bar, bar: &Bar) -> bool {
    let same = Bar {
        start: before.end,
        end: bar.end,
        ..*before
    };
    !bar.real && bar.volume.0 == 0 && *bar == same
}

fn is_joined(before: &Item, item: &Item) -> bool {
    match (before, item) {
        (Item::Bar(before), Item::Bar(bar)) => goes_on(before, bar),
        _ => false,
    }
}

fn push_bar(
    alloc: Global,
    out: &mut String,
    bar: &Bar,
    begins: bool,
    ends: bool,
) -> Result<(), AllocError> {
    if !begins && ends {
        out.push('-')?;
    }
    if begins || ends {
        push_moment(out, bar.end)?;
    }
    if ends {
        out.push(' ')?;
        push_prices(alloc, out, bar)?;
        if bar.real {
            out.push_str(" v")?;
            push_number(alloc, out, bar.volume.0)?;
        } else {
            out.push_str(" fill")?;
        }
    }
    Ok(())
}

fn push_coarse(
    alloc: Global,
    out: &mut String,
    at: Moment,
    row: &CoarseRow,
) -> Result<(), AllocError> {
    push_moment(out, at)?;
    out.push(' ')?;
    for byte in row.symbol.bytes() {
        out.push(char::from(*byte))?;
    }
    let text = format!(in alloc; " {} {} {}", row.close.0, row.volume.0, row.dollars)?;
    out.push_str(text.as_str())
}

fn push_bad(alloc: Global, out: &mut String, bad: &Bad) -> Result<(), AllocError> {
    let text = format!(in alloc; "bad {}:{} {}", bad.file, bad.line, bad.reason.word())?;
    out.push_str(text.as_str())
}

fn push_item(
    alloc: Global,
    out: &mut String,
    item: &Item,
    begins: bool,
    ends: bool,
) -> Result<(), AllocError> {
    match item {
        Item::Bar(bar) => push_bar(alloc, out, bar, begins, ends),
        Item::Coarse(at, row) => push_coarse(alloc, out, *at, row),
        Item::Bad(bad) => push_bad(alloc, out, bad),
        Item::Faulted => out.push_str("faulted"),
        Item::End => out.push_str("end"),
    }
}

/// Items, with a comma between them.
pub(crate) fn items_text(alloc: Global, items: &[Item]) -> Result<String, AllocError> {
    let mut out = String::new(alloc);
    for place in 0..items.len() {
        let begins = place == 0 || !is_joined(&items[place - 1], &items[place]);
        let ends = place + 1 == items.len() || !is_joined(&items[place], &items[place + 1]);
        if begins && place > 0 {
            out.push_str(", ")?;
        }
        push_item(alloc, &mut out, &items[place], begins, ends)?;
    }
    Ok(out)
}

/// What feeds gave, each item with the number of its feed before it.
pub(crate) fn arrivals_text(alloc: Global, arrivals: &[Arrival]) -> Result<String, AllocError> {
    let mut out = String::new(alloc);
    for (place, arrival) in arrivals.iter().enumerate() {
        if place > 0 {
            out.push_str(", ")?;
        }
        let number = format!(in alloc; "{}:", arrival.feed.0)?;
        out.push_str(number.as_str())?;
        push_item(alloc, &mut out, &arrival.item, true, true)?;
    }
    Ok(out)
}
