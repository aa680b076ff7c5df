use consolidators::{Consolidator, Given};
use lean_fixed::{Moment, Price, Shares};
use lean_items::Bar;
use std::alloc::Global;
use std::fmt::Write;
use std::test::Fail;
use test_cases::cases::check;

// A period, and bars of start, end, opening, high, low, closing and volume; with ~ before it a bar is filled forward.
// What each of them gives, where it is taken, and what is left.
const CASES: &str = "\
5; 600 601 100 101 99 100 10; 609 610 102 103 102 103 4 = nothing; 600 605 100 101 99 100 10, 605 610 102 103 102 103 4; none left
5; 600 601 100 101 99 100 10 = nothing; 600 605 100 101 99 100 10 left
5; 600 601 100 101 99 100 10; 604 605 98 99 97 98 3 = nothing; 600 605 100 101 97 98 13; none left
5; 600 601 100 101 99 100 10; 605 606 98 99 97 98 3 = nothing; 600 605 100 101 99 100 10; 605 610 98 99 97 98 3 left
5; 601 602 5 9 4 8 1; 602 603 8 10 7 9 2; 603 604 9 9 3 3 4 = nothing; nothing; nothing; 600 605 5 10 3 3 7 left
5; 604 605 5 5 5 5 1; 900 901 6 6 6 6 2 = 600 605 5 5 5 5 1; nothing; 900 905 6 6 6 6 2 left
5; 600 601 5 5 5 5 1; 900 901 6 6 6 6 2 = nothing; 600 605 5 5 5 5 1; 900 905 6 6 6 6 2 left
1; 600 601 5 6 4 5 1; 601 602 5 5 5 5 2 = 600 601 5 6 4 5 1; 601 602 5 5 5 5 2; none left
60; 540 600 5 6 4 5 1; 660 720 7 8 6 7 2 = 540 600 5 6 4 5 1; 660 720 7 8 6 7 2; none left
120; 540 600 5 6 4 5 1; 600 660 7 8 6 7 2; 660 720 7 7 7 7 3 = 480 600 5 6 4 5 1; nothing; 600 720 7 8 6 7 5; none left
1440; 570 571 5 6 4 5 1; 959 960 7 8 3 7 2; 2010 2011 1 1 1 1 9 = nothing; nothing; 0 1440 5 8 3 7 3; 1440 2880 1 1 1 1 9 left
5; ~600 601 5 5 5 5 0; ~601 602 5 5 5 5 0 = nothing; nothing; ~600 605 5 5 5 5 0 left
5; ~600 601 5 5 5 5 0; 601 602 6 6 6 6 1; ~604 605 6 6 6 6 0 = nothing; nothing; 600 605 5 6 5 6 1; none left
5; 0 1 10000000000 10000000000 1 1 1000000000000000; 1 5 1 1 1 1 1000000000000000 = nothing; 0 5 10000000000 10000000000 1 1 2000000000000000; none left
5; -7 -6 5 5 5 5 1; -5 0 6 6 6 6 2 = nothing; -10 -5 5 5 5 5 1, -5 0 6 6 6 6 2; none left
5; 600 602 5 5 5 5 1; 601 603 5 5 5 5 1; 602 603 5 5 5 5 1 = nothing; not taken; nothing; 600 605 5 5 5 5 2 left
5; 604 606 5 5 5 5 1; 604 604 5 5 5 5 1; 604 605 5 5 5 5 1 = not taken; not taken; 600 605 5 5 5 5 1; none left
5; -10001 -10000 5 5 5 5 1; -10000 -9999 5 5 5 5 1; 121000000 121000001 5 5 5 5 1 = not taken; nothing; not taken; -10000 -9995 5 5 5 5 1 left
5; 600 601 0 5 5 5 1; 600 601 5 10000000001 5 5 1; 600 601 5 5 0 5 1; 600 601 5 5 5 0 1 = not taken; not taken; not taken; not taken; none left
5; 600 601 5 5 5 5 -1; 600 601 5 5 5 5 1000000000000001; 600 601 5 5 5 5 0 = not taken; not taken; nothing; 600 605 5 5 5 5 0 left
";

// The start of the last bar that each bar gives, or 0.
const LASTS: &str = "\
5; 600 601 5 5 5 5 1; 609 610 6 6 6 6 2 = 0;605;
5; 604 605 5 5 5 5 1; 900 901 6 6 6 6 2; 901 902 6 6 6 6 2; 906 907 6 6 6 6 2 = 600;0;0;900;
";

// What a bar gives, where it is taken.
fn pushed(consolidator: &mut Consolidator, bar: &Bar) -> Option<Given> {
    if !consolidator.takes(bar) {
        return None;
    }
    Some(consolidator.push(bar))
}

fn new_of(period: &str) -> Result<Consolidator, Fail> {
    let period = period.parse::<u32>()?;
    if period == 0 || period > 1440 {
        return Err(Fail::from("no period"));
    }
    Ok(Consolidator::new(period))
}

fn bar_of(text: &str) -> Result<Bar, Fail> {
    let filled = text.strip_prefix("~");
    let mut numbers = [0i64; 7];
    let mut count = 0;
    for word in filled.unwrap_or(text).split_whitespace() {
        if count < 7 {
            numbers[count] = word.parse::<i64>()?;
            count += 1;
        }
    }
    let [start, end, opening, high, low, closing, volume] = numbers;
    Ok(Bar {
        start: Moment(start),
        end: Moment(end),
        opening: Price(opening),
        high: Price(high),
        low: Price(low),
        closing: Price(closing),
        volume: Shares(volume),
        real: filled.is_none(),
    })
}

fn write_bar(text: &mut String, bar: &Bar) -> Result<(), Fail> {
    let sign = if bar.real { "" } else { "~" };
    let (start, end, volume) = (bar.start.0, bar.end.0, bar.volume.0);
    let (opening, high) = (bar.opening.0, bar.high.0);
    let (low, closing) = (bar.low.0, bar.closing.0);
    write!(
        text,
        "{sign}{start} {end} {opening} {high} {low} {closing} {volume}"
    )?;
    Ok(())
}

fn write_given(text: &mut String, given: &Given) -> Result<(), Fail> {
    match given {
        Given::Nothing => text.push_str("nothing")?,
        Given::One(bar) => write_bar(text, bar)?,
        Given::Two(earlier, bar) => {
            write_bar(text, earlier)?;
            text.push_str(", ")?;
            write_bar(text, bar)?;
        }
    }
    text.push_str("; ")?;
    Ok(())
}

fn consolidated(alloc: Global, input: &str) -> Result<String, Fail> {
    let (period, bars) = input.split_once("; ").ok_or("no period")?;
    let mut consolidator = new_of(period)?;
    let mut text = String::new(alloc);
    for words in bars.split("; ") {
        let bar = bar_of(words)?;
        match pushed(&mut consolidator, &bar) {
            Some(given) => write_given(&mut text, &given)?,
            None => text.push_str("not taken; ")?,
        }
    }
    match consolidator.rest() {
        Some(bar) => write_bar(&mut text, &bar)?,
        None => text.push_str("none")?,
    }
    text.push_str(" left")?;
    Ok(text)
}

fn last_start(given: Option<Given>) -> i64 {
    let Some(given) = given else { return 0 };
    match given.last() {
        Some(bar) => bar.start.0,
        None => 0,
    }
}

fn lasts(alloc: Global, input: &str) -> Result<String, Fail> {
    let (period, bars) = input.split_once("; ").ok_or("no period")?;
    let mut consolidator = new_of(period)?;
    let mut text = String::new(alloc);
    for words in bars.split("; ") {
        let bar = bar_of(words)?;
        let start = last_start(pushed(&mut consolidator, &bar));
        write!(text, "{start};")?;
    }
    Ok(text)
}

#[test]
fn gives_the_bars_of_buckets(rt: HostRuntime) -> Result<(), Fail> {
    check(rt.alloc(), CASES, consolidated)
}

#[test]
fn tells_the_last_bar_given(rt: HostRuntime) -> Result<(), Fail> {
    check(rt.alloc(), LASTS, lasts)
}
