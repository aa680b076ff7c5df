ghost use Rattle.std.specs.Prelude.{◌≡◌, true, All};
ghost use Rattle.bar_windows.specs.Kept.{IsLength};

use bar_windows::{Func, WindowSpec, Windows};
use lean_fixed::Price;
use std::alloc::Global;
use std::fmt::Write;
use std::test::Fail;
use test_cases::cases::check;

// Functions with their lengths, and closes: the values after each close.
const CASES: &str = "\
sma 1; 7 8 9 = 7 8 9
sma 2; 7 10 13 = none 8 11
sma 3; 1 1 2 5 = none none 1 2
highest 1; 7 6 8 = 7 6 8
highest 3; 9 5 6 5 4 4 = none none 9 6 6 5
highest 2; 9 9 5 5 7 = none 9 9 5 7
lowest 1; 7 6 8 = 7 6 8
lowest 3; 4 5 6 5 7 8 = none none 4 5 5 5
lowest 2; 4 4 5 5 3 = none 4 4 5 3
change 1; 7 6 9 = none -1 3
change 2; 9 5 6 8 8 = none none -3 3 2
sma 2; 10000000000 10000000000 1 = none 10000000000 5000000000
sma 2, highest 3, lowest 1, change 2, sma 2; 7 10 13 4 = none,none,7,none,none 8,none,10,none,8 11,13,13,6,11 8,13,4,-6,8
sma 1000, change 1; 5 6 = none,none none,1
";

// So many closes, rising by 1 from 1, and then falling by 1 from 2000: the values of four windows of 1,000.
const LONG: &str = "\
999 rising = none,none,none,none
1000 rising = 500,1000,1,none
1001 rising = 501,1001,2,1000
1002 rising = 502,1002,3,1000
999 falling = none,none,none,none
1000 falling = 1500,2000,1001,none
1001 falling = 1499,1999,1000,-1000
1002 falling = 1498,1998,999,-1000
";

const FOUR: &str = "sma 1000, highest 1000, lowest 1000, change 1000";

fn is_length(length: u32) -> bool
    ensures { result ≡ true → IsLength length }
{
    1 <= length && length <= 1000
}

fn are_lengths(specs: &[WindowSpec]) -> bool
    ensures { result ≡ true → All (λ spec. IsLength spec.length) specs.now }
{
    specs.iter().all(|spec| is_length(spec.length))
}

fn spec_of(text: &str) -> Result<WindowSpec, Fail> {
    let (name, length) = text.split_once(" ").ok_or("no length")?;
    let func = if name == "sma" {
        Func::Sma
    } else if name == "highest" {
        Func::Highest
    } else if name == "lowest" {
        Func::Lowest
    } else {
        Func::Change
    };
    Ok(WindowSpec {
        func,
        length: length.parse::<u32>()?,
    })
}

fn windows_of(alloc: Global, text: &str) -> Result<Windows, Fail> {
    let mut specs = Vec::new(alloc);
    for words in text.split(", ") {
        specs.push(spec_of(words)?)?;
    }
    if !are_lengths(&specs) {
        return Err(Fail::from("no length"));
    }
    Ok(Windows::new(alloc, &specs)?)
}

fn push(windows: &mut Windows, close: i64) -> Result<(), Fail> {
    let close = Price(close);
    if !close.is_in_range() {
        return Err(Fail::from("no price"));
    }
    windows.push(close);
    Ok(())
}

fn write_values(text: &mut String, windows: &Windows) -> Result<(), Fail> {
    for index in 0..windows.len() {
        if index > 0 {
            text.push(',')?;
        }
        match windows.value(index) {
            Some(value) => write!(text, "{value}")?,
            None => text.push_str("none")?,
        }
    }
    Ok(())
}

fn values(alloc: Global, input: &str) -> Result<String, Fail> {
    let (specs, closes) = input.split_once("; ").ok_or("no closes")?;
    let mut windows = windows_of(alloc, specs)?;
    let mut text = String::new(alloc);
    for close in closes.split(" ") {
        if !text.is_empty() {
            text.push(' ')?;
        }
        push(&mut windows, close.parse::<i64>()?)?;
        write_values(&mut text, &windows)?;
    }
    Ok(text)
}

fn long_values(alloc: Global, input: &str) -> Result<String, Fail> {
    let (count, course) = input.split_once(" ").ok_or("no course")?;
    let mut windows = windows_of(alloc, FOUR)?;
    for number in 0..count.parse::<u16>()? {
        let number = number as i64;
        let close = if course == "rising" {
            1 + number
        } else {
            2000 - number
        };
        push(&mut windows, close)?;
    }
    let mut text = String::new(alloc);
    write_values(&mut text, &windows)?;
    Ok(text)
}

#[test]
fn gives_values_over_the_last_closes(rt: HostRuntime) -> Result<(), Fail> {
    check(rt.alloc(), CASES, values)
}

#[test]
fn gives_values_of_the_longest_windows(rt: HostRuntime) -> Result<(), Fail> {
    check(rt.alloc(), LONG, long_values)
}
