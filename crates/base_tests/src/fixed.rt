ghost use Rattle.std.specs.Prelude.{IfOk};
ghost use Rattle.lean_fixed.specs.Ranges.{IsDay};

use lean_fixed::ranges::{LAST_DAY, LAST_PRINTED_MOMENT};
use lean_fixed::{
    Day, Moment, Money, Price, Symbol, Window, day_text, laws, moment_text, money_text, price_text,
    read_amount, read_digits,
};
use std::alloc::{AllocError, Global};
use std::cmp::Ordering;
use std::collections::HashMap;
use std::str;
use std::test::Fail;
use test_cases::cases::{check, none};

const DIGITS: &str = "\
0 = 0
007 = 7
1000000000000000000 = 1000000000000000000
1000000000000000001 = none
0000000000000000000000001 = 1
99999999999999999999999999 = none
 = none
1a = none
-1 = none
";

fn number(alloc: Global, text: &str) -> Result<String, Fail> {
    match read_digits(text.as_bytes()) {
        Some(number) => Ok(format!(in alloc; "{number}")?),
        None => none(alloc),
    }
}

#[test]
fn reads_digits(rt: HostRuntime) -> Result<(), Fail> {
    check(rt.alloc(), DIGITS, number)
}

const AMOUNTS: &str = "\
1000000 = 10000000000
0.005 = 50
12.5 = 125000
0.0001 = 1
0000000000000000000000001 = 10000
10000000000000000 = 100000000000000000000
10000000000000000.0001 = none
0.12345 = none
1. = none
.5 = none
1.2.3 = none
-1 = none
";

fn units(alloc: Global, text: &str) -> Result<String, Fail> {
    match read_amount(text.as_bytes()) {
        Some(amount) => Ok(format!(in alloc; "{}", amount.0)?),
        None => none(alloc),
    }
}

#[test]
fn reads_amounts(rt: HostRuntime) -> Result<(), Fail> {
    check(rt.alloc(), AMOUNTS, units)
}

const SYMBOLS: &str = "\
SPY = SPY
BRK.B = BRK.B
3 = 3
ABCDEFGHIJKL = ABCDEFGHIJKL
 = none
.A = none
spy = none
SPY  = none
ABCDEFGHIJKLM = none
";

fn name(alloc: Global, text: &str) -> Result<String, Fail> {
    match Symbol::read(text.as_bytes()) {
        Some(symbol) => {
            laws::symbol_is_short(symbol);
            Ok(String::from_str(alloc, str::from_utf8(symbol.bytes())?)?)
        }
        None => none(alloc),
    }
}

// By their bytes a name comes before those that it begins, and a point before a digit before a letter.
const ORDERS: &str = "\
AAPL SPY = before
SPY AAPL = after
SPY SPY = same
A AA = before
A.B A3 = before
A3 AB = before
";

fn order(alloc: Global, text: &str) -> Result<String, Fail> {
    let (left, right) = text.split_once(' ').ok_or("two symbols")?;
    let left = Symbol::read(left.as_bytes()).ok_or("a symbol")?;
    let right = Symbol::read(right.as_bytes()).ok_or("a symbol")?;
    let word = match left.cmp(&right) {
        Ordering::Less if left != right && left < right => "before",
        Ordering::Greater if left != right && left > right => "after",
        Ordering::Equal if left == right => "same",
        _ => "unordered",
    };
    Ok(String::from_str(alloc, word)?)
}

#[test]
fn reads_symbols(rt: HostRuntime) -> Result<(), Fail> {
    check(rt.alloc(), SYMBOLS, name)
}

#[test]
fn orders_symbols(rt: HostRuntime) -> Result<(), Fail> {
    check(rt.alloc(), ORDERS, order)
}

// What a map holds of two symbols, of which the first is in it.
fn held(alloc: Global, first: &str, second: &str) -> Result<(Option<u32>, Option<u32>), Fail> {
    let first = Symbol::read(first.as_bytes()).ok_or("a symbol")?;
    let second = Symbol::read(second.as_bytes()).ok_or("a symbol")?;
    let mut volumes = HashMap::new(alloc);
    volumes.insert(first, 1234)?;
    Ok((volumes.get(&first).copied(), volumes.get(&second).copied()))
}

#[test]
fn finds_symbols_in_a_map(rt: HostRuntime) -> Result<(), Fail> {
    let held = held(rt.alloc(), "SPY", "AAPL")?;
    assert_eq!(rt; held, (Some(1234), None));
    Ok(())
}

const DAYS: &str = "\
19700101 = 0
19720229 = 789
19991231 = 10956
20000229 = 11016
20131007 = 15985
21000228 = 47540
21000301 = 47541
21991231 = 84005
21000229 = none
20130229 = none
20130431 = none
20131301 = none
20131000 = none
19691231 = none
22000101 = none
2013-10- = none
";

fn day_number(alloc: Global, text: &str) -> Result<String, Fail> {
    match Day::read(text.as_bytes()) {
        Some(day) => Ok(format!(in alloc; "{}", day.0)?),
        None => none(alloc),
    }
}

#[test]
fn reads_days(rt: HostRuntime) -> Result<(), Fail> {
    check(rt.alloc(), DAYS, day_number)
}

fn day_of(text: &str) -> Result<Day, Fail>
    ensures { IfOk result (λ day. IsDay day.0) }
{
    let number: i32 = text.parse()?;
    if number < 0 || number > LAST_DAY {
        return Err("no day")?;
    }
    Ok(Day(number))
}

// The weekday, from 0 for Sunday, and the next day.
const WEEKDAYS: &str = "\
0 = 4 1
10956 = 5 10957
15985 = 1 15986
47540 = 0 47541
84004 = 1 84005
84005 = 2 none
";

fn weekday(alloc: Global, text: &str) -> Result<String, Fail> {
    let day = day_of(text)?;
    let weekday = day.weekday();
    match day.next() {
        Some(next) => Ok(format!(in alloc; "{weekday} {}", next.0)?),
        None => Ok(format!(in alloc; "{weekday} none")?),
    }
}

#[test]
fn names_weekdays(rt: HostRuntime) -> Result<(), Fail> {
    check(rt.alloc(), WEEKDAYS, weekday)
}

// A text that a call appends to one that is there.
fn appended(alloc: Global, out: &Vec<u8>) -> Result<String, Fail> {
    Ok(String::from_str(alloc, str::from_utf8(out.as_slice())?)?)
}

fn begun(alloc: Global) -> Result<Vec<u8>, AllocError> {
    Vec::from_slice(alloc, b"at ")
}

// The text, the digits and the first moment of a day.
const PRINTED_DAYS: &str = "\
0 = at 19700101 19700101 0
11016 = at 20000229 20000229 15863040
15985 = at 20131007 20131007 23018400
47541 = at 21000301 21000301 68459040
84005 = at 21991231 21991231 120967200
";

fn printed_day(alloc: Global, text: &str) -> Result<String, Fail> {
    let day = day_of(text)?;
    let mut out = begun(alloc)?;
    day_text(day, &mut out)?;
    let digits = day.digits();
    let text = appended(alloc, &out)?;
    let digits = str::from_utf8(&digits)?;
    Ok(format!(in alloc; "{text} {digits} {}", day.midnight().0)?)
}

#[test]
fn prints_days(rt: HostRuntime) -> Result<(), Fail> {
    check(rt.alloc(), PRINTED_DAYS, printed_day)
}

const PRINTED_MOMENTS: &str = "\
0 = at 19700101 00:00
23018970 = at 20131007 09:30
23019360 = at 20131007 16:00
120968639 = at 21991231 23:59
120968640 = at 22000101 00:00
120970079 = at 22000101 23:59
120970080 = at 22000102 00:00
";

fn printed_moment(alloc: Global, text: &str) -> Result<String, Fail> {
    let number: i64 = text.parse()?;
    if number < 0 || number > LAST_PRINTED_MOMENT {
        return Err("no moment that may be printed")?;
    }
    let mut out = begun(alloc)?;
    moment_text(Moment(number), &mut out)?;
    appended(alloc, &out)
}

#[test]
fn prints_moments(rt: HostRuntime) -> Result<(), Fail> {
    check(rt.alloc(), PRINTED_MOMENTS, printed_moment)
}

// The day of a moment, and its minute where it is of 1970 or later.
const MOMENTS: &str = "\
-10000 = none
-1 = none
0 = 0 0
1439 = 0 1439
1440 = 1 0
23018970 = 15985 570
120968639 = 84005 1439
120968640 = none 0
121000000 = none 1120
";

fn day_and_minute(alloc: Global, text: &str) -> Result<String, Fail> {
    let moment = Moment(text.parse()?);
    if moment.0 < 0 {
        return match moment.day() {
            Some(day) => Ok(format!(in alloc; "{}", day.0)?),
            None => none(alloc),
        };
    }
    let minute = moment.minute_of_day();
    match moment.day() {
        Some(day) => Ok(format!(in alloc; "{} {minute}", day.0)?),
        None => Ok(format!(in alloc; "none {minute}")?),
    }
}

// The first and the last moment of a window.
const WINDOWS: &str = "\
15985 15985 = 23018400 23019840
15985 15986 = 23018400 23021280
1 84004 = 1440 120967200
0 84005 = 0 120968640
";

fn ends(alloc: Global, text: &str) -> Result<String, Fail> {
    let (first, last) = text.split_once(' ').ok_or("two days")?;
    let window = Window {
        first: day_of(first)?,
        last: day_of(last)?,
    };
    let (first, last) = (window.first_moment(), window.last_moment());
    Ok(format!(in alloc; "{} {}", first.0, last.0)?)
}

#[test]
fn tells_days(rt: HostRuntime) -> Result<(), Fail> {
    check(rt.alloc(), MOMENTS, day_and_minute)
}

#[test]
fn tells_windows(rt: HostRuntime) -> Result<(), Fail> {
    check(rt.alloc(), WINDOWS, ends)
}

const PRICES: &str = "\
0 = at 0.0000
1672000 = at 167.2000
10000000000 = at 1000000.0000
-1 = at -0.0001
9223372036854775807 = at 922337203685477.5807
-9223372036854775808 = at -922337203685477.5808
";

fn printed_price(alloc: Global, text: &str) -> Result<String, Fail> {
    let mut out = begun(alloc)?;
    price_text(Price(text.parse()?), &mut out)?;
    appended(alloc, &out)
}

const SUMS: &str = "\
9999 = at 0.9999
-123450001 = at -12345.0001
184467440737095516150000 = at 18446744073709551615.0000
184467440737095516160001 = at 18446744073709551616.0001
1000000000000000000000000000000 = at 100000000000000000000000000.0000
170141183460469231731687303715884105727 = at 17014118346046923173168730371588410.5727
-170141183460469231731687303715884105728 = at -17014118346046923173168730371588410.5728
";

fn printed_money(alloc: Global, text: &str) -> Result<String, Fail> {
    let mut out = begun(alloc)?;
    money_text(Money(text.parse()?), &mut out)?;
    appended(alloc, &out)
}

#[test]
fn prints_prices(rt: HostRuntime) -> Result<(), Fail> {
    check(rt.alloc(), PRICES, printed_price)
}

#[test]
fn prints_money(rt: HostRuntime) -> Result<(), Fail> {
    check(rt.alloc(), SUMS, printed_money)
}
