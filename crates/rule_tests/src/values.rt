ghost use Rattle.std.specs.Prelude.{◌≡◌, ◌≤◌, length};

use crate::cases::{fault_text, read};
use bar_windows::{Func, WindowSpec, Windows};
use lean_fixed::{Moment, Money, Price, Shares};
use lean_items::Bar;
use rule_lang::{Expr, View, Want, WindowValues};
use std::alloc::{AllocError, Global};
use std::fmt::Write;
use std::test::Fail;
use test_cases::cases::check;

// A view at 09:30 of 2013-10-07, in which the windows have these values.
fn view(windows: WindowValues) -> View {
    View {
        bar: Bar {
            start: Moment(23_018_969),
            end: Moment(23_018_970),
            opening: Price(11),
            high: Price(19),
            low: Price(7),
            closing: Price(13),
            volume: Shares(5),
            real: true,
        },
        at: Moment(23_018_970),
        price: Price(17),
        position: Shares(-3),
        cash: Money(1_000_001),
        equity: Money(-1_000_002),
        orders: 2,
        windows,
    }
}

// For each window a value that tells its function and its length, and none for a change.
fn window_values(alloc: Global, specs: &[WindowSpec]) -> Result<WindowValues, AllocError> {
    let mut values = Vec::new(alloc);
    for spec in specs {
        values.push(window_value(*spec))?;
    }
    Ok(WindowValues(values))
}

fn window_value(spec: WindowSpec) -> Option<i64> {
    let length = spec.length as i64;
    match spec.func {
        Func::Sma => Some(length * 100),
        Func::Highest => Some(length * 10),
        Func::Lowest => Some(length),
        Func::Change => None,
    }
}

fn value(alloc: Global, expression: &Expr) -> Result<String, Fail> {
    let view = view(window_values(alloc, expression.windows())?);
    number_text(alloc, expression.number(&view))
}

fn number_text(alloc: Global, number: Option<i128>) -> Result<String, Fail> {
    match number {
        Some(units) => Ok(format!(in alloc; "{units}")?),
        None => Ok(String::from_str(alloc, "none")?),
    }
}

fn value_of(alloc: Global, text: &str) -> Result<String, Fail> {
    match read(alloc, text, Want::Number)? {
        Ok(expression) => value(alloc, &expression),
        Err(fault) => fault_text(alloc, fault),
    }
}

fn truth(alloc: Global, expression: &Expr) -> Result<String, Fail> {
    let view = view(window_values(alloc, expression.windows())?);
    Ok(format!(in alloc; "{}", expression.truth(&view))?)
}

fn truth_of(alloc: Global, text: &str) -> Result<String, Fail> {
    match read(alloc, text, Want::Truth)? {
        Ok(expression) => truth(alloc, &expression),
        Err(fault) => fault_text(alloc, fault),
    }
}

// In units of 1/10000.
const NUMBERS: &str = "\
open = 11
high = 19
low = 7
close = 13
volume = 50000
price = 17
position = -30000
cash = 1000001
equity = -1000002
orders = 20000
time = 5700000
sma(4) = 400
highest(4) = 40
lowest(4) = 4
change(4) = none
sma(1000) - sma(1) - highest(2) = 99880
lowest(3) - (lowest(5) - lowest(7)) = 5
1 = 10000
0.0001 = 1
1.5 = 15000
007.10 = 71000
123456789012345678 = 1234567890123456780000
123456789012345678.9999 = 1234567890123456789999
-close = -13
--close = 13
10 - 4 - 3 = 30000
10 - (4 - 3) = 90000
2 + 3 * 4 = 140000
(2 + 3) * 4 = 200000
24 / 4 / 3 = 20000
24 / (4 / 3) = 180004
24 / 4 * 3 = 180000
24 * 3 / 4 = 180000
10 - 2 + 3 = 110000
-2 * 3 = -60000
2 * -3 = -60000
2 - -3 = 50000
-2 - 3 = -50000
2 * 3 + 4 * 5 = 260000
1 / 3 = 3333
-1 / 3 = -3333
1 / -3 = -3333
-1 / -3 = 3333
2 / 3 = 6666
-2 / 3 = -6666
0.0001 * 0.9999 = 0
-0.0001 * 0.9999 = 0
0.0001 * 1.9999 = 1
-0.0001 * 1.9999 = -1
0.0001 * -1.9999 = -1
1.5 * 1.5 = 22500
-1.4999 * 1.5 = -22498
1 / 0 = none
0 / 0 = none
1 / (1 - 1) = none
1 / 0 + 1 = none
1 + 1 / 0 = none
1 - 1 / 0 = none
1 / 0 - 1 = none
-(1 / 0) = none
1 / 0 * 0 = none
0 * (1 / 0) = none
1 / 0 / 1 = none
1 / (1 / 0) = none
change(3) - change(3) = none
change(3) * 0 = none
-change(3) = none
0 / change(3) = none
change(3) + sma(1) = none
100000000000000000 * 10000000000000 = 10000000000000000000000000000000000
100000000000000000 * 10000000000000.0001 = none
-100000000000000000 * 10000000000000 = -10000000000000000000000000000000000
-100000000000000000 * 10000000000000.0001 = none
100000000000000000 * 10000000000000 / 1 = 10000000000000000000000000000000000
(100000000000000000 * 10000000000000 + 0.0001) / 1 = none
(100000000000000000 * 10000000000000 + 0.0001) / 10000000000 = none
100000000000000000 * 10000000000000 / 0.0001 = 100000000000000000000000000000000000000
-100000000000000000 * 10000000000000 / 0.0001 = -100000000000000000000000000000000000000
-(100000000000000000 * 10000000000000 / 0.0001) = -100000000000000000000000000000000000000
100000000000000000 * 10000000000000 / 0.0001 + 0.0001 = none
100000000000000000 * 10000000000000 / 0.0001 - 0.0001 = 99999999999999999999999999999999999999
-100000000000000000 * 10000000000000 / 0.0001 - 0.0001 = none
-100000000000000000 * 10000000000000 / 0.0001 + 0.0001 = -99999999999999999999999999999999999999
100000000000000000 * 10000000000000 / 0.0001 + 100000000000000000 * 10000000000000 / 0.0001 = none
0 - 100000000000000000 * 10000000000000 / 0.0001 - 100000000000000000 * 10000000000000 / 0.0001 = none
100000000000000000 * 10000000000000 / 0.0001 * 0.0001 = 10000000000000000000000000000000000
100000000000000000 * 10000000000000 / 0.0001 * 0.0002 = none
100000000000000000 * 10000000000000 / 0.0001 * (1 / 0) = none
999999999999999999 * 999999999999999999 * 0 = none
";

#[test]
fn gives_numbers(rt: HostRuntime) -> Result<(), Fail> {
    check(rt.alloc(), NUMBERS, value_of)
}

const TRUTHS: &str = "\
1 < 2 = true
2 < 2 = false
2 <= 2 = true
3 <= 2 = false
2 > 1 = true
2 > 2 = false
2 >= 2 = true
1 >= 2 = false
2 == 2 = true
2 == 3 = false
2 != 3 = true
2 != 2 = false
-2 < -1 = true
1.5 == 1.50 = true
1 + 1 == 2 = true
2 == 1 + 1 = true
not 1 < 2 = false
not not 1 < 2 = true
not (1 < 2 and 2 < 1) = true
1 < 2 and 2 < 1 = false
2 < 1 and 1 < 2 = false
1 < 2 and 2 < 3 = true
1 < 2 or 2 < 1 = true
2 < 1 or 1 < 2 = true
2 < 1 or 3 < 2 = false
1 < 2 or 1 < 2 and 2 < 1 = true
(1 < 2 or 1 < 2) and 2 < 1 = false
not 1 < 2 or 1 < 2 = true
not (1 < 2 or 1 < 2) = false
not 2 < 1 and 2 < 1 = false
not (2 < 1 and 2 < 1) = true
close > sma(4) = false
close < sma(4) = true
sma(4) < sma(5) and highest(3) > lowest(31) = false
sma(4) < sma(5) and highest(3) > lowest(29) = true
2 < 1 and sma(9) == 0 or lowest(6) == 0.0006 = true
1 < 2 or sma(9) == 0 and lowest(6) == 0 = true
volume == 5 = true
time == 570 = true
position < 0 and orders == 2 = true
change(4) < 1 = false
change(4) <= 1 = false
change(4) > 1 = false
change(4) >= 1 = false
change(4) == 1 = false
change(4) != 1 = false
1 != change(4) = false
change(4) == change(4) = false
change(4) != change(4) = false
not change(4) < 1 = true
1 / 0 == 1 / 0 = false
1 / 0 != 0 = false
change(4) < 1 or 1 < 2 = true
change(4) < 1 and 1 < 2 = false
1 < 2 or change(4) < 1 = true
1 / 0 < 1 or 1 / 0 >= 1 = false
999999999999999999 * 999999999999999999 > 0 = false
";

#[test]
fn gives_truths(rt: HostRuntime) -> Result<(), Fail> {
    check(rt.alloc(), TRUTHS, truth_of)
}

// Hears the closes 100 to 600.
fn hear_closes(windows: &mut Windows)
    ensures { windows.new.specs ≡ windows.old.specs }
{
    for hundreds in 1..7u32 {
        windows.push(Price(hundreds as i64 * 100));
    }
}

fn values_now(alloc: Global, windows: &Windows, count: usize) -> Result<WindowValues, AllocError>
    requires { count ≤ length windows.now.specs }
{
    let mut values = Vec::new(alloc);
    for place in 0..count {
        values.push(windows.value(place))?;
    }
    Ok(WindowValues(values))
}

fn heard(alloc: Global, expression: &Expr) -> Result<WindowValues, Fail> {
    let specs = expression.windows();
    let mut windows = Windows::new(alloc, specs).map_err(|_| "no memory")?;
    hear_closes(&mut windows);
    Ok(values_now(alloc, &windows, specs.len())?)
}

fn value_after_closes(alloc: Global, text: &str) -> Result<String, Fail> {
    match read(alloc, text, Want::Number)? {
        Ok(expression) => {
            let view = view(heard(alloc, &expression)?);
            number_text(alloc, expression.number(&view))
        }
        Err(fault) => fault_text(alloc, fault),
    }
}

const CLOSES: &str = "sma(4) = 450
sma(6) = 350
sma(7) = none
highest(3) = 600
lowest(3) = 400
change(5) = 500
change(6) = none
sma(2) - lowest(2) + highest(1) = 650
";

#[test]
fn gives_values_of_windows(rt: HostRuntime) -> Result<(), Fail> {
    check(rt.alloc(), CLOSES, value_after_closes)
}

#[test]
fn gives_a_window_another_value(rt: HostRuntime) -> Result<(), Fail> {
    let mut windows = WindowValues(vec![in rt.alloc(); Some(1), None]?);
    windows.set(1, Some(7));
    let read = read(rt.alloc(), "lowest(9) - sma(4)", Want::Number)?;
    let expression = read.map_err(|_| "a fault")?;
    assert_eq!(rt; expression.number(&view(windows)), Some(-6));
    Ok(())
}

fn func_word(func: Func) -> &'static str {
    match func {
        Func::Sma => "sma",
        Func::Highest => "highest",
        Func::Lowest => "lowest",
        Func::Change => "change",
    }
}

fn windows_of(alloc: Global, text: &str) -> Result<String, Fail> {
    let expression = match read(alloc, text, Want::Truth)? {
        Ok(expression) => expression,
        Err(fault) => return fault_text(alloc, fault),
    };
    let mut said = String::new(alloc);
    for spec in expression.windows() {
        write!(said, "{}({})", func_word(spec.func), spec.length)?;
    }
    Ok(said)
}

const WINDOWS: &str = "\
close > 1 = 
close > sma(4) = sma(4)
sma(4) > sma(12) and (change(3) == -lowest(1000) or not highest(1) < sma(4)) = sma(4)sma(12)change(3)lowest(1000)highest(1)sma(4)
";

#[test]
fn names_windows(rt: HostRuntime) -> Result<(), Fail> {
    check(rt.alloc(), WINDOWS, windows_of)
}

// 500 ones and the signs between them, 999 bytes, and a blank.
fn long_sum(alloc: Global) -> Result<String, Fail> {
    let mut text = String::from_str(alloc, "1")?;
    for _ in 0..499 {
        text.push_str("+1")?;
    }
    text.push_str(" ")?;
    Ok(text)
}

#[test]
fn reads_a_thousand_bytes(rt: HostRuntime) -> Result<(), Fail> {
    let text = long_sum(rt.alloc())?;
    assert_eq!(rt; text.len(), 1_000);
    assert_eq!(rt; value_of(rt.alloc(), text.as_str())?.as_str(), "5000000");
    Ok(())
}
