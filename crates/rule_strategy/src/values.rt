//! The kinds of values. Each answers `None` exactly where a value is of another kind or out of its range.
ghost use Rattle.std.specs.Prelude.{◌≡◌, ◌≤◌, ◌^◌, bytes_eq, option_map, IfSome, unsigned_abs};
ghost use Rattle.std.specs.List.{list_any};
ghost use Rattle.toml.specs.Data.{as_str};
ghost use Rattle.toml.specs.View.{view};
ghost use Rattle.lean_fixed.specs.Calendar.{day_of_digits};
ghost use Rattle.rule_strategy.specs.Securities.{symbols_of};
ghost use Rattle.rule_strategy.specs.Values.{within, whole, amount, symbol, new_symbol, window_day, resolution, resolution_of, kind, kind_of, verb, verb_of, period, period_of};

use crate::Security;
use crate::rule_texts::Verb;
use lean_fixed::ranges::MINUTES_PER_DAY;
use lean_fixed::{Day, Resolution, Symbol, read_amount};
use lean_orders::Kind;
use toml::Value;

fn text(value: &Value) -> Option<&str>
    ensures { option_map (λ s. s.now) result ≡ as_str (view value.now) }
{
    value.as_str()
}

/// A whole number from one number to another.
#[tactic(auto, unfolding(crate::specs::Values::whole))]
pub(crate) fn whole(value: &Value, least: u64, most: u64) -> Option<u64>
    ensures value { result ≡ whole least most (view value.now) }
    ensures range { IfSome result (λ n. (least ≤ n) × (n ≤ most)) }
{
    let number = value.as_integer()?;
    if number < 0 {
        return None;
    }
    let number = number as u64;
    if least <= number && number <= most {
        Some(number)
    } else {
        None
    }
}

/// A text that is an amount of dollars, of so many units of 1/10000 dollar.
#[tactic(auto, unfolding(crate::specs::Values::amount))]
pub(crate) fn amount(value: &Value, least: u128, most: u128) -> Option<u128>
    ensures value { result ≡ amount least most (view value.now) }
    ensures range { IfSome result (λ n. (least ≤ n) × (n ≤ most)) }
{
    let money = read_amount(text(value)?.as_bytes())?;
    let units = money.0.unsigned_abs();
    if least <= units && units <= most {
        Some(units)
    } else {
        None
    }
}

/// A text that is a symbol.
#[tactic(auto, unfolding(crate::specs::Values::symbol))]
pub(crate) fn symbol(value: &Value) -> Option<Symbol>
    ensures { result ≡ symbol (view value.now) }
{
    Symbol::read(text(value)?.as_bytes())
}

/// A text that is a symbol of none of some securities.
#[tactic(auto, unfolding(crate::specs::Values::new_symbol))]
pub(crate) fn new_symbol(value: &Value, earlier: &[Security]) -> Option<Symbol>
    ensures { result ≡ new_symbol (symbols_of earlier.now) (view value.now) }
{
    let symbol = symbol(value)?;
    if is_listed(&symbol, earlier) {
        None
    } else {
        Some(symbol)
    }
}

fn is_listed(symbol: &Symbol, earlier: &[Security]) -> bool
    ensures { result ≡ list_any (bytes_eq symbol.now) (symbols_of earlier.now) }
{
    for security in earlier {
        if *symbol == security.symbol {
            return true;
        }
    }
    false
}

// The first and the last day on which a run may begin or end: 1970-01-02 and 2199-12-30.
const FIRST_DAY: u32 = 1;

const LAST_DAY: u32 = 84_004;

/// A text that is the date of a day on which a run may begin or end, in days since 1970-01-01.
#[tactic(auto, unfolding(crate::specs::Values::window_day))]
pub(crate) fn window_day(value: &Value) -> Option<u32>
    ensures value { result ≡ window_day (view value.now) }
    ensures range { IfSome result (λ n. (1 ≤ n) × (n ≤ 84004)) }
{
    let number = day_number(text(value)?)?;
    if FIRST_DAY <= number && number <= LAST_DAY {
        Some(number)
    } else {
        None
    }
}

fn day_number(text: &str) -> Option<u32>
    ensures { result ≡ day_of_digits text.now }
{
    match Day::read(text.as_bytes()) {
        None => None,
        Some(day) => Some(number_of(day)),
    }
}

fn number_of(day: Day) -> u32
    ensures { result ≡ unsigned_abs day.0 }
{
    day.0.unsigned_abs()
}

/// A text that is a resolution.
#[tactic(auto, unfolding(crate::specs::Values::resolution))]
pub(crate) fn resolution(value: &Value) -> Option<Resolution>
    ensures { result ≡ resolution (view value.now) }
{
    resolution_of(text(value)?)
}

fn resolution_of(text: &str) -> Option<Resolution>
    ensures { result ≡ resolution_of text.now }
{
    if text == "minute" {
        Some(Resolution::Minute)
    } else if text == "hour" {
        Some(Resolution::Hour)
    } else if text == "daily" {
        Some(Resolution::Daily)
    } else {
        None
    }
}

/// A text that is a kind of orders.
#[tactic(auto, unfolding(crate::specs::Values::kind))]
pub(crate) fn kind(value: &Value) -> Option<Kind>
    ensures { result ≡ kind (view value.now) }
{
    kind_of(text(value)?)
}

fn kind_of(text: &str) -> Option<Kind>
    ensures { result ≡ kind_of text.now }
{
    if text == "market" {
        Some(Kind::Market)
    } else if text == "limit" {
        Some(Kind::Limit)
    } else if text == "stop" {
        Some(Kind::Stop)
    } else if text == "open" {
        Some(Kind::AtOpen)
    } else if text == "stop-limit" {
        Some(Kind::StopLimit)
    } else {
        None
    }
}

/// A text that says what a rule does.
#[tactic(auto, unfolding(crate::specs::Values::verb))]
pub(crate) fn verb(value: &Value) -> Option<Verb>
    ensures { result ≡ verb (view value.now) }
{
    verb_of(text(value)?)
}

fn verb_of(text: &str) -> Option<Verb>
    ensures { result ≡ verb_of text.now }
{
    if text == "order" {
        Some(Verb::Submit)
    } else if text == "cancel" {
        Some(Verb::Cancel)
    } else if text == "update" {
        Some(Verb::Update)
    } else {
        None
    }
}

/// A period of bars over those of a resolution, in minutes.
#[tactic(auto, unfolding(crate::specs::Values::period))]
pub(crate) fn period(value: &Value, resolution: Resolution) -> Option<u32>
    ensures { result ≡ period resolution (view value.now) }
{
    let minutes = whole(value, 1, MINUTES_PER_DAY as u64)?;
    period_of(resolution, minutes as u32)
}

fn period_of(resolution: Resolution, minutes: u32) -> Option<u32>
    requires { 1 ≤ minutes }
    ensures { result ≡ period_of resolution minutes }
{
    let fits = match resolution {
        Resolution::Minute => MINUTES_PER_DAY % minutes == 0,
        Resolution::Hour => MINUTES_PER_DAY % minutes == 0 && minutes % 60 == 0,
        Resolution::Daily => false,
    };
    if fits { Some(minutes) } else { None }
}
