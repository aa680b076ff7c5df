ghost use Rattle.std.specs.Prelude.{◌≡◌, ◌≤◌, ℕ, List, codes, decimal, option_map, option_and_then, IfSome};
ghost use Rattle.lean_fixed.specs.Ranges.{last_printed_moment};
ghost use Rattle.lean_orders.specs.declared.event.What.TheVariants.{Updated, Invalid};
ghost use Rattle.lean_orders.specs.declared.order.Kind.TheVariants.{Limit, AtOpen, StopLimit};
ghost use Rattle.lean_fixed.specs.Printed.{moment_text};
ghost use Rattle.report_lines.specs.Words.{spaced, cut};
ghost use Rattle.report_lines.specs.EventLines.{HasPricesOf, IsWhat, IsEvent, prices_text, what_text, event_line};
ghost use Rattle.report_lines.specs.Reading.{price_of_text, cause_of_text, no_price, one_price, two_prices, kept_prices_of, submitted_of_text, filled_of_text, what_step, what_of_text, symbol_step, event_with, id_step, order_of_text, event_of_text};

use crate::kinds::{read_cause, read_kind};
use crate::moments::read_moment;
use crate::numbers::{read_fee, read_id, read_price, read_quantity};
use crate::words::cut;
use lean_fixed::{Moment, Price, Symbol};
use lean_orders::{Fill, Kind, OrderEvent, What};

/// The event whose line this is, without the LF. `None` exactly where the bytes are no such line: numbers stand in their
/// plainest spelling, without leading zeros, and within the ranges of events.
pub fn read_event(line: &[u8]) -> Option<OrderEvent>
    ensures value { result ≡ event_of_text line.now }
    ensures event { IfSome result IsEvent }
    ensures same { IfSome result (λ event. event_line event ≡ line.now) }
{
    if line.len() < 15 || line[14] != b' ' {
        return None;
    }
    let at = read_moment(&line[..14])?;
    read_order(at, &line[15..])
}

fn read_order(at: u64, text: &[u8]) -> Option<OrderEvent>
    requires { at ≤ last_printed_moment }
    ensures value { result ≡ order_of_text at text.now }
    ensures event { IfSome result IsEvent }
    ensures same { IfSome result (λ event. event_line event ≡ spaced (moment_text at) text.now) }
{
    let (word, rest) = cut(text)?;
    if word != b"order".as_slice() {
        return None;
    }
    read_numbered(at, rest)
}

// From the id on.
fn read_numbered(at: u64, text: &[u8]) -> Option<OrderEvent>
    requires { at ≤ last_printed_moment }
    ensures value { result ≡ option_and_then (id_step at) (cut text.now) }
    ensures event { IfSome result IsEvent }
    ensures same { IfSome result (λ event. event_line event
        ≡ spaced (moment_text at) (spaced (codes "order") text.now)) }
{
    let (word, rest) = cut(text)?;
    let id = read_id(word)?;
    let (word, rest) = cut(rest)?;
    read_symbol(at, id, word, rest)
}

fn read_symbol(at: u64, id: u32, word: &[u8], rest: &[u8]) -> Option<OrderEvent>
    requires at { at ≤ last_printed_moment }
    requires id { (1 ≤ id) × (id ≤ 1000000) }
    ensures value { result ≡ symbol_step at id (word.now, rest.now) }
    ensures event { IfSome result IsEvent }
    ensures same { IfSome result (λ event. event_line event ≡ spaced (moment_text at)
        (spaced (codes "order") (spaced (decimal id) (spaced word.now rest.now)))) }
{
    let symbol = Symbol::read(word)?;
    let what = read_what(symbol, rest)?;
    Some(event_with(at, id, symbol, what))
}

fn event_with(at: u64, id: u32, symbol: Symbol, what: What) -> OrderEvent
    requires { at ≤ last_printed_moment }
    ensures { result ≡ event_with at id symbol what }
{
    OrderEvent {
        at: Moment(at as i64),
        id,
        symbol: Some(symbol),
        what,
    }
}

fn read_what(symbol: Symbol, text: &[u8]) -> Option<What>
    ensures value { result ≡ what_of_text symbol text.now }
    ensures what { IfSome result (IsWhat symbol) }
    ensures same { IfSome result (λ what. what_text what ≡ text.now) }
{
    if text == b"canceled".as_slice() {
        return Some(What::Canceled);
    }
    let (word, rest) = cut(text)?;
    read_word(symbol, word, rest)
}

fn read_word(symbol: Symbol, word: &[u8], rest: &[u8]) -> Option<What>
    ensures value { result ≡ what_step symbol (word.now, rest.now) }
    ensures what { IfSome result (IsWhat symbol) }
    ensures same { IfSome result (λ what. what_text what ≡ spaced word.now rest.now) }
{
    if word == b"submitted".as_slice() {
        return read_submitted(rest);
    }
    if word == b"updated".as_slice() {
        return read_updated(rest);
    }
    if word == b"filled".as_slice() {
        return read_filled(symbol, rest);
    }
    if word == b"invalid".as_slice() {
        return read_invalid(rest);
    }
    None
}

fn read_updated(text: &[u8]) -> Option<What>
    ensures value { result ≡ option_map Updated (price_of_text text.now) }
    ensures what { IfSome result (λ what. (s : List ℕ) → IsWhat s what) }
    ensures same { IfSome result (λ what. what_text what ≡ spaced (codes "updated") text.now) }
{
    let price = read_price(text)?;
    Some(What::Updated(price))
}

fn read_invalid(text: &[u8]) -> Option<What>
    ensures value { result ≡ option_map Invalid (cause_of_text text.now) }
    ensures what { IfSome result (λ what. (s : List ℕ) → IsWhat s what) }
    ensures same { IfSome result (λ what. what_text what ≡ spaced (codes "invalid") text.now) }
{
    let cause = read_cause(text)?;
    Some(What::Invalid(cause))
}

fn read_submitted(text: &[u8]) -> Option<What>
    ensures value { result ≡ submitted_of_text text.now }
    ensures what { IfSome result (λ what. (s : List ℕ) → IsWhat s what) }
    ensures same { IfSome result (λ what. what_text what ≡ spaced (codes "submitted") text.now) }
{
    let (word, rest) = cut(text)?;
    let kind = read_kind(word)?;
    let (word, rest) = cut(rest)?;
    let quantity = read_quantity(word)?;
    let (price, limit) = read_kept_prices(kind, rest)?;
    Some(What::Submitted(kind, quantity, price, limit))
}

// The price of a limit or stop order, that and the limit of a stop-limit order, and `-` for those of the others.
fn read_kept_prices(kind: Kind, text: &[u8]) -> Option<(Option<Price>, Option<Price>)>
    ensures value { result ≡ kept_prices_of kind text.now }
    ensures kept { IfSome result (λ prices. HasPricesOf kind prices.0 prices.1) }
    ensures same { IfSome result (λ prices. prices_text prices.0 prices.1 ≡ text.now) }
{
    match kind {
        Kind::Limit | Kind::Stop => one_price(text),
        Kind::Market | Kind::AtOpen => no_price(text),
        Kind::StopLimit => two_prices(text),
    }
}

fn no_price(text: &[u8]) -> Option<(Option<Price>, Option<Price>)>
    ensures value { result ≡ no_price text.now }
    ensures none { IfSome result (λ prices. HasPricesOf AtOpen prices.0 prices.1) }
    ensures same { IfSome result (λ prices. prices_text prices.0 prices.1 ≡ text.now) }
{
    if text == b"-".as_slice() {
        Some((None, None))
    } else {
        None
    }
}

fn one_price(text: &[u8]) -> Option<(Option<Price>, Option<Price>)>
    ensures value { result ≡ one_price text.now }
    ensures one { IfSome result (λ prices. HasPricesOf Limit prices.0 prices.1) }
    ensures same { IfSome result (λ prices. prices_text prices.0 prices.1 ≡ text.now) }
{
    let price = read_price(text)?;
    Some((Some(price), None))
}

fn two_prices(text: &[u8]) -> Option<(Option<Price>, Option<Price>)>
    ensures value { result ≡ two_prices text.now }
    ensures both { IfSome result (λ prices. HasPricesOf StopLimit prices.0 prices.1) }
    ensures same { IfSome result (λ prices. prices_text prices.0 prices.1 ≡ text.now) }
{
    let (word, rest) = cut(text)?;
    let price = read_price(word)?;
    let limit = read_price(rest)?;
    Some((Some(price), Some(limit)))
}

fn read_filled(symbol: Symbol, text: &[u8]) -> Option<What>
    ensures value { result ≡ filled_of_text symbol text.now }
    ensures what { IfSome result (IsWhat symbol) }
    ensures same { IfSome result (λ what. what_text what ≡ spaced (codes "filled") text.now) }
{
    let (word, rest) = cut(text)?;
    let quantity = read_quantity(word)?;
    let (word, rest) = cut(rest)?;
    let price = read_price(word)?;
    let (word, rest) = cut(rest)?;
    if word != b"fee".as_slice() {
        return None;
    }
    let fee = read_fee(rest)?;
    Some(What::Filled(Fill {
        symbol,
        quantity,
        price,
        fee,
    }))
}
