ghost use Rattle.std.specs.Prelude.{◌≡◌, ◌+◌, ◌≤◌, [], ◌∷◌, ◌++◌, OnOk, OnErr, codes, decimal, unsigned_abs, vec_len, vec_capacity};
ghost use Rattle.lean_fixed.specs.Printed.{moment_text};
ghost use Rattle.lean_fixed.specs.Ranges.{IsPrintedMoment};
ghost use Rattle.lean_orders.specs.declared.event.What.TheVariants.{Submitted, Updated, Filled, Invalid};
ghost use Rattle.report_lines.specs.EventLines.{price_or_dash, prices_text, symbol_text, what_text, event_line};

use crate::kinds::{cause_word, kind_word};
use crate::put::{put, put_moment, put_money, put_number, put_price, put_quantity, put_word};
use lean_fixed::{Moment, NoMemory, Price, Shares, Symbol, laws};
use lean_orders::{Cause, Fill, Kind, OrderEvent, What};

// More bytes than any line has.
const ROOM: usize = 256;

/// Appends the line of an event and an LF. Its moment is one that has a text. It is read back as the event (`read_event`)
/// where the symbol is there, a fill's own symbol is the event's, and the numbers are in their ranges. At `NoMemory` the
/// vector is as it was.
pub fn write_event(event: &OrderEvent, out: &mut Vec<u8>) -> Result<(), NoMemory>
    requires { IsPrintedMoment event.now.at.0 }
    ensures ok { OnOk result (out.new.items ≡ out.old.items ++ (event_line event.now ++ 10 ∷ [])) }
    ensures err { OnErr result (out.new.items ≡ out.old.items) }
{
    match out.reserve(ROOM) {
        Ok(()) => {
            put_line(event, out);
            Ok(())
        }
        Err(_) => Err(NoMemory),
    }
}

fn put_line(event: &OrderEvent, out: &mut Vec<u8>)
    requires event { IsPrintedMoment event.now.at.0 }
    requires room { vec_len out.old + 256 ≤ vec_capacity out.old }
    ensures { out.new.items ≡ out.old.items ++ (event_line event.now ++ 10 ∷ []) }
{
    put_head(event.at, event.id, out);
    put_tail(event.symbol, &event.what, out);
}

// The moment, the word order and the id.
fn put_head(at: Moment, id: u32, out: &mut Vec<u8>)
    requires event { IsPrintedMoment at.0 }
    requires room { vec_len out.old + 62 ≤ vec_capacity out.old }
    ensures items { out.new.items ≡ out.old.items
        ++ (moment_text (unsigned_abs at.0) ++ 32 ∷ (codes "order" ++ 32 ∷ (decimal id ++ 32 ∷ []))) }
    ensures len { vec_len out.new ≤ vec_len out.old + 62 }
    ensures capacity { vec_capacity out.old ≤ vec_capacity out.new }
{
    put_moment(at, out);
    put(b" ", out);
    put_word(b"order", out);
    put_number(id as u64, out);
    put(b" ", out);
}

// The symbol, what happened, and the LF.
fn put_tail(symbol: Option<Symbol>, what: &What, out: &mut Vec<u8>)
    requires { vec_len out.old + 134 ≤ vec_capacity out.old }
    ensures { out.new.items ≡ out.old.items
        ++ (symbol_text symbol ++ 32 ∷ (what_text what.now ++ 10 ∷ [])) }
{
    put_symbol(symbol, out);
    put(b" ", out);
    put_what(what, out);
    put(b"\n", out);
}

fn put_symbol(symbol: Option<Symbol>, out: &mut Vec<u8>)
    requires { vec_len out.old + 12 ≤ vec_capacity out.old }
    ensures items { out.new.items ≡ out.old.items ++ symbol_text symbol }
    ensures len { vec_len out.new ≤ vec_len out.old + 12 }
    ensures capacity { vec_capacity out.old ≤ vec_capacity out.new }
{
    match symbol {
        Some(symbol) => {
            laws::symbol_is_short(symbol);
            put(symbol.bytes(), out);
        }
        None => {}
    }
}

fn put_what(what: &What, out: &mut Vec<u8>)
    requires { vec_len out.old + 120 ≤ vec_capacity out.old }
    ensures items { out.new.items ≡ out.old.items ++ what_text what.now }
    ensures len { vec_len out.new ≤ vec_len out.old + 120 }
    ensures capacity { vec_capacity out.old ≤ vec_capacity out.new }
{
    match what {
        What::Submitted(kind, quantity, price, limit) => {
            put_submitted(*kind, *quantity, *price, *limit, out)
        }
        What::Updated(price) => put_updated(*price, out),
        What::Filled(fill) => put_filled(fill, out),
        What::Canceled => put(b"canceled", out),
        What::Invalid(cause) => put_invalid(*cause, out),
    }
}

fn put_submitted(
    kind: Kind,
    quantity: Shares,
    price: Option<Price>,
    limit: Option<Price>,
    out: &mut Vec<u8>,
)
    requires { vec_len out.old + 120 ≤ vec_capacity out.old }
    ensures items { out.new.items ≡ out.old.items ++ what_text (Submitted kind quantity price limit) }
    ensures len { vec_len out.new ≤ vec_len out.old + 120 }
    ensures capacity { vec_capacity out.old ≤ vec_capacity out.new }
{
    put_word(b"submitted", out);
    put_word(kind_word(kind), out);
    put_quantity(quantity, out);
    put(b" ", out);
    put_prices(price, limit, out);
}

// A price or `-`, and behind it the limit where there is one.
fn put_prices(price: Option<Price>, limit: Option<Price>, out: &mut Vec<u8>)
    requires { vec_len out.old + 43 ≤ vec_capacity out.old }
    ensures items { out.new.items ≡ out.old.items ++ prices_text price limit }
    ensures len { vec_len out.new ≤ vec_len out.old + 43 }
    ensures capacity { vec_capacity out.old ≤ vec_capacity out.new }
{
    put_price_or_dash(price, out);
    match limit {
        Some(limit) => {
            put(b" ", out);
            put_price(limit, out);
        }
        None => {}
    }
}

fn put_price_or_dash(price: Option<Price>, out: &mut Vec<u8>)
    requires { vec_len out.old + 21 ≤ vec_capacity out.old }
    ensures items { out.new.items ≡ out.old.items ++ price_or_dash price }
    ensures len { vec_len out.new ≤ vec_len out.old + 21 }
    ensures capacity { vec_capacity out.old ≤ vec_capacity out.new }
{
    match price {
        Some(price) => put_price(price, out),
        None => put(b"-", out),
    }
}

fn put_updated(price: Price, out: &mut Vec<u8>)
    requires { vec_len out.old + 120 ≤ vec_capacity out.old }
    ensures items { out.new.items ≡ out.old.items ++ what_text (Updated price) }
    ensures len { vec_len out.new ≤ vec_len out.old + 120 }
    ensures capacity { vec_capacity out.old ≤ vec_capacity out.new }
{
    put_word(b"updated", out);
    put_price(price, out);
}

fn put_filled(fill: &Fill, out: &mut Vec<u8>)
    requires { vec_len out.old + 120 ≤ vec_capacity out.old }
    ensures items { out.new.items ≡ out.old.items ++ what_text (Filled fill.now) }
    ensures len { vec_len out.new ≤ vec_len out.old + 120 }
    ensures capacity { vec_capacity out.old ≤ vec_capacity out.new }
{
    put_word(b"filled", out);
    put_quantity(fill.quantity, out);
    put(b" ", out);
    put_price(fill.price, out);
    put(b" ", out);
    put_word(b"fee", out);
    put_money(fill.fee, out);
}

fn put_invalid(cause: Cause, out: &mut Vec<u8>)
    requires { vec_len out.old + 120 ≤ vec_capacity out.old }
    ensures items { out.new.items ≡ out.old.items ++ what_text (Invalid cause) }
    ensures len { vec_len out.new ≤ vec_len out.old + 120 }
    ensures capacity { vec_capacity out.old ≤ vec_capacity out.new }
{
    put_word(b"invalid", out);
    put(cause_word(cause), out);
}
