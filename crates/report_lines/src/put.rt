//! What is appended where there is room for it.
ghost use Rattle.std.specs.Prelude.{◌≡◌, ◌+◌, ◌≤◌, [], ◌∷◌, ◌++◌, length, decimal, unsigned_abs, vec_len, vec_capacity};
ghost use Rattle.std.specs.Fmt.{sign_text};
ghost use Rattle.lean_fixed.specs.Printed.{money_text, moment_text};
ghost use Rattle.lean_fixed.specs.Ranges.{IsPrintedMoment};
ghost use Rattle.report_lines.specs.EventLines.{quantity_text};

use itoa::Buffer;
use lean_fixed::{Moment, Money, Price, Shares, laws, moment_text, money_text, price_text};

/// Appends some bytes.
pub fn put(bytes: &[u8], out: &mut Vec<u8>)
    requires { vec_len out.old + length bytes.now ≤ vec_capacity out.old }
    ensures items { out.new.items ≡ out.old.items ++ bytes.now }
    ensures len { vec_len out.new ≡ vec_len out.old + length bytes.now }
    ensures capacity { vec_capacity out.old ≤ vec_capacity out.new }
{
    out.extend_from_slice(bytes).unwrap();
}

/// Appends a word and a space.
pub fn put_word(word: &[u8], out: &mut Vec<u8>)
    requires { vec_len out.old + length word.now + 1 ≤ vec_capacity out.old }
    ensures items { out.new.items ≡ out.old.items ++ (word.now ++ 32 ∷ []) }
    ensures len { vec_len out.new ≡ vec_len out.old + length word.now + 1 }
    ensures capacity { vec_capacity out.old ≤ vec_capacity out.new }
{
    put(word, out);
    put(b" ", out);
}

/// Appends the digits of a number.
pub fn put_number(number: u64, out: &mut Vec<u8>)
    requires { vec_len out.old + 40 ≤ vec_capacity out.old }
    ensures items { out.new.items ≡ out.old.items ++ decimal number }
    ensures len { vec_len out.new ≤ vec_len out.old + 40 }
    ensures capacity { vec_capacity out.old ≤ vec_capacity out.new }
{
    let mut digits = Buffer::new();
    put(digits.format(number).as_bytes(), out);
}

/// Appends a signed quantity.
pub fn put_quantity(quantity: Shares, out: &mut Vec<u8>)
    requires { vec_len out.old + 41 ≤ vec_capacity out.old }
    ensures items { out.new.items ≡ out.old.items ++ quantity_text quantity.0 }
    ensures len { vec_len out.new ≤ vec_len out.old + 41 }
    ensures capacity { vec_capacity out.old ≤ vec_capacity out.new }
{
    put(sign_of(quantity.0.is_negative()), out);
    put_number(quantity.0.unsigned_abs(), out);
}

fn sign_of(negative: bool) -> &'static [u8]
    ensures value { result.now ≡ sign_text negative }
    ensures short { length result.now ≤ 1 }
{
    if negative { b"-" } else { b"" }
}

/// Appends a price in dollars.
pub fn put_price(price: Price, out: &mut Vec<u8>)
    requires { vec_len out.old + 21 ≤ vec_capacity out.old }
    ensures items { out.new.items ≡ out.old.items ++ money_text price.0 }
    ensures len { vec_len out.new ≤ vec_len out.old + 21 }
    ensures capacity { vec_capacity out.old ≤ vec_capacity out.new }
{
    laws::price_text_is_short(price);
    price_text(price, out).unwrap();
}

/// Appends an amount of money in dollars.
pub fn put_money(money: Money, out: &mut Vec<u8>)
    requires { vec_len out.old + 41 ≤ vec_capacity out.old }
    ensures items { out.new.items ≡ out.old.items ++ money_text money.0 }
    ensures len { vec_len out.new ≤ vec_len out.old + 41 }
    ensures capacity { vec_capacity out.old ≤ vec_capacity out.new }
{
    laws::money_text_is_short(money);
    money_text(money, out).unwrap();
}

/// Appends a moment.
pub fn put_moment(moment: Moment, out: &mut Vec<u8>)
    requires moment { IsPrintedMoment moment.0 }
    requires room { vec_len out.old + 14 ≤ vec_capacity out.old }
    ensures items { out.new.items ≡ out.old.items ++ moment_text (unsigned_abs moment.0) }
    ensures len { vec_len out.new ≤ vec_len out.old + 14 }
    ensures capacity { vec_capacity out.old ≤ vec_capacity out.new }
{
    laws::moment_reads_back();
    moment_text(moment, out).unwrap();
}
