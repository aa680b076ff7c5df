//! From bytes to tokens.

ghost use Rattle.std.specs.Prelude.{◌≡◌, ℕ, ◌+◌, ◌≤◌, ◌&&◌, nat_le, nat_eq, bytes_eq, true, length, take_while, Some, IfSome, option_map};
ghost use Rattle.std.specs.Option.{ForSome};
ghost use Rattle.std.specs.List.{list_all, starts_with};
ghost use Rattle.lean_fixed.specs.Digits.{is_digit, value_of};
ghost use Rattle.rule_lang.specs.Tokens.{front_of, lexeme_among, sign_at, word_at, numeral, number_at, places_at, table, tokens, IsWithin};
ghost use Rattle.rule_lang.specs.Reading.{Gives};

use crate::token::{Arithmetic, Comparison, Front, Kind, Name, Op, Token};
use crate::{RuleError, RuleFault};
use bar_windows::Func;
use std::alloc::Global;

/// The words of the language.
const WORDS: [(&[u8], Kind); 18] = [
    (b"or", Kind::Operator(Op::Or)),
    (b"and", Kind::Operator(Op::And)),
    (b"not", Kind::Not),
    (b"open", Kind::Name(Name::Open)),
    (b"high", Kind::Name(Name::High)),
    (b"low", Kind::Name(Name::Low)),
    (b"close", Kind::Name(Name::Close)),
    (b"volume", Kind::Name(Name::Volume)),
    (b"price", Kind::Name(Name::Price)),
    (b"position", Kind::Name(Name::Position)),
    (b"cash", Kind::Name(Name::Cash)),
    (b"equity", Kind::Name(Name::Equity)),
    (b"orders", Kind::Name(Name::Orders)),
    (b"time", Kind::Name(Name::Time)),
    (b"sma", Kind::Func(Func::Sma)),
    (b"highest", Kind::Func(Func::Highest)),
    (b"lowest", Kind::Func(Func::Lowest)),
    (b"change", Kind::Func(Func::Change)),
];

/// Its signs, the longer before those that they begin with.
const SIGNS: [(&[u8], Kind); 12] = [
    (b"<=", Kind::Operator(Op::Compare(Comparison::AtMost))),
    (b"<", Kind::Operator(Op::Compare(Comparison::Less))),
    (b">=", Kind::Operator(Op::Compare(Comparison::AtLeast))),
    (b">", Kind::Operator(Op::Compare(Comparison::Greater))),
    (b"==", Kind::Operator(Op::Compare(Comparison::Equal))),
    (b"!=", Kind::Operator(Op::Compare(Comparison::Unequal))),
    (b"+", Kind::Operator(Op::Compute(Arithmetic::Plus))),
    (b"-", Kind::Operator(Op::Compute(Arithmetic::Minus))),
    (b"*", Kind::Operator(Op::Compute(Arithmetic::Times))),
    (b"/", Kind::Operator(Op::Compute(Arithmetic::Over))),
    (b"(", Kind::Opening),
    (b")", Kind::Closing),
];

/// The most digits of a number before its point, and behind it.
const MOST_DIGITS: usize = 18;

const MOST_PLACES: usize = 4;

/// The tokens of a text and the end behind them, or the first fault.
pub fn tokens(alloc: Global, text: &[u8]) -> Result<Vec<Token>, RuleFault>
    requires { length text.now ≤ 1000 }
    ensures { Gives (λ v. v.items) result (tokens text.now) }
{
    let mut tokens = Vec::new(alloc);
    let mut at = 0;
    while at < text.len() {
        match front_of(&text[at..]) {
            Front::Blank => at += 1,
            Front::Lexeme(kind, size) => {
                tokens.push(Token {
                    kind,
                    at: at as u32,
                })?;
                // a token has at least one byte
                at += size.max(1);
            }
            Front::Bad(error) => return Err(RuleFault::At(error, at as u32)),
        }
    }
    tokens.push(Token {
        kind: Kind::End,
        at: text.len() as u32,
    })?;
    Ok(tokens)
}

// What stands at the front of a text, by its first byte.
#[tactic(auto, unfolding(crate::specs::Tokens::front_of))]
fn front_of(text: &[u8]) -> Front
    ensures front { result ≡ front_of text.now }
    ensures within { IsWithin result (length text.now) }
{
    match text {
        [] => Front::Bad(RuleError::Token),
        [b' ' | b'\t', ..] => Front::Blank,
        [b'0'..=b'9', ..] => number_at(text),
        [b'a'..=b'z', ..] => word_at(text),
        _ => sign_at(text),
    }
}

// The first bytes of a text that lie from one to another.
#[tactic(auto, using(crate::proofs::Runs::runs))]
fn run(text: &[u8], low: u8, high: u8) -> &[u8]
    ensures run { result.now ≡ take_while (λ b. nat_le low b && nat_le b high) text.now }
    ensures each { list_all (λ b. nat_le low b && nat_le b high) result.now ≡ true }
    ensures within { length result.now ≤ length text.now }
{
    for (i, byte) in text.iter().enumerate() {
        if *byte < low || *byte > high {
            return &text[..i];
        }
    }
    text
}

#[tactic(auto, unfolding(crate::specs::Tokens::word_at))]
fn word_at(text: &[u8]) -> Front
    ensures front { result ≡ word_at text.now }
    ensures within { IsWithin result (length text.now) }
{
    entry_of(&WORDS, run(text, b'a', b'z'))
}

// The entry of a table that is this word.
#[tactic(auto, using(crate::proofs::Runs::tables))]
fn entry_of(entries: &[(&[u8], Kind)], word: &[u8]) -> Front
    ensures entry { result ≡ lexeme_among (λ entry. bytes_eq entry word.now) (table entries.now) }
    ensures within { IsWithin result (length word.now) }
{
    for (entry, kind) in entries {
        if *entry == word {
            return Front::Lexeme(*kind, entry.len());
        }
    }
    Front::Bad(RuleError::Token)
}

#[tactic(auto, unfolding(crate::specs::Tokens::sign_at))]
fn sign_at(text: &[u8]) -> Front
    ensures front { result ≡ sign_at text.now }
    ensures within { IsWithin result (length text.now) }
{
    leading_entry(&SIGNS, text)
}

// The first entry of a table with which a text begins.
#[tactic(auto, using(crate::proofs::Runs::tables))]
fn leading_entry(entries: &[(&[u8], Kind)], text: &[u8]) -> Front
    ensures entry { result ≡ lexeme_among (λ entry. starts_with nat_eq text.now entry) (table entries.now) }
    ensures within { IsWithin result (length text.now) }
{
    for (entry, kind) in entries {
        if text.starts_with(entry) {
            return Front::Lexeme(*kind, entry.len());
        }
    }
    Front::Bad(RuleError::Token)
}

#[tactic(auto, unfolding(crate::specs::Tokens::number_at))]
fn number_at(text: &[u8]) -> Front
    ensures front { result ≡ number_at text.now }
    ensures within { IsWithin result (length text.now) }
{
    let whole = run(text, b'0', b'9');
    numeral(whole, places_at(&text[whole.len()..]))
}

// The digits behind the point with which a text begins.
fn places_at(text: &[u8]) -> Option<&[u8]>
    ensures places { option_map (λ places. places.now) result ≡ places_at text.now }
    ensures digits { IfSome result (λ places. list_all is_digit places.now ≡ true) }
    ensures within { IfSome result (λ places. 1 + length places.now ≤ length text.now) }
{
    match text {
        [b'.', places @ ..] => Some(run(places, b'0', b'9')),
        _ => None,
    }
}

// A number of these digits before its point, and these behind it if it has one.
fn numeral(whole: &[u8], places: Option<&[u8]>) -> Front
    requires whole { list_all is_digit whole.now ≡ true }
    requires places { ForSome places (λ places. list_all is_digit places.now ≡ true) }
    ensures front { result ≡ numeral whole.now (option_map (λ p. p.now) places.entry) }
    ensures within { (most : ℕ) → length whole.now ≤ most
        → ForSome places.entry (λ places. length whole.now + 1 + length places.now ≤ most) → IsWithin result most }
{
    if whole.len() > MOST_DIGITS {
        return Front::Bad(RuleError::Number);
    }
    match places {
        None => Front::Lexeme(Kind::Whole(value(whole)), whole.len()),
        Some(places) => decimal(whole, places),
    }
}

fn decimal(whole: &[u8], places: &[u8]) -> Front
    requires whole { list_all is_digit whole.now ≡ true }
    requires short { length whole.now ≤ 18 }
    requires places { list_all is_digit places.now ≡ true }
    ensures front { result ≡ numeral whole.now (Some places.now) }
    ensures within { IsWithin result (length whole.now + 1 + length places.now) }
{
    if !are_places(places) {
        return Front::Bad(RuleError::Number);
    }
    let units = value(whole) as u128 * 10_000;
    let rest = value(places) as u128 * 10u128.pow(4 - places.len() as u32);
    Front::Lexeme(
        Kind::Decimal((units + rest) as i128),
        whole.len() + 1 + places.len(),
    )
}

// Whether so many digits may stand behind a point.
fn are_places(places: &[u8]) -> bool
    ensures { result ≡ nat_le 1 (length places.now) && nat_le (length places.now) 4 }
{
    !places.is_empty() && places.len() <= MOST_PLACES
}

// What at most 18 digits stand for.
#[tactic(auto, using(crate::proofs::Runs::digits))]
fn value(digits: &[u8]) -> u64
    requires digits { list_all is_digit digits.now ≡ true }
    requires short { length digits.now ≤ 18 }
    ensures { result ≡ value_of digits.now }
{
    let mut value: u64 = 0;
    for digit in digits {
        value = value * 10 + (*digit - b'0') as u64;
    }
    value
}
