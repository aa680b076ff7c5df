ghost use Rattle.std.specs.Prelude.{◌≡◌, ◌≤◌, length, IfSome};
ghost use Rattle.report_lines.specs.EventLines.{kind_text, cause_text};
ghost use Rattle.report_lines.specs.Reading.{kind_of_text, cause_of_text};

use lean_orders::{Cause, Kind};

/// The word of a kind.
pub fn kind_word(kind: Kind) -> &'static [u8]
    ensures value { result.now ≡ kind_text kind }
    ensures short { length result.now ≤ 10 }
{
    match kind {
        Kind::Market => b"market",
        Kind::Limit => b"limit",
        Kind::Stop => b"stop",
        Kind::AtOpen => b"open",
        Kind::StopLimit => b"stop-limit",
    }
}

/// The kind of a word.
pub fn read_kind(word: &[u8]) -> Option<Kind>
    ensures value { result ≡ kind_of_text word.now }
    ensures same { IfSome result (λ kind. kind_text kind ≡ word.now) }
{
    if word == b"market".as_slice() {
        return Some(Kind::Market);
    }
    if word == b"limit".as_slice() {
        return Some(Kind::Limit);
    }
    if word == b"stop".as_slice() {
        return Some(Kind::Stop);
    }
    if word == b"open".as_slice() {
        return Some(Kind::AtOpen);
    }
    if word == b"stop-limit".as_slice() {
        return Some(Kind::StopLimit);
    }
    None
}

/// The word of a cause.
pub fn cause_word(cause: Cause) -> &'static [u8]
    ensures value { result.now ≡ cause_text cause }
    ensures short { length result.now ≤ 12 }
{
    match cause {
        Cause::Quantity => b"quantity",
        Cause::NoPrice => b"no-price",
        Cause::PriceForm => b"price",
        Cause::BuyingPower => b"buying-power",
        Cause::Unknown => b"unknown",
        Cause::Closed => b"closed",
    }
}

/// The cause of a word.
pub fn read_cause(word: &[u8]) -> Option<Cause>
    ensures value { result ≡ cause_of_text word.now }
    ensures same { IfSome result (λ cause. cause_text cause ≡ word.now) }
{
    if word == b"quantity".as_slice() {
        return Some(Cause::Quantity);
    }
    if word == b"no-price".as_slice() {
        return Some(Cause::NoPrice);
    }
    if word == b"price".as_slice() {
        return Some(Cause::PriceForm);
    }
    if word == b"buying-power".as_slice() {
        return Some(Cause::BuyingPower);
    }
    if word == b"unknown".as_slice() {
        return Some(Cause::Unknown);
    }
    if word == b"closed".as_slice() {
        return Some(Cause::Closed);
    }
    None
}
