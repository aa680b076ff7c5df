//! The plain numbers of a line, read with no list of fields. Nearly every number of a file is digits alone, which are read
//! several at a time; where that fails, an exact reader goes byte by byte. The calls on the way of a usual row are inlined.

ghost use Rattle.std.specs.Prelude.{◌≡◌, ◌<◌, ◌≤◌, ◌^◌, length, option_map, IfSome};
ghost use Rattle.lean_fixed.specs.Digits.{is_digit};
ghost use Rattle.lean_fixed.specs.Fields.{fields};
ghost use Rattle.equity_csv.specs.Reading.{number_up_to, leading, first_of, number_and_rest, number_and_end, fields_after, after_end, after_zeros};

use core::dec2flt::read_digits;

/// Digits of which no number grows past 10^18.
const MOST_DIGITS: usize = 18;

// A number that a text begins with, and the text behind it.
#[derive(Clone, Copy)]
pub struct Leading<'t> {
    pub number: u64,
    pub behind: &'t [u8],
}

// The plain number that the text's first field is, and the fields after it. `None` where there is no further field, or the
// field is no plain number of at most `most`.
#[inline(always)]
pub fn take_number(text: &[u8], most: u64) -> Option<Leading<'_>>
    requires { most ≤ 10 ^ 18 }
    ensures read { number_and_rest result ≡ first_of (number_up_to most) (fields text.now) }
    ensures most { IfSome result (λ n. n.number ≤ most) }
{
    let leading = leading_number(text, most)?;
    if leading.behind.is_empty() {
        return None;
    }
    Some(Leading {
        number: leading.number,
        behind: &leading.behind[1..],
    })
}

// The plain number that the text's first field is, and what stands at the end of this field: nothing, or a comma and the
// further fields. `None` where the field is no plain number of at most `most`.
#[inline(always)]
pub fn leading_number(text: &[u8], most: u64) -> Option<Leading<'_>>
    requires { most ≤ 10 ^ 18 }
    ensures read { number_and_end result ≡ leading (number_up_to most) (fields text.now) }
    ensures most { IfSome result (λ n. n.number ≤ most) }
{
    match digits_alone(text, most) {
        Some(leading) => Some(leading),
        None => spelled_number(text, most),
    }
}

// The number of a first field that is at most eighteen digits and nothing else. `None` tells nothing of the field.
#[inline(always)]
fn digits_alone(text: &[u8], most: u64) -> Option<Leading<'_>>
    ensures read { IfSome result (λ n. leading (number_up_to most) (fields text.now)
        ≡ Some (n.number, fields_after n.behind.now)) }
    ensures most { IfSome result (λ n. n.number ≤ most) }
{
    let (end, number) = read_digits(text, 0, 0);
    if end == 0 || end > MOST_DIGITS || number > most {
        return None;
    }
    if end < text.len() && text[end] != b',' {
        return None;
    }
    Some(Leading {
        number,
        behind: &text[end..],
    })
}

// The same of a field in any spelling.
#[cold]
#[inline(never)]
fn spelled_number(text: &[u8], most: u64) -> Option<Leading<'_>>
    requires { most ≤ 10 ^ 18 }
    ensures read { number_and_end result ≡ leading (number_up_to most) (fields text.now) }
    ensures most { IfSome result (λ n. n.number ≤ most) }
{
    let [first, ..] = text else {
        return None;
    };
    if !is_decimal(*first) {
        return None;
    }
    let mut number: u64 = 0;
    for (i, byte) in text.iter().enumerate() {
        if !is_decimal(*byte) {
            let behind = after_number(&text[i..])?;
            return Some(Leading { number, behind });
        }
        number = number * 10 + (*byte - b'0') as u64;
        // A further digit makes the number no less, and so no number grows past 10^19.
        if number > most {
            return None;
        }
    }
    Some(Leading {
        number,
        behind: &text[text.len()..],
    })
}

fn is_decimal(byte: u8) -> bool
    ensures { result ≡ is_digit byte }
{
    byte.is_ascii_digit()
}

// What follows the field of a number whose digits end where this text begins.
fn after_number(tail: &[u8]) -> Option<&[u8]>
    requires { 0 < length tail.now }
    ensures { option_map (λ behind. fields_after behind.now) result ≡ after_end (fields tail.now) }
{
    match tail[0] {
        b',' => Some(tail),
        b'.' => after_fraction(&tail[1..]),
        _ => None,
    }
}

// What follows the field of a number behind whose point this text begins.
fn after_fraction(fraction: &[u8]) -> Option<&[u8]>
    ensures { option_map (λ behind. fields_after behind.now) result
        ≡ after_zeros (fields fraction.now) }
{
    for (i, byte) in fraction.iter().enumerate() {
        match *byte {
            b'0' => {}
            b',' => return Some(&fraction[i..]),
            _ => return None,
        }
    }
    Some(&fraction[fraction.len()..])
}
