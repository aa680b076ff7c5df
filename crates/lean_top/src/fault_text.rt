//! The words that a report gives for a fault of an algorithm file.
ghost use Rattle.std.specs.Prelude.{◌≡◌, ◌++◌, ◌∷◌, map, take, decimal, IfOk, OnOk};
ghost use Rattle.lean_top.specs.AlgorithmRead.{shown_byte, shown_key, part_word, error_word, rule_words};
ghost use Rattle.lean_top.specs.AlgorithmGiven.{AreWordsOf};

use itoa::Buffer;
use lean_fixed::NoMemory;
use rule_lang::RuleError;
use rule_strategy::{Part, PlanFault};
use std::alloc::Global;

/// How many bytes of a key are shown.
const SHOWN: usize = 64;

/// The words for a fault. `NoMemory`: there is no memory for them, or the fault is that.
pub fn fault_words(alloc: Global, fault: &PlanFault) -> Result<Vec<u8>, NoMemory>
    ensures { IfOk result (λ words. AreWordsOf fault.now words.items) }
{
    match fault {
        PlanFault::Toml => bytes_of(alloc, b"toml"),
        PlanFault::Missing(key) => words_with(alloc, b"missing ", key.bytes()),
        PlanFault::Unknown(key) => words_with(alloc, b"unknown ", key.bytes()),
        PlanFault::Value(key) => words_with(alloc, b"value ", key.bytes()),
        PlanFault::Limit(key) => words_with(alloc, b"limit ", key.bytes()),
        PlanFault::Rule(number, part, error, place) => {
            rule_words(alloc, *number, *part, *error, *place)
        }
        PlanFault::NoMemory => Err(NoMemory),
    }
}

/// A text of these bytes.
pub fn bytes_of(alloc: Global, bytes: &[u8]) -> Result<Vec<u8>, NoMemory>
    ensures { IfOk result (λ text. text.items ≡ bytes.now) }
{
    let mut text = Vec::new(alloc);
    text.extend_from_slice(bytes)?;
    Ok(text)
}

// A word and a space, and then what is shown of a key.
fn words_with(alloc: Global, word: &[u8], key: &[u8]) -> Result<Vec<u8>, NoMemory>
    ensures { IfOk result (λ words. words.items ≡ word.now ++ shown_key key.now) }
{
    let mut words = bytes_of(alloc, word)?;
    append_shown(front_of(key), &mut words)?;
    Ok(words)
}

// The bytes of a key that are shown.
fn front_of(key: &[u8]) -> &[u8]
    ensures { result.now ≡ take 64 key.now }
{
    if key.len() < SHOWN {
        return key;
    }
    &key[..SHOWN]
}

// Appends a key with `?` in place of each byte that is no printed one of ASCII.
fn append_shown(key: &[u8], words: &mut Vec<u8>) -> Result<(), NoMemory>
    ensures { OnOk result (words.new.items ≡ words.old.items ++ map shown_byte key.now) }
{
    for byte in key {
        words.push(shown(*byte))?;
    }
    Ok(())
}

fn shown(byte: u8) -> u8
    ensures { result ≡ shown_byte byte }
{
    if byte < 32 {
        return b'?';
    }
    if byte > 126 {
        return b'?';
    }
    byte
}

// The words for an error in a rule.
#[tactic(auto, unfolding(crate::specs::AlgorithmRead::rule_words))]
fn rule_words(
    alloc: Global,
    number: u32,
    part: Part,
    error: RuleError,
    place: u32,
) -> Result<Vec<u8>, NoMemory>
    ensures { IfOk result (λ words. words.items ≡ rule_words number part error place) }
{
    let mut words = bytes_of(alloc, b"rule ")?;
    append_number(number, &mut words)?;
    append_word(part_word(part), &mut words)?;
    append_error(error, place, &mut words)?;
    Ok(words)
}

fn append_error(error: RuleError, place: u32, words: &mut Vec<u8>) -> Result<(), NoMemory>
    ensures { OnOk result (words.new.items ≡ words.old.items ++ 32 ∷ error_word error ++ 32 ∷ decimal place) }
{
    append_word(error_word(error), words)?;
    words.push(b' ')?;
    append_number(place, words)
}

// Appends a space and a word.
fn append_word(word: &str, words: &mut Vec<u8>) -> Result<(), NoMemory>
    ensures { OnOk result (words.new.items ≡ words.old.items ++ 32 ∷ word.now) }
{
    words.push(b' ')?;
    words.extend_from_slice(word.as_bytes())?;
    Ok(())
}

fn append_number(number: u32, words: &mut Vec<u8>) -> Result<(), NoMemory>
    ensures { OnOk result (words.new.items ≡ words.old.items ++ decimal number) }
{
    let mut buffer = Buffer::new();
    words.extend_from_slice(buffer.format(number).as_bytes())?;
    Ok(())
}

fn part_word(part: Part) -> &'static str
    ensures { result.now ≡ part_word part }
{
    match part {
        Part::When => "when",
        Part::Quantity => "quantity",
        Part::Price => "price",
        Part::Limit => "limit",
    }
}

fn error_word(error: RuleError) -> &'static str
    ensures { result.now ≡ error_word error }
{
    match error {
        RuleError::Token => "token",
        RuleError::Number => "number",
        RuleError::Syntax => "syntax",
        RuleError::Depth => "depth",
        RuleError::WrongType => "type",
    }
}
