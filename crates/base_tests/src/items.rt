//! The words of a report for the reasons of a malformed line.

use lean_items::Reason;
use std::alloc::{AllocError, Global};
use std::test::Fail;

const WORDS: &str = "many
long
fields
time
price
volume
range
order
";

fn words(alloc: Global) -> Result<String, AllocError> {
    let mut words = String::new(alloc);
    for reason in [
        Reason::Many,
        Reason::Long,
        Reason::Fields,
        Reason::Time,
        Reason::Price,
        Reason::Volume,
        Reason::Range,
        Reason::Order,
    ] {
        words.push_str(reason.word())?;
        words.push_str("\n")?;
    }
    Ok(words)
}

#[test]
fn each_reason_has_its_word(rt: HostRuntime) -> Result<(), Fail> {
    let words = words(rt.alloc())?;
    assert_eq!(rt; words.as_str(), WORDS);
    Ok(())
}
