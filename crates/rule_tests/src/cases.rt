use rule_lang::{Expr, RuleFault, Want};
use std::alloc::Global;
use std::test::Fail;
use test_words::error_word;

// The expression that a text of the table is.
pub fn read(alloc: Global, text: &str, want: Want) -> Result<Result<Expr, RuleFault>, Fail> {
    if text.len() > 1_000 {
        return Err(Fail::from("a long text"));
    }
    Ok(Expr::read(alloc, text.as_bytes(), want))
}

// The word for a fault and its place.
pub fn fault_text(alloc: Global, fault: RuleFault) -> Result<String, Fail> {
    match fault {
        RuleFault::At(error, at) => Ok(format!(in alloc; "{} {at}", error_word(error))?),
        RuleFault::NoMemory => Ok(String::from_str(alloc, "no memory")?),
    }
}
