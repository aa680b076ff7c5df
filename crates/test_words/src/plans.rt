//! Algorithm files in short.

use std::alloc::Global;
use std::fmt::Write;
use std::test::Fail;

/// The algorithm file of some short lines. `run FIRST LAST CASH` is the window and the cash, `fees SHARE LEAST` the fee a share and
/// the least one. `bars SYMBOL` is a security of minutes that are not filled forward, `filled SYMBOL` one whose minutes are, and
/// `merged SYMBOL PERIOD` one whose minutes are put together, too. `choose TOP` is a universe of minutes that are not filled
/// forward. `cancel when CONDITION`, `update at PRICE when CONDITION`, `KIND QUANTITY when CONDITION` and `KIND QUANTITY at PRICE
/// when CONDITION` are rules, for one security alone with `for SYMBOL` behind. Any other line stands as it is.
pub fn file_of(alloc: Global, short: &str) -> Result<String, Fail> {
    let mut file = String::new(alloc);
    for line in short.lines() {
        append_line(line, &mut file)?;
    }
    Ok(file)
}

fn append_line(line: &str, file: &mut String) -> Result<(), Fail> {
    match line.split_once(" when ") {
        Some((act, condition)) => append_rule(act, condition, file),
        None => append_setting(line, file),
    }
}

fn append_setting(line: &str, file: &mut String) -> Result<(), Fail> {
    let (word, rest) = line.split_once(' ').unwrap_or((line, ""));
    match word {
        "run" => append_run(rest, file),
        "fees" => append_fees(rest, file),
        "bars" => append_security(rest, "fill-forward = false\n", file),
        "filled" => append_security(rest, "", file),
        "merged" => append_merged(rest, file),
        "choose" => append_universe(rest, file),
        _ => append_text(line, file),
    }
}

fn append_text(line: &str, file: &mut String) -> Result<(), Fail> {
    writeln!(file, "{line}")?;
    Ok(())
}

fn append_run(words: &str, file: &mut String) -> Result<(), Fail> {
    let (first, rest) = words.split_once(' ').ok_or("a last day")?;
    let (last, cash) = rest.split_once(' ').ok_or("a cash")?;
    write!(file, "start = \"{first}\"\nend = \"{last}\"\n")?;
    writeln!(file, "cash = \"{cash}\"")?;
    Ok(())
}

fn append_fees(words: &str, file: &mut String) -> Result<(), Fail> {
    let (share, least) = words.split_once(' ').ok_or("a least fee")?;
    write!(
        file,
        "fee-per-share = \"{share}\"\nfee-minimum = \"{least}\"\n"
    )?;
    Ok(())
}

fn append_security(symbol: &str, more: &str, file: &mut String) -> Result<(), Fail> {
    write!(
        file,
        "[[securities]]\nsymbol = \"{symbol}\"\nresolution = \"minute\"\n{more}"
    )?;
    Ok(())
}

fn append_merged(words: &str, file: &mut String) -> Result<(), Fail> {
    let (symbol, period) = words.split_once(' ').ok_or("a period")?;
    append_security(symbol, "", file)?;
    writeln!(file, "period = {period}")?;
    Ok(())
}

fn append_universe(top: &str, file: &mut String) -> Result<(), Fail> {
    write!(
        file,
        "[universe]\nresolution = \"minute\"\nfill-forward = false\ntop = {top}\n"
    )?;
    Ok(())
}

fn append_rule(act: &str, condition: &str, file: &mut String) -> Result<(), Fail> {
    match condition.split_once(" for ") {
        None => append_act(act, condition, file),
        Some((condition, symbol)) => {
            append_act(act, condition, file)?;
            writeln!(file, "symbol = \"{symbol}\"")?;
            Ok(())
        }
    }
}

fn append_act(act: &str, condition: &str, file: &mut String) -> Result<(), Fail> {
    write!(file, "[[rules]]\nwhen = \"{condition}\"\n")?;
    match act.split_once(" at ") {
        None => append_order(act, file),
        Some((order, price)) => {
            append_order(order, file)?;
            writeln!(file, "price = \"{price}\"")?;
            Ok(())
        }
    }
}

fn append_order(order: &str, file: &mut String) -> Result<(), Fail> {
    match order.split_once(' ') {
        None => writeln!(file, "do = \"{order}\"")?,
        Some((kind, quantity)) => {
            write!(
                file,
                "do = \"order\"\nkind = \"{kind}\"\nquantity = \"{quantity}\"\n"
            )?
        }
    }
    Ok(())
}
