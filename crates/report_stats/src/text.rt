//! The lines of a summary.
ghost use Rattle.std.specs.Prelude.{◌≡◌, ◌++◌, ◌∷◌, [], OnOk, decimal};
ghost use Rattle.report_lines.specs.EventLines.{quantity_text};
ghost use Rattle.lean_fixed.specs.Printed.{money_text as printed};
ghost use Rattle.clock_run.specs.Summary.{counts_line, amount_line, hold_line};

use itoa::Buffer;
use lean_fixed::{Money, NoMemory, Price, Shares, Symbol, money_text, price_text};

/// Appends the line of the numbers of orders, of fills and of live orders. At `NoMemory` a front of it may stand there.
pub(crate) fn append_counts(
    orders: u64,
    fills: u64,
    live: u64,
    out: &mut Vec<u8>,
) -> Result<(), NoMemory>
    ensures { OnOk result (out.new.items ≡ out.old.items ++ counts_line orders fills live) }
{
    append_count(b"end ", orders, out)?;
    append_count(b" orders ", fills, out)?;
    append_count(b" fills ", live, out)?;
    append(b" open\n", out)
}

/// Appends a line of an amount of money behind its name.
pub(crate) fn append_amount(name: &[u8], amount: Money, out: &mut Vec<u8>) -> Result<(), NoMemory>
    ensures { OnOk result (out.new.items ≡ out.old.items ++ amount_line name.now amount.0) }
{
    append(name, out)?;
    append(b" ", out)?;
    money_text(amount, out)?;
    append(b"\n", out)
}

/// Appends the line of a position.
pub(crate) fn append_holding(
    symbol: &Symbol,
    position: Shares,
    price: Price,
    out: &mut Vec<u8>,
) -> Result<(), NoMemory>
    ensures { OnOk result (out.new.items ≡ out.old.items ++ hold_line symbol.now position.0 price.0) }
{
    append(b"hold ", out)?;
    append(symbol.bytes(), out)?;
    append_position(position, out)?;
    append_price(price, out)
}

fn append_position(position: Shares, out: &mut Vec<u8>) -> Result<(), NoMemory>
    ensures { OnOk result (out.new.items ≡ out.old.items ++ 32 ∷ quantity_text position.0) }
{
    append(b" ", out)?;
    if position.0 < 0 {
        append(b"-", out)?;
    }
    append_number(position.0.unsigned_abs(), out)
}

fn append_price(price: Price, out: &mut Vec<u8>) -> Result<(), NoMemory>
    ensures { OnOk result (out.new.items ≡ out.old.items ++ 32 ∷ printed price.0 ++ 10 ∷ []) }
{
    append(b" ", out)?;
    price_text(price, out)?;
    append(b"\n", out)
}

fn append_count(before: &[u8], number: u64, out: &mut Vec<u8>) -> Result<(), NoMemory>
    ensures { OnOk result (out.new.items ≡ out.old.items ++ before.now ++ decimal number) }
{
    append(before, out)?;
    append_number(number, out)
}

fn append_number(number: u64, out: &mut Vec<u8>) -> Result<(), NoMemory>
    ensures { OnOk result (out.new.items ≡ out.old.items ++ decimal number) }
{
    let mut buffer = Buffer::new();
    append(buffer.format(number).as_bytes(), out)
}

fn append(bytes: &[u8], out: &mut Vec<u8>) -> Result<(), NoMemory>
    ensures { OnOk result (out.new.items ≡ out.old.items ++ bytes.now) }
{
    out.extend_from_slice(bytes)?;
    Ok(())
}
