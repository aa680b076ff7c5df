//! The lines of a moment.
ghost use Rattle.std.specs.Prelude.{◌≡◌, ◌++◌, ◌∷◌, [], codes, unsigned_abs, OnOk};
ghost use Rattle.lean_fixed.specs.Printed.{moment_text as printed_moment, money_text as printed_money};
ghost use Rattle.lean_fixed.specs.Ranges.{IsPrintedMoment};
ghost use Rattle.clock_run.specs.Lines.{line_of, line_bytes, closed, added, removed};

use lean_fixed::{Moment, Money, NoMemory, Symbol, moment_text, money_text};

/// Appends the line of a security that is added. At `NoMemory` a front of it may stand there, as with the others.
#[tactic(auto, unfolding(clock_run::specs::Lines::line_bytes))]
pub(crate) fn append_added(at: Moment, symbol: Symbol, out: &mut Vec<u8>) -> Result<(), NoMemory>
    requires { IsPrintedMoment at.0 }
    ensures { OnOk result (out.new.items ≡ out.old.items ++ line_bytes (added (unsigned_abs at.0) symbol)) }
{
    append_change(at, b"add", symbol, out)
}

/// Appends the line of a security that is removed.
#[tactic(auto, unfolding(clock_run::specs::Lines::line_bytes))]
pub(crate) fn append_removed(at: Moment, symbol: Symbol, out: &mut Vec<u8>) -> Result<(), NoMemory>
    requires { IsPrintedMoment at.0 }
    ensures { OnOk result (out.new.items ≡ out.old.items ++ line_bytes (removed (unsigned_abs at.0) symbol)) }
{
    append_change(at, b"remove", symbol, out)
}

fn append_change(at: Moment, word: &[u8], symbol: Symbol, out: &mut Vec<u8>) -> Result<(), NoMemory>
    requires { IsPrintedMoment at.0 }
    ensures { OnOk result (out.new.items
        ≡ out.old.items ++ line_of (printed_moment (unsigned_abs at.0) ∷ word.now ∷ symbol ∷ [])) }
{
    moment_text(at, out)?;
    append_word(word, out)?;
    append_word(symbol.bytes(), out)?;
    append(b"\n", out)
}

/// Appends the line of a session that closes.
#[tactic(auto, unfolding(clock_run::specs::Lines::line_bytes))]
pub(crate) fn append_closed(
    at: Moment,
    cash: Money,
    equity: Money,
    out: &mut Vec<u8>,
) -> Result<(), NoMemory>
    requires { IsPrintedMoment at.0 }
    ensures { OnOk result (out.new.items
        ≡ out.old.items ++ line_bytes (closed (unsigned_abs at.0) cash.0 equity.0)) }
{
    append_account(at, b"close cash", cash, b"equity", equity, out)
}

fn append_account(
    at: Moment,
    first: &[u8],
    cash: Money,
    second: &[u8],
    equity: Money,
    out: &mut Vec<u8>,
) -> Result<(), NoMemory>
    requires { IsPrintedMoment at.0 }
    ensures { OnOk result (out.new.items ≡ out.old.items ++ line_of (printed_moment (unsigned_abs at.0)
        ∷ first.now ∷ printed_money cash.0 ∷ second.now ∷ printed_money equity.0 ∷ [])) }
{
    moment_text(at, out)?;
    append_amount(first, cash, out)?;
    append_amount(second, equity, out)?;
    append(b"\n", out)
}

fn append_amount(name: &[u8], amount: Money, out: &mut Vec<u8>) -> Result<(), NoMemory>
    ensures { OnOk result (out.new.items ≡ out.old.items ++ (32 ∷ name.now ++ 32 ∷ printed_money amount.0)) }
{
    append_word(name, out)?;
    append(b" ", out)?;
    money_text(amount, out)
}

fn append_word(word: &[u8], out: &mut Vec<u8>) -> Result<(), NoMemory>
    ensures { OnOk result (out.new.items ≡ out.old.items ++ (32 ∷ word.now)) }
{
    append(b" ", out)?;
    append(word, out)
}

fn append(bytes: &[u8], out: &mut Vec<u8>) -> Result<(), NoMemory>
    ensures { OnOk result (out.new.items ≡ out.old.items ++ bytes.now) }
{
    out.extend_from_slice(bytes)?;
    Ok(())
}
