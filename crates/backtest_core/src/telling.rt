//! The commands of the prices and of the close of a session.
ghost use Rattle.std.specs.Prelude.{◌≡◌, ◌≤◌, ◌+◌, ◌++◌, ◌∷◌, [], ℕ, false, vec_len, if◌then◌else◌, OnOk};
ghost use Rattle.std.specs.Option.{option_to_list};
ghost use Rattle.lean_fixed.specs.Ranges.{IsPrintedMoment};
ghost use Rattle.lean_orders.specs.declared.desk.Command.TheVariants.{Match, Account};
ghost use Rattle.exchange_hours.specs.Sessions.{moment};
ghost use Rattle.exchange_hours.specs.Grid.{is_closing};
ghost use Rattle.clock_run.specs.Moments.{price_bar};
ghost use Rattle.backtest_core.specs.Phases.{AreOf};
ghost use Rattle.backtest_core.specs.Watching.{mark_in, marks_in};

use crate::watched::Watched;
use exchange_hours::Hours;
use exchange_hours::laws::{closings, sessions_lie};
use lean_fixed::{Moment, NoMemory};
use lean_items::Bar;
use lean_orders::{Command, PriceBar};

/// Appends the marks of the securities whose bars end at a moment, and that the live orders are tried then.
pub(crate) fn tell_prices(
    watched: &Vec<Watched>,
    at: Moment,
    out: &mut Vec<Command>,
) -> Result<(), NoMemory>
    ensures told { OnOk result (out.new.items ≡ out.old.items ++ (marks_in at watched.now.items ++ Match at ∷ [])) }
{
    for security in watched {
        tell_mark(security, at, out)?;
    }
    out.push(Command::Match(at))?;
    Ok(())
}

fn tell_mark(security: &Watched, at: Moment, out: &mut Vec<Command>) -> Result<(), NoMemory>
    ensures { OnOk result (out.new.items ≡ out.old.items ++ option_to_list (mark_in at security.now)) }
{
    match &security.ended {
        None => {}
        Some(bar) => out.push(Command::Mark(at, security.symbol, price_bar(bar)))?,
    }
    Ok(())
}

fn price_bar(bar: &Bar) -> PriceBar
    ensures { result ≡ price_bar bar.now }
{
    PriceBar {
        start: bar.start,
        end: bar.end,
        opening: bar.opening,
        high: bar.high,
        low: bar.low,
        closing: bar.closing,
        volume: bar.volume,
        real: bar.real,
    }
}

/// Appends that the account is asked for, where a session closes at a moment.
#[tactic(auto, using(crate::proofs::SoundLemmas::are_more))]
pub(crate) fn tell_close(hours: &Hours, at: Moment, out: &mut Vec<Command>) -> Result<(), NoMemory>
    requires { IsPrintedMoment at.0 }
    ensures sound { OnOk result (AreOf at.0 false out.old.items → AreOf at.0 false out.new.items) }
    ensures few { OnOk result (vec_len out.new ≤ vec_len out.old + 1) }
    ensures told { OnOk result ((t : ℕ) → at ≡ moment t
        → out.new.items ≡ out.old.items ++ (if is_closing hours.now t then Account at ∷ [] else [])) }
{
    if is_closing(hours, at) {
        out.push(Command::Account(at))?;
    }
    Ok(())
}

// Whether a session closes at a moment.
fn is_closing(hours: &Hours, at: Moment) -> bool
    requires { IsPrintedMoment at.0 }
    ensures { (t : ℕ) → at ≡ moment t → result ≡ is_closing hours.now t }
{
    sessions_lie(hours);
    closings();
    match hours.close_next(Moment(at.0 - 1), at) {
        Some(_) => true,
        None => false,
    }
}
