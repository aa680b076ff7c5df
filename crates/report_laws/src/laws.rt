//! Laws of every report.
ghost use Rattle.std.specs.Prelude.{◌≡◌, ◌≢◌, ℕ, ◌+◌, ℤ, pos, None, List, ◌∷◌, ◌++◌, flat_map, length};
ghost use Rattle.std.specs.List.{AllByRecursion as Each};
ghost use Rattle.lean_fixed.specs.Moments.{first_moment, last_moment};
ghost use Rattle.lean_io.specs.Told.{Files};
ghost use Rattle.exchange_hours.specs.Sessions.{LieInDays};
ghost use Rattle.rule_strategy.specs.Validity.{IsPlan};
ghost use Rattle.clock_run.specs.Lines.{Line, closed, line_bytes};
ghost use Rattle.clock_run.specs.Known.{World};
ghost use Rattle.clock_run.specs.States.{Setup};
ghost use Rattle.clock_run.specs.Reports.{moments, backtest, report_bytes};
ghost use Rattle.clock_run.specs.Summary.{live_orders};
ghost use Rattle.clock_run.specs.Worlds.{world_of};
ghost use Rattle.report_laws.specs.Ledger.{cash_in, position_in, equity_in, summary_in};
ghost use Rattle.report_laws.specs.Closings.{ledger_of, selected_behind, closings_by, HasLastPrice, IsAtLastBar, HasOne};

use clock_run::laws::worlds_go_on;

/// Money adds up: the cash and the equity of each close line are those of the ledger of the lines above it, that is of the cash
/// of the plan, the fills that these lines show, fees and all, and the closing prices of the bars up to that moment; and the
/// summary is that of the ledger of all lines.
pub fn fills_account()
    ensures closes { (setup : Setup) (world : World) (before later : List Line) (t : ℕ) (cash equity : ℤ)
        → (backtest setup world).lines ≡ before ++ closed t cash equity ∷ later
        → (cash ≡ cash_in (ledger_of setup world t before)) × (equity ≡ equity_in (ledger_of setup world t before)) }
    ensures summary { (setup : Setup) (world : World) → (backtest setup world).stop ≡ None
        → report_bytes setup (backtest setup world)
        ≡ flat_map line_bytes (backtest setup world).lines
        ++ summary_in (ledger_of setup world (last_moment setup.plan.window) (backtest setup world).lines)
        (length (backtest setup world).state.book.orders) (live_orders (backtest setup world).state.book)
        (backtest setup world).state.equities }
{}

/// The prices are those of the last bars. At each moment of a backtest over a folder's files the last closing price of an active
/// security is that of the last bar that its feed has given by then; and where something is held of a symbol behind a moment, a
/// security of it is active, its feed has given a bar, and that of the last one is the symbol's price.
pub fn last_bars()
    ensures active { (setup : Setup) (files : Files) (n : ℕ) → LieInDays setup.hours → IsPlan setup.plan
        → (moments setup (world_of files setup.hours setup.plan.window) n).stop ≡ None
        → Each (HasLastPrice
        (world_of files setup.hours setup.plan.window (first_moment setup.plan.window + n)).bars
        (closings_by setup (world_of files setup.hours setup.plan.window) (first_moment setup.plan.window + n)))
        (selected_behind setup (world_of files setup.hours setup.plan.window) n).securities }
    ensures held { (setup : Setup) (files : Files) (n : ℕ) (symbol : List ℕ) → LieInDays setup.hours
        → IsPlan setup.plan
        → (moments setup (world_of files setup.hours setup.plan.window) (n + 1)).stop ≡ None
        → position_in (ledger_of setup (world_of files setup.hours setup.plan.window)
        (first_moment setup.plan.window + n)
        (moments setup (world_of files setup.hours setup.plan.window) (n + 1)).lines) symbol ≢ pos 0
        → HasOne (IsAtLastBar symbol
        (world_of files setup.hours setup.plan.window (first_moment setup.plan.window + n)).bars
        (closings_by setup (world_of files setup.hours setup.plan.window) (first_moment setup.plan.window + n)))
        (moments setup (world_of files setup.hours setup.plan.window) (n + 1)).state.securities }
{
    worlds_go_on();
}
