//! What every report of a backtest keeps to: laws over the definitions alone, as the contracts of functions that do nothing.
ghost use Rattle.std.specs.Prelude.{◌≡◌, ◌≢◌, ℕ, ◌+◌, ℤ, pos, List, ◌∷◌, ◌++◌, flat_map, length, Some, None};
ghost use Rattle.lean_fixed.specs.Moments.{first_moment, last_moment};
ghost use Rattle.lean_io.specs.Told.{Files};
ghost use Rattle.clock_steps.specs.Runs.{IsFrontOf};
ghost use Rattle.clock_run.specs.Lines.{Line, closed, line_bytes};
ghost use Rattle.clock_run.specs.Reports.{moments};
ghost use Rattle.clock_run.specs.States.{Setup};
ghost use Rattle.clock_run.specs.Summary.{live_orders};
ghost use Rattle.report_laws.specs.Closings.{closings_by, ledger_of, IsAtLastBar, HasOne};
ghost use Rattle.report_laws.specs.Ledger.{cash_in, position_in, equity_in, summary_in};
ghost use Rattle.lean_top.specs.Backtests.{RunsBacktest};
ghost use Rattle.lean_top.specs.Command.{command, Backtest};
ghost use Rattle.lean_top.specs.Report.{world_for, backtest_over, report};
ghost use Rattle.lean_top.specs.Until.{printed_until, AreAlikeUntil};

use report_laws::laws::last_bars;
use rule_strategy::laws::plans_are_valid;

/// Nothing of tomorrow's data changes what is printed today: over two folders with the same algorithm file and the same hours
/// file, in which no line of a feed's file is malformed and the rows that end by a moment are the same in each file, a backtest
/// prints the same of all moments up to that one. What it prints of them is a front of its report.
pub fn no_look_ahead()
    ensures same { (files other : Files) (path : List ℕ) (t : ℕ) → AreAlikeUntil t path files other
        → printed_until t files path ≡ printed_until t other path }
    ensures front { (files : Files) (words : List (List ℕ)) (path : List ℕ) (workers t : ℕ)
        → command words ≡ Some (Backtest path workers)
        → IsFrontOf (printed_until t files path) (report files words).0 }
{
    plans_are_valid();
    clock_run::laws::no_look_ahead();
}

/// Money adds up. The report of a backtest is its lines and what follows them. The cash and the equity of each close line are
/// those of the ledger of the lines above it: of the cash of the plan, the fills that these lines show, each with its fee, and
/// the closing prices of the bars up to that moment. Where nothing halts the backtest, the summary is that of the ledger of all
/// lines, with the position of each symbol that is held. And these are the prices of the last bars: where something is held of a
/// symbol behind a moment, a security of it is active, its feed has given a bar, and that of the last one is the symbol's price.
pub fn fills_account()
    ensures lines { (files : Files) (words : List (List ℕ)) (setup : Setup) → RunsBacktest files words setup
        → IsFrontOf (flat_map line_bytes (backtest_over files setup).lines) (report files words).0 }
    ensures closes { (files : Files) (words : List (List ℕ)) (setup : Setup) → RunsBacktest files words setup
        → (before later : List Line) (t : ℕ) (cash equity : ℤ)
        → (backtest_over files setup).lines ≡ before ++ closed t cash equity ∷ later
        → (cash ≡ cash_in (ledger_of setup (world_for files setup) t before))
        × (equity ≡ equity_in (ledger_of setup (world_for files setup) t before)) }
    ensures summary { (files : Files) (words : List (List ℕ)) (setup : Setup) → RunsBacktest files words setup
        → (backtest_over files setup).stop ≡ None
        → (report files words).0
        ≡ flat_map line_bytes (backtest_over files setup).lines
        ++ summary_in
        (ledger_of setup (world_for files setup) (last_moment setup.plan.window) (backtest_over files setup).lines)
        (length (backtest_over files setup).state.book.orders) (live_orders (backtest_over files setup).state.book)
        (backtest_over files setup).state.equities }
    ensures held { (files : Files) (words : List (List ℕ)) (setup : Setup) → RunsBacktest files words setup
        → (n : ℕ) (symbol : List ℕ) → (moments setup (world_for files setup) (n + 1)).stop ≡ None
        → position_in (ledger_of setup (world_for files setup) (first_moment setup.plan.window + n)
        (moments setup (world_for files setup) (n + 1)).lines) symbol ≢ pos 0
        → HasOne (IsAtLastBar symbol
        (world_for files setup (first_moment setup.plan.window + n)).bars
        (closings_by setup (world_for files setup) (first_moment setup.plan.window + n)))
        (moments setup (world_for files setup) (n + 1)).state.securities }
{
    plans_are_valid();
    report_laws::laws::fills_account();
    last_bars();
}
