//! What an algorithm means is the backtest of the definition. The law is the contract of a function that does nothing.
ghost use Rattle.std.specs.Prelude.{◌≡◌, ◌+◌, ◌-◌, ◌≤◌, ℕ, List, flat_map};
ghost use Rattle.lean_fixed.specs.Moments.{first_moment, last_moment};
ghost use Rattle.lean_items.specs.declared.feed_key.FeedKey.{FeedKey};
ghost use Rattle.lean_items.specs.declared.item.Item.{Item};
ghost use Rattle.rule_strategy.specs.Validity.{IsPlan};
ghost use Rattle.clock_run.specs.InRange.{IsWorldInRange};
ghost use Rattle.clock_run.specs.Known.{World};
ghost use Rattle.clock_run.specs.Lines.{line_bytes};
ghost use Rattle.clock_run.specs.Reports.{moments, backtest, report_bytes};
ghost use Rattle.clock_run.specs.States.{Setup};
ghost use Rattle.backtest_engine.specs.Algorithms.{meaning_of, opening_state};
ghost use Rattle.backtest_engine.specs.Backtests.{ended_of};
ghost use Rattle.backtest_engine.specs.Meets.{IsMet};
ghost use Rattle.backtest_engine.specs.Reported.{ended_by};
ghost use Rattle.backtest_engine.specs.Reports.{minutes, whole, report_of};
ghost use Rattle.backtest_engine.specs.Tells.{Tells};
ghost use Rattle.backtest_engine.specs.Walked.{AllMeet};

/// Over lists that tell a world, what an algorithm means is the backtest of the definition: minute by minute it prints the same
/// lines, it ends in the same way, and its report is the same. And an algorithm takes all that ends at a moment of such a run.
pub fn runs_are_backtests()
    ensures report { (setup : Setup) (world : World) (lists : FeedKey → List Item)
        → IsPlan setup.plan → IsWorldInRange world → Tells setup world lists
        → report_of (meaning_of setup)
        (whole (meaning_of setup) lists (first_moment setup.plan.window) (last_moment setup.plan.window) (opening_state setup))
        ≡ report_bytes setup (backtest setup world) }
    ensures ended { (setup : Setup) (world : World) (lists : FeedKey → List Item)
        → IsPlan setup.plan → IsWorldInRange world → Tells setup world lists
        → ended_by (whole (meaning_of setup) lists (first_moment setup.plan.window) (last_moment setup.plan.window) (opening_state setup)).stop
        ≡ ended_of (backtest setup world).stop }
    ensures moments { (setup : Setup) (world : World) (lists : FeedKey → List Item)
        → IsPlan setup.plan → IsWorldInRange world → Tells setup world lists → (count : ℕ)
        → count ≤ last_moment setup.plan.window + 1 - first_moment setup.plan.window
        → (minutes (meaning_of setup) lists (first_moment setup.plan.window) (opening_state setup) count).lines
        ≡ flat_map line_bytes (moments setup world count).lines }
    ensures meets { (setup : Setup) (world : World) (lists : FeedKey → List Item)
        → IsPlan setup.plan → IsWorldInRange world → Tells setup world lists
        → AllMeet (λ t slice s. IsMet t slice s) (meaning_of setup) lists
        (first_moment setup.plan.window) (last_moment setup.plan.window) (opening_state setup) }
{}
