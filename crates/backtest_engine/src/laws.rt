//! What the feeds of a folder tell of a backtest. Each law is the contract of a function that does nothing.
ghost use Rattle.lean_fixed.specs.Ranges.{IsWindow};
ghost use Rattle.lean_io.specs.Told.{Files};
ghost use Rattle.exchange_hours.specs.Sessions.{LieInDays};
ghost use Rattle.clock_run.specs.States.{Setup};
ghost use Rattle.clock_run.specs.Worlds.{world_of};
ghost use Rattle.backtest_engine.specs.Feeds.{list_of};
ghost use Rattle.backtest_engine.specs.Tells.{Tells};

/// The lists of a folder's feeds tell its world: what ends at each moment, and where a feed is blocked, can be read off them.
/// Each list rises and ends once, and of a security at most one bar ends at a moment, which may be pushed behind those before it.
pub fn folders_tell_worlds()
    ensures { (setup : Setup) (files : Files) → LieInDays setup.hours → IsWindow setup.plan.window
        → Tells setup (world_of files setup.hours setup.plan.window) (list_of files setup.hours setup.plan.window) }
{}
