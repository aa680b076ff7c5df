//! The run of a plan: its algorithm over the feeds of any pool, any desk and any sink.
ghost use Rattle.std.specs.Prelude.{◌≡◌, ◌⊎◌, ◌≢◌, true, false, is_some, Some, [], ◌≤◌};
ghost use Rattle.std.specs.Arc.{arc_value};
ghost use Rattle.lean_fixed.specs.Moments.{first_moment, last_moment};
ghost use Rattle.lean_fixed.specs.Ranges.{IsWindow};
ghost use Rattle.lean_io.specs.Told.{Files, Rose};
ghost use Rattle.lean_items.specs.Taken.{Start, Feeds, AllFollow, no_feeds};
ghost use Rattle.clock_book.specs.Books.{new_book};
ghost use Rattle.clock_run.specs.Worlds.{world_of};
ghost use Rattle.rule_strategy.specs.Validity.{IsPlan};
ghost use Rattle.frontier_sync.specs.Stays.{Stays};
ghost use Rattle.backtest_engine.specs.Algorithms.{meaning_of, opening_state};
ghost use Rattle.backtest_engine.specs.Backtests.{IsBacktest};
ghost use Rattle.backtest_engine.specs.Exact.{IsExact};
ghost use Rattle.backtest_engine.specs.Feeds.{list_of};
ghost use Rattle.backtest_engine.specs.Reported.{IsReport};

use crate::algorithm::Algorithm;
use crate::backtest::run_strategy;
use crate::ended::Ended;
use crate::opening::opening_keys;
use crate::walk::minute_of;
use exchange_hours::Hours;
use exchange_hours::laws::sessions_lie;
use lean_fixed::{NoMemory, Window};
use lean_io::Sink;
use lean_items::Pool;
use order_desk::Desk;
use rule_strategy::Plan;
use std::alloc::Global;
use std::sync::Arc;

/// Runs the backtest of a plan that was read, by the hours of the exchange, over the feeds of a new pool and a new desk, and
/// writes its report. The desk began with a new book of the plan's cash, costs and leverage. All feeds of the opening state are
/// added before anything is taken; what a moment prints is written at its end; and on every path the pool and the desk are
/// finished.
///
/// Where the pool's lists are those of a folder's files, the report is that of the definition over these files, and so is how it
/// ends: `Ended::Done`, `Ended::BadRow` and `Ended::Limit` come exactly where the definition ends so. `Ended::ReadFault`: at the
/// end of a moment the least active feed whose next item is a malformed line or a failed read has a failed read, or a read of the
/// coarse feed failed while its rows were taken; the lines of whole moments were written. After `Ended::WriteFault`, a failed
/// write, and `Ended::NoMemory`, want of memory, a front of the report was written.
pub fn run<P: Pool, D: Desk, S: Sink>(
    alloc: Global,
    plan: Plan,
    hours: Arc<Hours>,
    pool: &mut P,
    desk: D,
    out: &mut S,
) -> Ended
    requires plan { IsPlan plan }
    requires new { P.added pool.old ≡ 0 }
    requires fed { D.starved desk ≡ false }
    requires submitted { D.submitted desk ≡ 0 }
    requires orders { D.orders desk ≡ 0 }
    requires answered { D.answered desk ≡ 0 }
    ensures told { (before : Start) (files : Files)
        → P.stands pool.old before no_feeds → P.lists pool.old ≡ Some (list_of files (arc_value hours) plan.window)
        → D.stands desk (new_book plan.cash.0 plan.costs plan.leverage (arc_value hours)) [] []
        → IsBacktest (record { plan = plan; hours = arc_value hours }) (world_of files (arc_value hours) plan.window)
        (S.told out.old) (S.told out.new) result }
    ensures causes { (before : Start) (files : Files)
        → P.stands pool.old before no_feeds → P.lists pool.old ≡ Some (list_of files (arc_value hours) plan.window)
        → D.stands desk (new_book plan.cash.0 plan.costs plan.leverage (arc_value hours)) [] []
        → result ≢ Ended.NoMemory → (now : Feeds) × AllFollow (list_of files (arc_value hours) plan.window) now
        × IsReport (meaning_of (record { plan = plan; hours = arc_value hours })) (list_of files (arc_value hours) plan.window)
        (first_moment plan.window) (last_moment plan.window) (opening_state (record { plan = plan; hours = arc_value hours }))
        (is_some plan.universe) now (S.told out.old) (S.told out.new) result }
    ensures exact { (before : Start) (files : Files)
        → P.stands pool.old before no_feeds → P.lists pool.old ≡ Some (list_of files (arc_value hours) plan.window)
        → D.stands desk (new_book plan.cash.0 plan.costs plan.leverage (arc_value hours)) [] []
        → result ≢ Ended.NoMemory → (now : Feeds) × AllFollow (list_of files (arc_value hours) plan.window) now
        × IsReport (meaning_of (record { plan = plan; hours = arc_value hours })) (list_of files (arc_value hours) plan.window)
        (first_moment plan.window) (last_moment plan.window) (opening_state (record { plan = plan; hours = arc_value hours }))
        (is_some plan.universe) now (S.told out.old) (S.told out.new) result
        × IsExact (meaning_of (record { plan = plan; hours = arc_value hours })) (list_of files (arc_value hours) plan.window)
        (first_moment plan.window) (last_moment plan.window) (opening_state (record { plan = plan; hours = arc_value hours }))
        (is_some plan.universe) now result }
    ensures read { (before : Start) → P.stands pool.old before no_feeds
        → result ≡ Ended.ReadFault → Rose before.faults (P.faults pool.new) }
    ensures write { result ≡ Ended.WriteFault → Rose (S.faults out.old) (S.faults out.new) }
    ensures hands { (before : Start) → P.stands pool.old before no_feeds → P.hands pool.new ≡ before.hands }
    ensures sink_grows { S.faults out.old ≤ S.faults out.new }
    ensures stays { Stays P.files P.lists P.faults P.place pool.old pool.new }
{
    sessions_lie(&hours);
    let window = plan.window;
    let coarse = plan.universe.is_some();
    let keys = match opening_keys(alloc, &plan) {
        Ok(keys) => keys,
        Err(NoMemory) => return give_up(pool, desk),
    };
    match Algorithm::begin(alloc, plan, hours) {
        Ok(mut algorithm) => run_strategy(
            alloc,
            &mut algorithm,
            pool,
            desk,
            &keys,
            coarse,
            first_minute(window),
            last_minute(window),
            out,
        ),
        Err(NoMemory) => give_up(pool, desk),
    }
}

// Finishes a pool and a desk, for want of memory.
fn give_up<P: Pool, D: Desk>(pool: &mut P, desk: D) -> Ended
    requires { (D.starved desk ≡ true) ⊎ (D.answered desk ≡ D.submitted desk) }
    ensures ended { result ≡ Ended.NoMemory }
    ensures hands { (before : Start) → P.stands pool.old before no_feeds → P.hands pool.new ≡ before.hands }
    ensures stays { Stays P.files P.lists P.faults P.place pool.old pool.new }
{
    let _ = pool.finish();
    let _ = desk.finish();
    Ended::NoMemory
}

// The first minute of a window, and the last one.
fn first_minute(window: Window) -> u32
    requires { IsWindow window }
    ensures { result ≡ first_moment window }
{
    minute_of(window.first_moment())
}

fn last_minute(window: Window) -> u32
    requires { IsWindow window }
    ensures { result ≡ last_moment window }
{
    minute_of(window.last_moment())
}
