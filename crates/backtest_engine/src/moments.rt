//! One moment of a strategy and a desk.
ghost use Rattle.std.specs.Prelude.{◌≡◌, ℕ, ◌+◌, ◌^◌, ◌≤◌, ◌⊎◌, true, false, pos, List, [], ◌++◌, length, OnOk, IfOk};
ghost use Rattle.std.specs.List.{All};
ghost use Rattle.lean_fixed.specs.Ranges.{IsMoment, IsPrintedMoment};
ghost use Rattle.lean_orders.specs.declared.desk.Command.{Command as AskedOne};
ghost use Rattle.lean_orders.specs.declared.desk.Reply.{Reply as Answer};
ghost use Rattle.clock_book.specs.Books.{Book as ClockBook};
ghost use Rattle.clock_book.specs.Fitting.{most_orders};
ghost use Rattle.clock_book.specs.Handled.{after};
ghost use Rattle.order_desk.specs.Served.{IsRight};
ghost use Rattle.backtest_engine.specs.Meaning.{Meaning, State};
ghost use Rattle.backtest_engine.specs.Turns.{most_of_moment};
ghost use Rattle.backtest_engine.specs.Phased.{GoesOn};
ghost use Rattle.backtest_engine.specs.Played.{IsPlayed};

use crate::changes::Changes;
use crate::limits::Stop;
use crate::phase::Phase;
use crate::phases::play_phase;
use crate::strategy::Strategy;
use lean_fixed::{Moment, NoMemory};
use lean_items::Arrival;
use order_desk::Desk;

// Plays a moment: the slice arrives, each phase is asked and heard, and the moment is closed. On every path all replies were
// heard, or the desk has no memory.
pub(crate) fn play<C: Strategy, D: Desk>(
    core: &mut C,
    desk: &mut D,
    at: Moment,
    slice: &[Arrival],
) -> Result<Changes, Stop>
    requires moment { IsPrintedMoment at.0 }
    requires fed { D.starved desk.old ≡ false }
    requires done { D.answered desk.old ≡ D.submitted desk.old }
    requires few { D.submitted desk.old + most_of_moment ≤ 2 ^ 59 }
    requires orders { D.orders desk.old + C.orders core.old ≤ most_orders }
    ensures played { (ds : List AskedOne) × (more : List Answer)
        × GoesOn (D.stands desk.old) (D.stands desk.new) ds more
        × ((m : Meaning C.Own) (s : State C.Own) (t : ℕ) (b : ClockBook) (cs : List AskedOne) (rs : List Answer)
        → at.0 ≡ pos t → C.stands core.old m s [] → C.meets m t slice.now s → D.stands desk.old b cs rs → s.book ≡ after b cs
        → IsRight b (cs ++ ds) (rs ++ more)
        → IsPlayed m (C.stands core.new m) (C.text core.new) t slice.now s (after b (cs ++ ds)) result) }
    ensures closed { (D.starved desk.new ≡ true) ⊎ (D.answered desk.new ≡ D.submitted desk.new) }
    ensures fed { OnOk result (D.starved desk.new ≡ false) }
    ensures done { OnOk result (D.answered desk.new ≡ D.submitted desk.new) }
    ensures few { OnOk result (D.submitted desk.new ≤ D.submitted desk.old + most_of_moment) }
    ensures added { IfOk result (λ changes. length changes.added.items ≤ most_of_moment) }
    ensures orders { OnOk result (D.orders desk.new + C.orders core.new ≤ D.orders desk.old + C.orders core.old) }
    ensures starts { IfOk result (λ changes. All (λ key. IsMoment key.start.0) changes.added.items) }
{
    match core.arrive(at, slice) {
        Ok(()) => {}
        Err(stop) => return Err(stop),
    }
    match play_phase(core, desk, Phase::Prices) {
        Ok(()) => {}
        Err(stop) => return Err(stop),
    }
    match play_phase(core, desk, Phase::Rules) {
        Ok(()) => {}
        Err(stop) => return Err(stop),
    }
    match play_phase(core, desk, Phase::Close) {
        Ok(()) => {}
        Err(stop) => return Err(stop),
    }
    match core.close_moment() {
        Ok(changes) => Ok(changes),
        Err(NoMemory) => Err(Stop::NoMemory),
    }
}
