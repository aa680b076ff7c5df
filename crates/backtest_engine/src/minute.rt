//! One moment of a run: what ends then is taken, the moment is played, its lines are written, and feeds are removed and added.
ghost use Rattle.std.specs.Prelude.{◌≡◌, ℕ, ◌+◌, ◌*◌, ◌^◌, ◌≤◌, ◌⊎◌, true, false, pos, List, [], ◌++◌, length, OnOk, Err};
ghost use Rattle.std.specs.List.{All};
ghost use Rattle.lean_fixed.specs.Ranges.{IsMoment, IsPrintedMoment};
ghost use Rattle.lean_io.specs.Told.{Rose};
ghost use Rattle.lean_orders.specs.declared.desk.Command.{Command as AskedOne};
ghost use Rattle.lean_orders.specs.declared.desk.Reply.{Reply as Answer};
ghost use Rattle.lean_items.specs.declared.feed_key.FeedKey.{FeedKey as Key};
ghost use Rattle.lean_items.specs.declared.item.Item.{Item};
ghost use Rattle.lean_items.specs.Taken.{Start, Feeds, AllFollow};
ghost use Rattle.clock_book.specs.Books.{Book as ClockBook};
ghost use Rattle.clock_book.specs.Fitting.{most_orders};
ghost use Rattle.clock_book.specs.Handled.{after};
ghost use Rattle.order_desk.specs.Served.{IsRight};
ghost use Rattle.frontier_sync.specs.Heads.{AreOpen};
ghost use Rattle.frontier_sync.specs.Stays.{Stays};
ghost use Rattle.backtest_engine.specs.Lists.{slice_at};
ghost use Rattle.backtest_engine.specs.Meaning.{Meaning, State};
ghost use Rattle.backtest_engine.specs.Turns.{most_of_moment};
ghost use Rattle.backtest_engine.specs.Phased.{GoesOn};
ghost use Rattle.backtest_engine.specs.Stands.{AreLists, AreCalm, IsEarlier, Stock, HasFaulted};
ghost use Rattle.backtest_engine.specs.Opened.{AreNumbered, without_heads, Opened};
ghost use Rattle.backtest_engine.specs.Moved.{Knows, Moved, IfReadFault, Settled, Halted};

use crate::changes::Changes;
use crate::ending::Cut;
use crate::feeds::{add_all, remove_all, take_slice};
use crate::limits::Stop;
use crate::moments::play;
use crate::strategy::Strategy;
use frontier_sync::Heads;
use lean_fixed::{Moment, NoMemory};
use lean_io::{Sink, WriteFault, write_whole};
use lean_items::{Arrival, FeedKey, Pool};
use order_desk::Desk;
use std::alloc::Global;

// Goes through a moment.
pub(crate) fn moment<C: Strategy, P: Pool, D: Desk, S: Sink>(
    alloc: Global,
    core: &mut C,
    desk: &mut D,
    pool: &mut P,
    heads: &mut Heads,
    keys: &mut Vec<FeedKey>,
    slice: &mut Vec<Arrival>,
    coarse: bool,
    at: Moment,
    out: &mut S,
) -> Result<(), Cut>
    requires moment { IsPrintedMoment at.0 }
    requires fed { D.starved desk.old ≡ false }
    requires done { D.answered desk.old ≡ D.submitted desk.old }
    requires few { D.submitted desk.old + P.added pool.old + 2 * most_of_moment ≤ 2 ^ 59 }
    requires orders { D.orders desk.old + C.orders core.old ≤ most_orders }
    requires opened { AreOpen (P.is_open pool.old) heads.old }
    requires numbered { AreNumbered (P.added pool.old) heads.old }
    requires kept { length keys.old.items ≡ P.added pool.old }
    ensures moved { (ds : List AskedOne) × (more : List Answer)
        × GoesOn (D.stands desk.old) (D.stands desk.new) ds more
        × ((before : Start) (feeds : Feeds)
        → Stock (P.stands pool.old) before (P.added pool.old) heads.old keys.old.items feeds
        → (now : Feeds) × P.stands pool.new before now × IsEarlier feeds now
        × IfReadFault result (HasFaulted now)
        × OnOk result (Stock (P.stands pool.new) before (P.added pool.new) heads.new keys.new.items now)
        × ((lists : Key → List Item) (m : Meaning C.Own) (t : ℕ) (s : State C.Own) (b : ClockBook) (cs : List AskedOne) (rs : List Answer)
        → AreLists lists → AllFollow lists now → IsRight b (cs ++ ds) (rs ++ more) → at.0 ≡ pos t
        → Knows m lists coarse (C.stands core.old m) (D.stands desk.old) (P.added pool.old) feeds heads.old t s b cs rs
        → AreCalm lists (pos t) heads.old (m.active s.own)
        → C.meets m t (slice_at lists (pos t) (m.active s.own)) s
        → Moved m lists coarse (C.stands core.new m) (P.added pool.new) now heads.new t s (after b (cs ++ ds)) (S.told out.old) (S.told out.new) result)) }
    ensures closed { (D.starved desk.new ≡ true) ⊎ (D.answered desk.new ≡ D.submitted desk.new) }
    ensures fed { OnOk result (D.starved desk.new ≡ false) }
    ensures done { OnOk result (D.answered desk.new ≡ D.submitted desk.new) }
    ensures few { OnOk result (D.submitted desk.new + P.added pool.new ≤ D.submitted desk.old + P.added pool.old + 2 * most_of_moment) }
    ensures orders { OnOk result (D.orders desk.new + C.orders core.new ≤ most_orders) }
    ensures opened { OnOk result (AreOpen (P.is_open pool.new) heads.new) }
    ensures numbered { OnOk result (AreNumbered (P.added pool.new) heads.new) }
    ensures kept { OnOk result (length keys.new.items ≡ P.added pool.new) }
    ensures write { result ≡ Err Cut.WriteFault → Rose (S.faults out.old) (S.faults out.new) }
    ensures sink_grows { S.faults out.old ≤ S.faults out.new }
    ensures stays { Stays P.files P.lists P.faults P.place pool.old pool.new }
{
    match take_slice(pool, heads, coarse, at, slice) {
        Ok(true) => {}
        Ok(false) => return Err(Cut::ReadFault),
        Err(NoMemory) => return Err(Cut::NoMemory),
    }
    match play(core, desk, at, slice) {
        Ok(changes) => settle(alloc, core, pool, heads, keys, &changes, out),
        Err(stop) => Err(stopped(core, stop, out)),
    }
}

// Writes the lines of a moment, removes feeds, and adds feeds.
fn settle<C: Strategy, P: Pool, S: Sink>(
    alloc: Global,
    core: &mut C,
    pool: &mut P,
    heads: &mut Heads,
    keys: &mut Vec<FeedKey>,
    changes: &Changes,
    out: &mut S,
) -> Result<(), Cut>
    requires few { P.added pool.old + length changes.now.added.items ≤ 2 ^ 60 }
    requires starts { All (λ key. IsMoment key.start.0) changes.now.added.items }
    requires opened { AreOpen (P.is_open pool.old) heads.old }
    requires numbered { AreNumbered (P.added pool.old) heads.old }
    requires kept { length keys.old.items ≡ P.added pool.old }
    ensures wrote { Settled (C.text core.old) (S.told out.old) (S.told out.new) result }
    ensures write { result ≡ Err Cut.WriteFault → Rose (S.faults out.old) (S.faults out.new) }
    ensures sink_grows { S.faults out.old ≤ S.faults out.new }
    ensures opened { OnOk result (AreOpen (P.is_open pool.new) heads.new) }
    ensures numbered { OnOk result (AreNumbered (P.added pool.new) heads.new) }
    ensures kept { OnOk result (length keys.new.items ≡ P.added pool.new) }
    ensures added { OnOk result (P.added pool.new ≡ P.added pool.old + length changes.now.added.items) }
    ensures named { OnOk result ((m : Meaning C.Own) (s : State C.Own) → C.stands core.old m s changes.now.added.items
        → P.added pool.old + length changes.now.added.items ≡ m.added s.own → C.stands core.new m s []) }
    ensures orders { C.orders core.new ≤ C.orders core.old }
    ensures stands { (before : Start) (feeds : Feeds)
        → Stock (P.stands pool.old) before (P.added pool.old) heads.old keys.old.items feeds
        → (now : Feeds) × P.stands pool.new before now × IsEarlier feeds now
        × OnOk result (Opened (P.stands pool.new) before (P.added pool.old) (P.added pool.new) feeds now
        (without_heads heads.old changes.now.removed.items) heads.new keys.new.items changes.now.added.items) }
    ensures stays { Stays P.files P.lists P.faults P.place pool.old pool.new }
{
    match write_whole(out, core.text()) {
        Ok(()) => {}
        Err(WriteFault) => return Err(Cut::WriteFault),
    }
    remove_all(pool, heads, &changes.removed);
    match add_all(alloc, core, pool, heads, keys, &changes.added) {
        Ok(()) => Ok(()),
        Err(NoMemory) => Err(Cut::NoMemory),
    }
}

// Writes the lines before a limit.
fn stopped<C: Strategy, S: Sink>(core: &C, stop: Stop, out: &mut S) -> Cut
    ensures wrote { Halted (C.text core.now) stop (S.told out.old) (S.told out.new) result }
    ensures write { result ≡ Cut.WriteFault → Rose (S.faults out.old) (S.faults out.new) }
    ensures sink_grows { S.faults out.old ≤ S.faults out.new }
{
    match stop {
        Stop::NoMemory => Cut::NoMemory,
        Stop::Limited(limit) => match write_whole(out, core.text()) {
            Ok(()) => Cut::Limited(limit),
            Err(WriteFault) => Cut::WriteFault,
        },
    }
}
