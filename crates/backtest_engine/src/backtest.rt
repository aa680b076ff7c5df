//! The run from its first feeds to its last line.
ghost use Rattle.std.specs.Prelude.{◌≡◌, ℕ, ◌+◌, ◌^◌, ◌≤◌, ◌⊎◌, true, false, List, [], ◌++◌, Some, length, OnOk, Err};
ghost use Rattle.std.specs.List.{All};
ghost use Rattle.lean_fixed.specs.Ranges.{IsMoment};
ghost use Rattle.lean_io.specs.Told.{Rose};
ghost use Rattle.lean_orders.specs.declared.desk.Command.{Command as AskedOne};
ghost use Rattle.lean_orders.specs.declared.desk.Reply.{Reply as Answer};
ghost use Rattle.lean_items.specs.declared.feed_key.FeedKey.{FeedKey as Key};
ghost use Rattle.lean_items.specs.declared.item.Item.{Item as GivenItem};
ghost use Rattle.lean_items.specs.Taken.{Start, Feeds, AllFollow, no_feeds};
ghost use Rattle.clock_book.specs.Books.{Book as ClockBook};
ghost use Rattle.clock_book.specs.Handled.{after};
ghost use Rattle.order_desk.specs.Served.{IsRight};
ghost use Rattle.frontier_sync.specs.Stays.{Stays};
ghost use Rattle.backtest_engine.specs.Meaning.{Meaning, State};
ghost use Rattle.backtest_engine.specs.Phased.{GoesOn};
ghost use Rattle.backtest_engine.specs.Stands.{AreLists, HasFaulted};
ghost use Rattle.backtest_engine.specs.Exact.{ended_as, IsExact};
ghost use Rattle.backtest_engine.specs.Walked.{IfFault, IsEnd, AllMeet};
ghost use Rattle.backtest_engine.specs.Reported.{IsOpening, IsReport};

use crate::ended::Ended;
use crate::ending::{Cut, Ending};
use crate::feeds::{add_all, is_broken};
use crate::last::end;
use crate::strategy::Strategy;
use crate::walk::walk;
use frontier_sync::Heads;
use lean_fixed::NoMemory;
use lean_io::Sink;
use lean_items::{FeedKey, Pool};
use order_desk::Desk;
use std::alloc::Global;

/// Runs a strategy over the feeds of a new pool and a new desk, from the first minute to the last one, and writes its report.
/// Minutes are counted since 1970-01-01; the last one is no later than 24:00 of 2200-01-01, minute 120,970,080. The feeds of the
/// opening keys, at most 1,000, are added before anything is taken. Where `coarse` says so, the first of them is the
/// coarse feed, whose first item is read before the first moment. On every path the pool and the desk are finished.
///
/// `Ended::BadRow`: the report names the malformed line of the least active feed that has one which is due, behind the lines of
/// its moment. `Ended::Limit`: it names a limit, behind the lines before it. `Ended::ReadFault`: at the end of a moment the least
/// active feed whose next item is a malformed line or a failed read has a failed read, or a read of the coarse feed failed while
/// its rows were taken; the lines of whole moments were written. `Ended::WriteFault`: a write failed. `Ended::NoMemory`: there is
/// no memory. After these two a front of the report was written.
pub fn run_strategy<C: Strategy, P: Pool, D: Desk, S: Sink>(
    alloc: Global,
    core: &mut C,
    pool: &mut P,
    desk: D,
    opening: &[FeedKey],
    coarse: bool,
    first: u32,
    last: u32,
    out: &mut S,
) -> Ended
    requires order { first ≤ last }
    requires last { last ≤ 120970080 }
    requires new { P.added pool.old ≡ 0 }
    requires fed { D.starved desk ≡ false }
    requires submitted { D.submitted desk ≡ 0 }
    requires orders { D.orders desk ≡ 0 }
    requires answered { D.answered desk ≡ 0 }
    requires few { length opening.now ≤ 1000 }
    requires starts { All (λ key. IsMoment key.start.0) opening.now }
    ensures told { (before : Start) (lists : Key → List GivenItem) (m : Meaning C.Own) (s : State C.Own) (b : ClockBook)
        → P.stands pool.old before no_feeds → P.lists pool.old ≡ Some lists → AreLists lists
        → D.stands desk b [] [] → C.stands core.old m s opening.now
        → IsOpening m coarse first opening.now s b
        → AllMeet (C.meets m) m lists first last s
        → (now : Feeds) × AllFollow lists now
        × IsReport m lists first last s coarse now (S.told out.old) (S.told out.new) result }
    ensures exact { (before : Start) (lists : Key → List GivenItem) (m : Meaning C.Own) (s : State C.Own) (b : ClockBook)
        → P.stands pool.old before no_feeds → P.lists pool.old ≡ Some lists → AreLists lists
        → D.stands desk b [] [] → C.stands core.old m s opening.now
        → IsOpening m coarse first opening.now s b
        → AllMeet (C.meets m) m lists first last s
        → (now : Feeds) × AllFollow lists now
        × IsReport m lists first last s coarse now (S.told out.old) (S.told out.new) result
        × IsExact m lists first last s coarse now result }
    ensures read { (before : Start) → P.stands pool.old before no_feeds
        → result ≡ Ended.ReadFault → Rose before.faults (P.faults pool.new) }
    ensures write { result ≡ Ended.WriteFault → Rose (S.faults out.old) (S.faults out.new) }
    ensures hands { (before : Start) → P.stands pool.old before no_feeds → P.hands pool.new ≡ before.hands }
    ensures sink_grows { S.faults out.old ≤ S.faults out.new }
    ensures stays { Stays P.files P.lists P.faults P.place pool.old pool.new }
{
    let mut desk = desk;
    let walked = start(
        alloc, core, &mut desk, pool, opening, coarse, first, last, out,
    );
    let _ = pool.finish();
    let book = desk.finish();
    end(alloc, core, walked, &book, out)
}

// Adds the feeds of the opening keys, and goes through the moments.
fn start<C: Strategy, P: Pool, D: Desk, S: Sink>(
    alloc: Global,
    core: &mut C,
    desk: &mut D,
    pool: &mut P,
    opening: &[FeedKey],
    coarse: bool,
    first: u32,
    last: u32,
    out: &mut S,
) -> Result<Ending, Cut>
    requires order { first ≤ last }
    requires last { last ≤ 120970080 }
    requires new { P.added pool.old ≡ 0 }
    requires fed { D.starved desk.old ≡ false }
    requires submitted { D.submitted desk.old ≡ 0 }
    requires orders { D.orders desk.old ≡ 0 }
    requires answered { D.answered desk.old ≡ 0 }
    requires few { length opening.now ≤ 1000 }
    requires starts { All (λ key. IsMoment key.start.0) opening.now }
    ensures walked { (ds : List AskedOne) × (more : List Answer)
        × GoesOn (D.stands desk.old) (D.stands desk.new) ds more
        × ((before : Start) → P.stands pool.old before no_feeds
        → (now : Feeds) × P.stands pool.new before now × IfFault result (HasFaulted now)
        × ((lists : Key → List GivenItem) (m : Meaning C.Own) (s : State C.Own) (b : ClockBook)
        → AreLists lists → AllFollow lists now → IsRight b ds more
        → D.stands desk.old b [] [] → C.stands core.old m s opening.now → IsOpening m coarse first opening.now s b
        → AllMeet (C.meets m) m lists first last s
        → IsEnd m lists first last s coarse now (C.stands core.new m) (after b ds) (S.told out.old) (S.told out.new) result
        × IsExact m lists first last s coarse now (ended_as result))) }
    ensures closed { (D.starved desk.new ≡ true) ⊎ (D.answered desk.new ≡ D.submitted desk.new) }
    ensures fed { OnOk result (D.starved desk.new ≡ false) }
    ensures write { result ≡ Err Cut.WriteFault → Rose (S.faults out.old) (S.faults out.new) }
    ensures sink_grows { S.faults out.old ≤ S.faults out.new }
    ensures stays { Stays P.files P.lists P.faults P.place pool.old pool.new }
{
    let mut heads = Heads::new(alloc);
    let mut keys = Vec::new(alloc);
    match add_all(alloc, core, pool, &mut heads, &mut keys, opening) {
        Ok(()) => {}
        Err(NoMemory) => return Err(Cut::NoMemory),
    }
    if is_broken(coarse, &heads.stop()) {
        return Err(Cut::ReadFault);
    }
    walk(
        alloc, core, desk, pool, &mut heads, &mut keys, coarse, first, last, out,
    )
}
