//! From one moment to the next at which anything can happen.
ghost use Rattle.std.specs.Prelude.{◌≡◌, ℕ, ◌+◌, ◌<◌, ◌≤◌, ◌⊎◌, true, false, pos, ◌<ℤ◌, ◌≤ℤ◌, List, [], ◌++◌, length, IfSome, OnOk, Err, MatchOption};
ghost use Rattle.lean_io.specs.Told.{Rose};
ghost use Rattle.lean_orders.specs.declared.desk.Command.{Command as AskedOne};
ghost use Rattle.lean_orders.specs.declared.desk.Reply.{Reply as Answer};
ghost use Rattle.lean_items.specs.declared.feed_key.FeedKey.{FeedKey as Key};
ghost use Rattle.lean_items.specs.declared.item.Item.{Item as GivenItem};
ghost use Rattle.lean_items.specs.Taken.{Start, Feeds, AllFollow};
ghost use Rattle.clock_book.specs.Books.{Book as ClockBook};
ghost use Rattle.clock_book.specs.Fitting.{most_orders};
ghost use Rattle.clock_book.specs.Handled.{after};
ghost use Rattle.order_desk.specs.Served.{IsRight};
ghost use Rattle.frontier_sync.specs.Heads.{AreOpen, stops};
ghost use Rattle.frontier_sync.specs.Stays.{Stays};
ghost use Rattle.backtest_engine.specs.Meaning.{Meaning, State};
ghost use Rattle.backtest_engine.specs.Phased.{GoesOn};
ghost use Rattle.backtest_engine.specs.Stands.{AreLists, AreCalm, IsEarlier, Stock, HasFaulted};
ghost use Rattle.backtest_engine.specs.Opened.{AreNumbered};
ghost use Rattle.backtest_engine.specs.Moved.{Knows};
ghost use Rattle.backtest_engine.specs.Exact.{ended_as, EndsBy};
ghost use Rattle.backtest_engine.specs.Walked.{AllFrom, NoClose, IfFault, IsEnd, IsEnding, AllMeet};

use crate::ending::{Cut, Ending};
use crate::minute::moment;
use crate::strategy::Strategy;
use frontier_sync::Heads;
use lean_fixed::Moment;
use lean_io::Sink;
use lean_items::{Arrival, FeedKey, Item, Pool};
use order_desk::Desk;
use std::alloc::Global;

// Goes through the moments of a window at which anything can happen, until a head stops the run or there is none left.
pub(crate) fn walk<C: Strategy, P: Pool, D: Desk, S: Sink>(
    alloc: Global,
    core: &mut C,
    desk: &mut D,
    pool: &mut P,
    heads: &mut Heads,
    keys: &mut Vec<FeedKey>,
    coarse: bool,
    first: u32,
    last: u32,
    out: &mut S,
) -> Result<Ending, Cut>
    requires order { first ≤ last }
    requires last { last ≤ 120970080 }
    requires fed { D.starved desk.old ≡ false }
    requires done { D.answered desk.old ≡ D.submitted desk.old }
    requires few { D.submitted desk.old + P.added pool.old ≤ 2000 }
    requires orders { D.orders desk.old + C.orders core.old ≤ most_orders }
    requires opened { AreOpen (P.is_open pool.old) heads.old }
    requires numbered { AreNumbered (P.added pool.old) heads.old }
    requires kept { length keys.old.items ≡ P.added pool.old }
    ensures walked { (ds : List AskedOne) × (more : List Answer)
        × GoesOn (D.stands desk.old) (D.stands desk.new) ds more
        × ((before : Start) (feeds : Feeds)
        → Stock (P.stands pool.old) before (P.added pool.old) heads.old keys.old.items feeds
        → (now : Feeds) × P.stands pool.new before now × IsEarlier feeds now
        × IfFault result (HasFaulted now)
        × ((lists : Key → List GivenItem) (m : Meaning C.Own) (s0 : State C.Own) (b : ClockBook) (cs : List AskedOne) (rs : List Answer)
        → AreLists lists → AllFollow lists now → IsRight b (cs ++ ds) (rs ++ more)
        → Knows m lists coarse (C.stands core.old m) (D.stands desk.old) (P.added pool.old) feeds heads.old first s0 b cs rs
        → AreCalm lists (pos first) heads.old (m.active s0.own)
        → AllMeet (C.meets m) m lists first last s0
        → IsEnd m lists first last s0 coarse now (C.stands core.new m) (after b (cs ++ ds)) (S.told out.old) (S.told out.new) result
        × EndsBy m lists first last s0 coarse now (ended_as result))) }
    ensures closed { (D.starved desk.new ≡ true) ⊎ (D.answered desk.new ≡ D.submitted desk.new) }
    ensures fed { OnOk result (D.starved desk.new ≡ false) }
    ensures write { result ≡ Err Cut.WriteFault → Rose (S.faults out.old) (S.faults out.new) }
    ensures sink_grows { S.faults out.old ≤ S.faults out.new }
    ensures stays { Stays P.files P.lists P.faults P.place pool.old pool.new }
{
    let mut slice = Vec::new(alloc);
    let mut at = first;
    'moments: loop {
        match moment(
            alloc,
            core,
            desk,
            pool,
            heads,
            keys,
            &mut slice,
            coarse,
            moment_of(at),
            out,
        ) {
            Ok(()) => {}
            Err(cut) => return Err(cut),
        }
        match heads.stop() {
            Some(stop) => return Ok(ending_at(&stop, keys)),
            None => {}
        }
        match next_minute(core, heads, at, last) {
            Some(next) => at = next,
            None => return Ok(Ending::Whole),
        }
    }
}

// What a head says that ends the run.
fn ending_at(stop: &Arrival, keys: &[FeedKey]) -> Ending
    requires stops { stops stop.now.item ≡ true }
    requires numbered { stop.now.feed.0 < length keys.now }
    ensures { IsEnding keys.now stop.now result }
{
    match stop.item {
        Item::Bad(bad) => {
            let key = &keys[stop.feed.0 as usize];
            Ending::Refused(*key, bad)
        }
        Item::Faulted => Ending::Faulted,
        Item::Bar(_) => unreachable!(),
        Item::Coarse(_, _) => unreachable!(),
        Item::End => unreachable!(),
    }
}

// The next minute at which a head ends or a session closes.
fn next_minute<C: Strategy>(core: &C, heads: &Heads, at: u32, last: u32) -> Option<u32>
    requires last { last ≤ 120970080 }
    requires order { at ≤ last }
    ensures later { IfSome result (λ next. (at < next) × (next ≤ last)) }
    ensures ends { AllFrom (at + 1) heads.now → MatchOption result (AllFrom (last + 1) heads.now) (λ next. AllFrom next heads.now) }
    ensures closes { (m : Meaning C.Own) (s : State C.Own) → C.stands core.now m s []
        → MatchOption result (NoClose m.is_close at (last + 1)) (λ next. NoClose m.is_close at next) }
{
    match next_end(heads, at, last) {
        Some(end) => match next_close(core, at, last) {
            Some(close) => Some(end.min(close)),
            None => Some(end),
        },
        None => next_close(core, at, last),
    }
}

// The next minute at which a head ends.
fn next_end(heads: &Heads, at: u32, last: u32) -> Option<u32>
    requires last { last ≤ 120970080 }
    requires order { at ≤ last }
    ensures later { IfSome result (λ next. (at < next) × (next ≤ last)) }
    ensures ends { AllFrom (at + 1) heads.now → MatchOption result (AllFrom (last + 1) heads.now) (λ next. AllFrom next heads.now) }
{
    match heads.next_frontier() {
        Some(end) => minute_behind(end, at, last),
        None => None,
    }
}

// The next minute at which a session closes.
fn next_close<C: Strategy>(core: &C, at: u32, last: u32) -> Option<u32>
    requires last { last ≤ 120970080 }
    requires order { at ≤ last }
    ensures later { IfSome result (λ next. (at < next) × (next ≤ last)) }
    ensures closes { (m : Meaning C.Own) (s : State C.Own) → C.stands core.now m s []
        → MatchOption result (NoClose m.is_close at (last + 1)) (λ next. NoClose m.is_close at next) }
{
    match core.next_close(moment_of(at), moment_of(last)) {
        Some(close) => minute_behind(close, at, last),
        None => None,
    }
}

// The minute of a moment, if it lies behind one minute and not behind another. A moment that is not behind the first one is
// taken for the next minute, so that the run goes on whatever it is told.
fn minute_behind(moment: Moment, at: u32, last: u32) -> Option<u32>
    requires last { last ≤ 120970080 }
    requires order { at ≤ last }
    ensures later { IfSome result (λ next. (at < next) × (next ≤ last)) }
    ensures behind { pos at <ℤ moment.0 → MatchOption result (pos last <ℤ moment.0) (λ next. moment.0 ≡ pos next) }
{
    if moment.0 > last as i64 || at == last {
        None
    } else if moment.0 <= at as i64 {
        Some(at + 1)
    } else {
        Some(minute_of(moment))
    }
}

// The number of a moment that is not negative.
pub(crate) fn minute_of(moment: Moment) -> u32
    requires low { pos 0 ≤ℤ moment.0 }
    requires high { moment.0 ≤ℤ pos 120970080 }
    ensures { moment.0 ≡ pos result }
{
    moment.0 as u32
}

// The moment of a minute.
pub(crate) fn moment_of(minute: u32) -> Moment
    ensures { result.0 ≡ pos minute }
{
    Moment(minute as i64)
}
