//! From one end to the next.
ghost use Rattle.std.specs.Prelude.{◌≡◌, ℕ, ◌+◌, ◌≤◌, ◌<◌, pos, true, List, length, IfErr, OnOk};
ghost use Rattle.std.specs.List.{All};
ghost use Rattle.lean_fixed.specs.Moments.{first_moment, last_moment};
ghost use Rattle.lean_fixed.specs.Ranges.{IsWindow};
ghost use Rattle.lean_io.specs.Told.{Files};
ghost use Rattle.lean_items.specs.declared.feed_key.FeedKey.{FeedKey as Key};
ghost use Rattle.lean_items.specs.declared.item.Item.{Item as GivenItem};
ghost use Rattle.lean_items.specs.Given.{end_of};
ghost use Rattle.lean_items.specs.Taken.{Start, Feeds, AllFollow};
ghost use Rattle.exchange_hours.specs.Entries.{Entries};
ghost use Rattle.frontier_sync.specs.Heads.{AreOpen, EndsFrom, stops};
ghost use Rattle.frontier_sync.specs.Stands.{IsTaken, HeadsStand};
ghost use Rattle.frontier_sync.specs.Stays.{Stays};
ghost use Rattle.report_pages.specs.Printed.{HasCause, HasRoom};
ghost use Rattle.session_tape.specs.Session.{session_sources};
ghost use Rattle.session_tape.specs.Walked.{keys_of, AreFeeds, HasFaulted, HasWalked, IfFaulted, IsEnding};

use crate::ending::Ending;
use crate::minutes::{moment_of, next_minute};
use crate::printing::print_slice;
use frontier_sync::Heads;
use lean_fixed::{NoMemory, Resolution, Symbol, Window};
use lean_io::Sink;
use lean_items::{Arrival, Item, Pool};
use report_pages::{Page, Stop};
use std::alloc::Global;

// Prints the bars of the feeds whose first heads these are, minute by minute, until a head stops the walk or none ends in the
// window.
pub(crate) fn walk<P: Pool, S: Sink>(
    alloc: Global,
    pool: &mut P,
    heads: &mut Heads,
    resolution: Resolution,
    window: Window,
    symbols: &[Symbol],
    page: &mut Page,
    out: &mut S,
) -> Result<Ending, Stop>
    requires opened { AreOpen (P.is_open pool.old) heads.old }
    requires numbered { All (λ a. a.feed.0 < length symbols.now) heads.old }
    requires later { All (λ a. EndsFrom (pos (first_moment window + 1)) (end_of a.item)) heads.old }
    requires window { IsWindow window }
    requires order { first_moment window ≤ last_moment window }
    requires few { length symbols.now ≤ 64 }
    requires room { HasRoom page.old }
    ensures stands { (start : Start) (feeds : Feeds) → P.stands pool.old start feeds
        → All (IsTaken feeds) heads.old
        → (now : Feeds) × P.stands pool.new start now
        × IfFaulted result (HasFaulted now)
        × ((lists : Key → List GivenItem) → AllFollow lists now → AllFollow lists feeds)
        × ((lists : Key → List GivenItem) (f : Files) (hours : Entries) → AreFeeds lists f hours window
        → AllFollow lists now
        → HeadsStand (pos (first_moment window + 1)) feeds 0 heads.old (keys_of resolution window symbols.now)
        → HasWalked (session_sources f hours resolution window symbols.now) window
        (S.told out.old) (S.told out.new) page.old page.new result) }
    ensures room { OnOk result (HasRoom page.new) }
    ensures cause { IfErr result (HasCause (S.faults out.old) (S.faults out.new)) }
    ensures sink_grows { S.faults out.old ≤ S.faults out.new }
    ensures stays { Stays P.files P.lists P.faults P.place pool.old pool.new }
{
    let mut slice = Vec::new(alloc);
    let mut rows: u64 = 0;
    // Up to this minute all is printed. Only the invariant and the measure of the loop read it.
    let mut at = first_minute(window);
    'minutes: loop {
        match heads.stop() {
            Some(stop) => return Ok(ending_at(&stop, symbols)),
            None => {}
        }
        match next_minute(heads, window) {
            Some(next) => {
                slice.clear();
                match heads.slice(pool, moment_of(next), &mut slice) {
                    Ok(()) => {}
                    Err(NoMemory) => return Err(Stop::NoMemory),
                }
                match print_slice(next, symbols, &slice, page, out) {
                    Ok(printed) => rows = rows.saturating_add(printed),
                    Err(stop) => return Err(stop),
                }
                at = next;
            }
            None => return Ok(Ending::Whole(rows)),
        }
    }
}

// The number of the first moment of a window.
fn first_minute(window: Window) -> u32
    requires { IsWindow window }
    ensures { result ≡ first_moment window }
{
    window.first_moment().0 as u32
}

// What a head says that ends the walk.
fn ending_at(stop: &Arrival, symbols: &[Symbol]) -> Ending
    requires stops { stops stop.now.item ≡ true }
    requires numbered { stop.now.feed.0 < length symbols.now }
    ensures { IsEnding symbols.now stop.now result }
{
    match stop.item {
        Item::Bad(bad) => Ending::Refused(symbols[stop.feed.0 as usize], bad),
        Item::Faulted => Ending::Faulted,
        Item::Bar(_) => unreachable!(),
        Item::Coarse(_, _) => unreachable!(),
        Item::End => unreachable!(),
    }
}
