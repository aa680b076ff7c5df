//! The session tape from its feeds to its last line.
ghost use Rattle.std.specs.Prelude.{◌≡◌, ℕ, ◌≤◌, ◌++◌, List, Option, Some, [], length, IfOk, OnOk, OnErr, IfErr};
ghost use Rattle.lean_fixed.specs.Moments.{first_moment, last_moment};
ghost use Rattle.lean_fixed.specs.Ranges.{IsWindow};
ghost use Rattle.lean_io.specs.Told.{Files, Rose};
ghost use Rattle.lean_items.specs.declared.feed_key.FeedKey.{FeedKey as Key};
ghost use Rattle.lean_items.specs.declared.item.Item.{Item as GivenItem};
ghost use Rattle.lean_items.specs.Taken.{Start, Feeds, AllFollow, no_feeds};
ghost use Rattle.exchange_hours.specs.Entries.{Entries};
ghost use Rattle.frontier_sync.specs.Stays.{Stays};
ghost use Rattle.clock_feeds.specs.Slices.{Source as FeedSource};
ghost use Rattle.report_pages.specs.Printed.{HasCause, HasRoom};
ghost use Rattle.session_tape.specs.Session.{session_sources};
ghost use Rattle.session_tape.specs.Walked.{AreFeeds, HasFaulted, HasWalked, IfFaulted, IsWalked};
ghost use Rattle.session_tape.specs.Reports.{HasFile, IsLast, IsReport, IsReportFront};

use crate::ending::Ending;
use crate::feeds::open_feeds;
use crate::walk::walk;
use frontier_sync::Heads;
use lean_fixed::{NoMemory, Resolution, Symbol, Window};
use lean_io::Sink;
use lean_items::{FeedKind, Pool};
use report_pages::{Ended, Page, Stop, append_end, append_refusal, flush};
use std::alloc::Global;

/// Prints the session tape of some symbols, at most 64, over the feeds of a new pool, and finishes the pool. The window's
/// last day is not before its first.
///
/// `Ended::BadRow`: a malformed line was named behind the bars of its moment. `Ended::ReadFault`: a read failed, and the
/// bars of all moments up to some one were printed. `Stop`: there is no memory, or a write failed; a front of the tape was
/// printed.
pub fn print_session<P: Pool, S: Sink>(
    alloc: Global,
    pool: &mut P,
    resolution: Resolution,
    window: Window,
    symbols: &[Symbol],
    out: &mut S,
) -> Result<Ended, Stop>
    requires new { P.added pool.old ≡ 0 }
    requires window { IsWindow window }
    requires order { first_moment window ≤ last_moment window }
    requires few { length symbols.now ≤ 64 }
    ensures told { IfOk result (λ ended. (start : Start) (lists : Key → List GivenItem) (f : Files) (hours : Entries)
        → P.stands pool.old start no_feeds → P.lists pool.old ≡ Some lists → AreFeeds lists f hours window
        → IsReport resolution window (session_sources f hours resolution window symbols.now)
        (S.told out.old) (S.told out.new) ended) }
    ensures front { OnErr result ((start : Start) (lists : Key → List GivenItem) (f : Files) (hours : Entries)
        → P.stands pool.old start no_feeds → P.lists pool.old ≡ Some lists → AreFeeds lists f hours window
        → IsReportFront resolution window (session_sources f hours resolution window symbols.now)
        (S.told out.old) (S.told out.new)) }
    ensures fault { IfOk result (λ ended. (start : Start) → P.stands pool.old start no_feeds
        → ended ≡ Ended.ReadFault → Rose start.faults (P.faults pool.new)) }
    ensures hands { (start : Start) → P.stands pool.old start no_feeds → P.hands pool.new ≡ start.hands }
    ensures cause { IfErr result (HasCause (S.faults out.old) (S.faults out.new)) }
    ensures sink_grows { S.faults out.old ≤ S.faults out.new }
    ensures stays { Stays P.files P.lists P.faults P.place pool.old pool.new }
{
    match Page::new(alloc) {
        Ok(mut page) => print_on(alloc, pool, resolution, window, symbols, &mut page, out),
        Err(NoMemory) => {
            let _ = pool.finish();
            Err(Stop::NoMemory)
        }
    }
}

// Prints the session tape on an empty page.
fn print_on<P: Pool, S: Sink>(
    alloc: Global,
    pool: &mut P,
    resolution: Resolution,
    window: Window,
    symbols: &[Symbol],
    page: &mut Page,
    out: &mut S,
) -> Result<Ended, Stop>
    requires empty { page.old ≡ [] }
    requires new { P.added pool.old ≡ 0 }
    requires window { IsWindow window }
    requires order { first_moment window ≤ last_moment window }
    requires few { length symbols.now ≤ 64 }
    ensures told { IfOk result (λ ended. (start : Start) (lists : Key → List GivenItem) (f : Files) (hours : Entries)
        → P.stands pool.old start no_feeds → P.lists pool.old ≡ Some lists → AreFeeds lists f hours window
        → IsReport resolution window (session_sources f hours resolution window symbols.now)
        (S.told out.old) (S.told out.new) ended) }
    ensures front { OnErr result ((start : Start) (lists : Key → List GivenItem) (f : Files) (hours : Entries)
        → P.stands pool.old start no_feeds → P.lists pool.old ≡ Some lists → AreFeeds lists f hours window
        → IsReportFront resolution window (session_sources f hours resolution window symbols.now)
        (S.told out.old) (S.told out.new)) }
    ensures fault { IfOk result (λ ended. (start : Start) → P.stands pool.old start no_feeds
        → ended ≡ Ended.ReadFault → Rose start.faults (P.faults pool.new)) }
    ensures hands { (start : Start) → P.stands pool.old start no_feeds → P.hands pool.new ≡ start.hands }
    ensures cause { IfErr result (HasCause (S.faults out.old) (S.faults out.new)) }
    ensures sink_grows { S.faults out.old ≤ S.faults out.new }
    ensures stays { Stays P.files P.lists P.faults P.place pool.old pool.new }
{
    let walked = walk_feeds(alloc, pool, resolution, window, symbols, page, out);
    let _ = pool.finish();
    match walked {
        Ok(ending) => end(alloc, resolution, ending, page, out),
        Err(stop) => Err(stop),
    }
}

// Prints the bars of the feeds of the symbols.
fn walk_feeds<P: Pool, S: Sink>(
    alloc: Global,
    pool: &mut P,
    resolution: Resolution,
    window: Window,
    symbols: &[Symbol],
    page: &mut Page,
    out: &mut S,
) -> Result<Ending, Stop>
    requires new { P.added pool.old ≡ 0 }
    requires window { IsWindow window }
    requires order { first_moment window ≤ last_moment window }
    requires few { length symbols.now ≤ 64 }
    requires room { HasRoom page.old }
    ensures stands { (start : Start) → P.stands pool.old start no_feeds
        → (now : Feeds) × P.stands pool.new start now
        × IfFaulted result (HasFaulted now)
        × ((lists : Key → List GivenItem) (f : Files) (hours : Entries) → AreFeeds lists f hours window
        → AllFollow lists now
        → HasWalked (session_sources f hours resolution window symbols.now) window
        (S.told out.old) (S.told out.new) page.old page.new result) }
    ensures room { OnOk result (HasRoom page.new) }
    ensures cause { IfErr result (HasCause (S.faults out.old) (S.faults out.new)) }
    ensures sink_grows { S.faults out.old ≤ S.faults out.new }
    ensures stays { Stays P.files P.lists P.faults P.place pool.old pool.new }
{
    let mut heads = Heads::new(alloc);
    match open_feeds(alloc, pool, resolution, window, symbols, &mut heads) {
        Ok(()) => walk(
            alloc, pool, &mut heads, resolution, window, symbols, page, out,
        ),
        Err(NoMemory) => Err(Stop::NoMemory),
    }
}

// Prints the last line behind the page, and writes the page.
fn end<S: Sink>(
    alloc: Global,
    resolution: Resolution,
    ending: Ending,
    page: &mut Page,
    out: &mut S,
) -> Result<Ended, Stop>
    requires { HasRoom page.old }
    ensures told { IfOk result (λ ended. (told : Option (List ℕ)) (sources : List (List ℕ × FeedSource)) (window : Window)
        → IsWalked sources window told (S.told out.old) [] page.old ending
        → IsReport resolution window sources told (S.told out.new) ended) }
    ensures front { OnErr result ((told : Option (List ℕ)) (sources : List (List ℕ × FeedSource)) (window : Window)
        → IsWalked sources window told (S.told out.old) [] page.old ending
        → IsReportFront resolution window sources told (S.told out.new)) }
    ensures fault { IfOk result (λ ended. ended ≡ Ended.ReadFault → ending ≡ Ending.Faulted) }
    ensures cause { IfErr result (HasCause (S.faults out.old) (S.faults out.new)) }
    ensures grows { S.faults out.old ≤ S.faults out.new }
{
    let ended = append_last(alloc, resolution, &ending, page)?;
    flush(page, out)?;
    Ok(ended)
}

// Appends what is printed behind the last bar. Of a failed read there is nothing to print.
fn append_last(
    alloc: Global,
    resolution: Resolution,
    ending: &Ending,
    page: &mut Page,
) -> Result<Ended, NoMemory>
    requires { HasRoom page.old }
    ensures last { IfOk result (λ ended. HasFile ending.now → (last : List ℕ)
        × (page.new ≡ page.old ++ last) × IsLast resolution ending.now ended last) }
    ensures fault { IfOk result (λ ended. ended ≡ Ended.ReadFault → ending.now ≡ Ending.Faulted) }
{
    match ending {
        Ending::Whole(bars) => {
            append_end(*bars, page);
            Ok(Ended::Done)
        }
        Ending::Refused(symbol, bad) => {
            append_refusal(alloc, kind_of(symbol, resolution), bad, page)?;
            Ok(Ended::BadRow)
        }
        Ending::Faulted => Ok(Ended::ReadFault),
    }
}

// What is read of a symbol.
fn kind_of(symbol: &Symbol, resolution: Resolution) -> FeedKind
    ensures { result ≡ FeedKind.Equity symbol.now resolution }
{
    FeedKind::Equity(*symbol, resolution)
}
