//! The feeds of a run: those that are added and removed, and what ends at a moment.
ghost use Rattle.std.specs.Prelude.{◌≡◌, ℕ, ◌+◌, ◌^◌, ◌<◌, ◌≤◌, List, [], ◌∷◌, ◌++◌, length, not, IfOk, OnOk};
ghost use Rattle.std.specs.List.{All, find};
ghost use Rattle.lean_fixed.specs.Ranges.{IsMoment};
ghost use Rattle.lean_items.specs.declared.feed_key.FeedKey.{FeedKey as Key};
ghost use Rattle.lean_items.specs.declared.item.Item.{Item as GivenItem};
ghost use Rattle.lean_items.specs.Taken.{Start, Feeds};
ghost use Rattle.frontier_sync.specs.Heads.{AreOpen, AreRising, arrival, stops};
ghost use Rattle.frontier_sync.specs.Slices.{IsSliced, slice_of, MovesOn};
ghost use Rattle.frontier_sync.specs.Stays.{Stays};
ghost use Rattle.backtest_engine.specs.Meaning.{Meaning, State};
ghost use Rattle.backtest_engine.specs.Stands.{IsEarlier, Stock, broken, is_faulted};
ghost use Rattle.backtest_engine.specs.Opened.{AreNumbered, without_heads, Opened};

use crate::strategy::Strategy;
use frontier_sync::{Heads, first_head};
use lean_fixed::{Moment, NoMemory};
use lean_items::{Arrival, FeedKey, FeedNo, Item, Pool};
use std::alloc::Global;

// Adds the feeds of some keys, takes the first head of each, and tells the strategy their numbers.
pub(crate) fn add_all<C: Strategy, P: Pool>(
    alloc: Global,
    core: &mut C,
    pool: &mut P,
    heads: &mut Heads,
    keys: &mut Vec<FeedKey>,
    added: &[FeedKey],
) -> Result<(), NoMemory>
    requires few { P.added pool.old + length added.now ≤ 2 ^ 60 }
    requires starts { All (λ key. IsMoment key.start.0) added.now }
    requires opened { AreOpen (P.is_open pool.old) heads.old }
    requires numbered { AreNumbered (P.added pool.old) heads.old }
    requires kept { length keys.old.items ≡ P.added pool.old }
    ensures opened { OnOk result (AreOpen (P.is_open pool.new) heads.new) }
    ensures numbered { OnOk result (AreNumbered (P.added pool.new) heads.new) }
    ensures kept { OnOk result (length keys.new.items ≡ P.added pool.new) }
    ensures added { OnOk result (P.added pool.new ≡ P.added pool.old + length added.now) }
    ensures named { OnOk result ((m : Meaning C.Own) (s : State C.Own) → C.stands core.old m s added.now
        → P.added pool.old + length added.now ≡ m.added s.own → C.stands core.new m s []) }
    ensures orders { C.orders core.new ≤ C.orders core.old }
    ensures stands { (before : Start) (feeds : Feeds)
        → Stock (P.stands pool.old) before (P.added pool.old) heads.old keys.old.items feeds
        → (now : Feeds) × P.stands pool.new before now × IsEarlier feeds now
        × OnOk result (Opened (P.stands pool.new) before (P.added pool.old) (P.added pool.new) feeds now heads.old heads.new keys.new.items added.now) }
    ensures stays { Stays P.files P.lists P.faults P.place pool.old pool.new }
{
    'keys: for place in 0..added.len() {
        let key = &added[place];
        match add_one(alloc, core, pool, heads, keys, key) {
            Ok(()) => {}
            Err(NoMemory) => return Err(NoMemory),
        }
    }
    Ok(())
}

// Adds the feed of a key.
fn add_one<C: Strategy, P: Pool>(
    alloc: Global,
    core: &mut C,
    pool: &mut P,
    heads: &mut Heads,
    keys: &mut Vec<FeedKey>,
    key: &FeedKey,
) -> Result<(), NoMemory>
    requires few { P.added pool.old < 2 ^ 60 }
    requires start { IsMoment key.now.start.0 }
    requires opened { AreOpen (P.is_open pool.old) heads.old }
    requires numbered { AreNumbered (P.added pool.old) heads.old }
    requires kept { length keys.old.items ≡ P.added pool.old }
    ensures opened { OnOk result (AreOpen (P.is_open pool.new) heads.new) }
    ensures numbered { OnOk result (AreNumbered (P.added pool.new) heads.new) }
    ensures kept { OnOk result (length keys.new.items ≡ P.added pool.new) }
    ensures added { OnOk result (P.added pool.new ≡ P.added pool.old + 1) }
    ensures named { OnOk result ((m : Meaning C.Own) (s : State C.Own) (ks : List Key) → C.stands core.old m s (key.now ∷ ks)
        → P.added pool.old + (length ks + 1) ≡ m.added s.own → C.stands core.new m s ks) }
    ensures orders { C.orders core.new ≤ C.orders core.old }
    ensures stands { (before : Start) (feeds : Feeds)
        → Stock (P.stands pool.old) before (P.added pool.old) heads.old keys.old.items feeds
        → (now : Feeds) × P.stands pool.new before now × IsEarlier feeds now
        × OnOk result (Opened (P.stands pool.new) before (P.added pool.old) (P.added pool.new) feeds now heads.old heads.new keys.new.items (key.now ∷ [])) }
    ensures stays { Stays P.files P.lists P.faults P.place pool.old pool.new }
{
    match pool.add(alloc, *key) {
        Ok(feed) => {
            let item = first_head(pool, feed, key.start);
            match keep(heads, keys, feed, item, key) {
                Ok(()) => core.named(key, feed),
                Err(NoMemory) => Err(NoMemory),
            }
        }
        Err(NoMemory) => Err(NoMemory),
    }
}

// Keeps the key and the head of a feed that was added.
fn keep(
    heads: &mut Heads,
    keys: &mut Vec<FeedKey>,
    feed: FeedNo,
    item: Item,
    key: &FeedKey,
) -> Result<(), NoMemory>
    requires { AreNumbered feed.0 heads.old }
    ensures heads { OnOk result (heads.new ≡ heads.old ++ arrival feed item ∷ []) }
    ensures keys { OnOk result (keys.new.items ≡ keys.old.items ++ key.now ∷ []) }
{
    match heads.set(feed, item) {
        Ok(()) => {
            keys.extend_from_slice(&[*key])?;
            Ok(())
        }
        Err(NoMemory) => Err(NoMemory),
    }
}

// Removes feeds, of which nothing more is taken.
pub(crate) fn remove_all<P: Pool>(pool: &mut P, heads: &mut Heads, removed: &[FeedNo])
    requires opened { AreOpen (P.is_open pool.old) heads.old }
    ensures heads { heads.new ≡ without_heads heads.old removed.now }
    ensures opened { AreOpen (P.is_open pool.new) heads.new }
    ensures stands { (before : Start) (feeds : Feeds) → P.stands pool.old before feeds → P.stands pool.new before feeds }
    ensures added { P.added pool.new ≡ P.added pool.old }
    ensures stays { Stays P.files P.lists P.faults P.place pool.old pool.new }
{
    'removed: for place in 0..removed.len() {
        let feed = &removed[place];
        heads.forget(*feed);
        pool.remove(*feed);
    }
}

// Takes what ends at a moment, and says whether that is all of it: it is not where the next item of the coarse feed is a failed
// read.
pub(crate) fn take_slice<P: Pool>(
    pool: &mut P,
    heads: &mut Heads,
    coarse: bool,
    at: Moment,
    slice: &mut Vec<Arrival>,
) -> Result<bool, NoMemory>
    requires { AreOpen (P.is_open pool.old) heads.old }
    ensures took { (taken : ℕ → List GivenItem) × MovesOn (P.stands pool.old) (P.stands pool.new) taken
        × OnOk result (IsSliced at.0 taken heads.old heads.new × (slice.new.items ≡ slice_of at.0 taken heads.old)) }
    ensures whole { IfOk result (λ whole. whole ≡ not (broken coarse (find (λ a. stops a.item) heads.new))) }
    ensures rising { OnOk result (AreRising heads.new) }
    ensures opened { OnOk result (AreOpen (P.is_open pool.new) heads.new) }
    ensures added { P.added pool.new ≡ P.added pool.old }
    ensures stays { Stays P.files P.lists P.faults P.place pool.old pool.new }
{
    slice.clear();
    match heads.slice(pool, at, slice) {
        Ok(()) => Ok(!is_broken(coarse, &heads.stop())),
        Err(NoMemory) => Err(NoMemory),
    }
}

// Whether the first head that stops is a failed read of the coarse feed.
pub(crate) fn is_broken(coarse: bool, stop: &Option<Arrival>) -> bool
    ensures { result ≡ broken coarse stop.now }
{
    match stop {
        Some(head) => coarse && head.feed.0 == 0 && is_faulted(&head.item),
        None => false,
    }
}

fn is_faulted(item: &Item) -> bool
    ensures { result ≡ is_faulted item.now }
{
    match item {
        Item::Faulted => true,
        Item::Bad(_) => false,
        Item::Bar(_) => false,
        Item::Coarse(_, _) => false,
        Item::End => false,
    }
}
