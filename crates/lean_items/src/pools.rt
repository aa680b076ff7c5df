ghost use Rattle.std.specs.Prelude.{◌≡◌, ℕ, ◌+◌, ◌^◌, ◌<◌, ◌≤◌, ◌==◌, Bool, true, false, not, if◌then◌else◌, List, Option, Some, IfOk, OnOk};
ghost use Rattle.std.specs.Borrow.{GName};
ghost use Rattle.lean_fixed.specs.Ranges.{IsMoment};
ghost use Rattle.lean_items.specs.declared.feed_key.FeedKey.{FeedKey};
ghost use Rattle.lean_items.specs.declared.item.Item.{Item};
ghost use Rattle.lean_items.specs.Given.{is_last, OnRow};
ghost use Rattle.lean_items.specs.Taken.{Start, Feeds, added_to, taken_of, AllFollow, FaultsRose};

use crate::{FeedKey, FeedNo, Finished, Item};
use lean_fixed::NoMemory;
use std::alloc::Global;

/// Feeds of the files of one folder, which are added and removed while items are taken of them.
///
/// A pool stands for the keys of all feeds ever added and what was taken of each. Whether that follows the lists of the
/// keys is known when the pool is finished: a pool whose feeds run in threads learns it no earlier.
pub trait Pool {
    /// What the folder tells: the bytes of each path, where it tells its files.
    ghost files: { Self → Option (List ℕ → Option (List ℕ)) };

    /// The list of the items of each key, where the folder tells its files.
    ghost lists: { Self → Option (FeedKey → List Item) };

    /// How many faults the folder and the hands that were given back to it have met.
    ghost faults: { Self → ℕ };

    /// How many hands of the folder are out.
    ghost hands: { Self → ℕ };

    /// How many feeds were ever added.
    ghost added: { Self → ℕ };

    /// A feed of this number is there, and its last item was not taken.
    ghost is_open: { Self → ℕ → Bool };

    /// No more rows than this can be taken of the feed of a number.
    ghost room: { Self → ℕ → ℕ };

    /// The folder had these counts when the pool was new, and since then this was taken of its feeds.
    ghost stands: { Self → Start → Feeds → Type 0 };

    /// Where the folder is borrowed, which stays the same.
    ghost place: { Self → GName };

    /// Of each feed fewer than 2^40 rows can be taken.
    ghost few: { (pool : Self) (n : ℕ) → room pool n < 2 ^ 40 };

    /// Adds the feed of a key, and gives its number, which is the number of feeds added before. `NoMemory`: there is no
    /// memory for it, and then the pool is only finished.
    fn add(&mut self, alloc: Global, key: FeedKey) -> Result<FeedNo, NoMemory>
        requires few { added self.old < 2 ^ 60 }
        requires key { IsMoment key.start.0 }
        ensures number { IfOk result (λ feed. feed.0 ≡ added self.old) }
        ensures added { OnOk result (added self.new ≡ added self.old + 1) }
        ensures opened { IfOk result (λ feed. (n : ℕ)
            → is_open self.new n ≡ (if n == feed.0 then true else is_open self.old n)) }
        ensures stands { (start : Start) (feeds : Feeds) → stands self.old start feeds
            → stands self.new start (added_to feeds key result) }
        ensures files { files self.new ≡ files self.old }
        ensures lists { lists self.new ≡ lists self.old }
        ensures grows { faults self.old ≤ faults self.new }
        ensures place { place self.new ≡ place self.old };

    /// Takes the next item of a feed. It takes no memory.
    fn take(&mut self, feed: FeedNo) -> Item
        requires { is_open self.old feed.0 ≡ true }
        ensures opened { (n : ℕ)
            → is_open self.new n ≡ (if n == feed.0 then not (is_last result) else is_open self.old n) }
        ensures fewer { OnRow result (room self.new feed.0 < room self.old feed.0) }
        ensures stands { (start : Start) (feeds : Feeds) → stands self.old start feeds
            → stands self.new start (taken_of feeds feed.0 result) }
        ensures added { added self.new ≡ added self.old }
        ensures files { files self.new ≡ files self.old }
        ensures lists { lists self.new ≡ lists self.old }
        ensures grows { faults self.old ≤ faults self.new }
        ensures place { place self.new ≡ place self.old };

    /// Removes a feed, of which nothing more is taken. A number that no feed has is passed over.
    fn remove(&mut self, feed: FeedNo)
        ensures opened { (n : ℕ)
            → is_open self.new n ≡ (if n == feed.0 then false else is_open self.old n) }
        ensures stands { (start : Start) (feeds : Feeds) → stands self.old start feeds
            → stands self.new start feeds }
        ensures added { added self.new ≡ added self.old }
        ensures files { files self.new ≡ files self.old }
        ensures lists { lists self.new ≡ lists self.old }
        ensures grows { faults self.old ≤ faults self.new }
        ensures place { place self.new ≡ place self.old };

    /// Gives all hands back to the folder, so that its count of faults holds theirs and as many hands are out as when the
    /// pool was new, and says how many feeds were ever added. What was taken of each feed follows the list of its key, and
    /// a failed read was taken only where the count rose since the pool was new. After this call the pool is only let go.
    fn finish(&mut self) -> Finished
        ensures feeds { result.feeds ≡ added self.old }
        ensures follow { (start : Start) (feeds : Feeds) → stands self.old start feeds
            → (lists : FeedKey → List Item) → Self.lists self.old ≡ Some lists → AllFollow lists feeds }
        ensures rose { (start : Start) (feeds : Feeds) → stands self.old start feeds
            → FaultsRose feeds start.faults (faults self.new) }
        ensures hands { (start : Start) (feeds : Feeds) → stands self.old start feeds
            → hands self.new ≡ start.hands }
        ensures files { files self.new ≡ files self.old }
        ensures lists { lists self.new ≡ lists self.old }
        ensures grows { faults self.old ≤ faults self.new }
        ensures place { place self.new ≡ place self.old };
}
