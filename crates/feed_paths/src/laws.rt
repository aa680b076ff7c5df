//! What holds of the files of a feed and of their paths. Each law is the contract of a function that does nothing.
ghost use Rattle.std.specs.Prelude.{ℕ, ◌≤◌, List, length};
ghost use Rattle.std.specs.List.Sorted.{IsStrictlyIncreasing};
ghost use Rattle.lean_fixed.specs.declared.time.Window.{Window};
ghost use Rattle.lean_fixed.specs.declared.resolution.Resolution.{Resolution};
ghost use Rattle.lean_items.specs.declared.feed_key.FeedKind.TheVariants.{Coarse, Equity};
ghost use Rattle.lean_items.specs.declared.feed_key.FeedKey.{FeedKey};
ghost use Rattle.exchange_hours.specs.Entries.{Entries};
ghost use Rattle.feed_paths.specs.Files.{files};
ghost use Rattle.feed_paths.specs.Paths.{path_of};

use lean_fixed::laws::day_reads_back;

/// The numbers of a feed's files rise.
pub fn files_rise()
    ensures { (key : FeedKey) (window : Window) (hours : Entries)
        → IsStrictlyIncreasing (files key window hours) }
{}

/// No path has more than 80 bytes, as a symbol has at most 12.
pub fn paths_are_short()
    ensures equity { (symbol : List ℕ) (resolution : Resolution) (file : ℕ)
        → length symbol ≤ 12 → length (path_of (Equity symbol resolution) file) ≤ 80 }
    ensures coarse { (file : ℕ) → length (path_of Coarse file) ≤ 80 }
{
    day_reads_back();
}
