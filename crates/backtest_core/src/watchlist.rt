//! The securities of a core, one after the other.
ghost use Rattle.std.specs.Prelude.{◌≡◌, ℕ, List, map, vec_len};
ghost use Rattle.std.specs.List.{AllZip, AllByRecursion as Each};
ghost use Rattle.bar_windows.specs.declared.spec.WindowSpec.{WindowSpec};
ghost use Rattle.clock_run.specs.Idle.{IsQuiet};
ghost use Rattle.backtest_core.specs.Standing.{Followed, history, feed_of};
ghost use Rattle.backtest_core.specs.Inside.{bars_in, with_bars};
ghost use Rattle.backtest_core.specs.Slices.{FitsOnce, AreInOrder, FeedsRise};
ghost use Rattle.backtest_core.specs.Asking.{HasWindows};
ghost use Rattle.backtest_core.specs.Watching.{Watches, WatchesAt};

use crate::watched::Watched;
use crate::watching::find_bar;
use lean_items::Arrival;

/// Each security hears its bar of a slice, in which the feeds come in the order of the securities.
pub(crate) fn arrive_all(watched: &mut Vec<Watched>, slice: &[Arrival])
    ensures arrives { (t : ℕ) (fs : List Followed) → AllZip Watches watched.old.items fs
        → Each (λ f. IsQuiet t (history f)) fs
        → Each (λ f. FitsOnce t f (bars_in slice.now (feed_of f))) fs
        → AreInOrder slice.now → FeedsRise fs
        → AllZip (WatchesAt t) watched.new.items (map (with_bars slice.now) fs) }
    ensures windows { (specs : List WindowSpec) → Each (HasWindows specs) watched.old.items
        → Each (HasWindows specs) watched.new.items }
    ensures len { vec_len watched.new ≡ vec_len watched.old }
{
    let mut from = 0;
    for i in 0..watched.len() {
        let security = &mut watched[i];
        let found = find_bar(slice, from, security.feed);
        from = found.place;
        security.arrive(found.bar);
    }
}
