//! Securities are marked at a choice, and leave once they are done with.
ghost use Rattle.std.specs.Prelude.{◌≡◌, ◌≤◌, ◌++◌, [], ◌∷◌, ℕ, List, map, unsigned_abs, vec_len, if◌then◌else◌, not, ◌&&◌, IfOk, OnOk};
ghost use Rattle.std.specs.List.{AllZip, AllByRecursion as Each};
ghost use Rattle.bar_windows.specs.declared.spec.WindowSpec.{WindowSpec};
ghost use Rattle.lean_fixed.specs.Ranges.{IsPrintedMoment};
ghost use Rattle.universe_state.specs.Choice.{is_selected};
ghost use Rattle.clock_book.specs.Seen.{Seen};
ghost use Rattle.backtest_core.specs.Standing.{Followed};
ghost use Rattle.backtest_core.specs.Inside.{marked_so};
ghost use Rattle.backtest_core.specs.Watching.{active_in, WatchesAt};
ghost use Rattle.backtest_core.specs.Asking.{HasWindows};
ghost use Rattle.backtest_core.specs.Mirror.{Sees};
ghost use Rattle.backtest_core.specs.Leaving.{is_done, leaving_of, staying_of, lines_of};
ghost use Rattle.backtest_core.specs.Text.{lines_bytes};

use crate::lines::append_removed;
use crate::mirror::Mirror;
use crate::watched::Watched;
use lean_fixed::{Moment, NoMemory, Symbol};
use lean_items::FeedNo;
use std::alloc::Global;

/// Marks the securities that are not selected, but for those that the plan lists, and unmarks those that are.
pub(crate) fn mark_all(watched: &mut Vec<Watched>, symbols: &[Symbol])
    ensures marks { (t : ℕ) (fs : List Followed) → AllZip (WatchesAt t) watched.old.items fs
        → AllZip (WatchesAt t) watched.new.items (map (marked_so symbols.now) fs) }
    ensures windows { (specs : List WindowSpec) → Each (HasWindows specs) watched.old.items
        → Each (HasWindows specs) watched.new.items }
    ensures len { vec_len watched.new ≡ vec_len watched.old }
{
    for i in 0..watched.len() {
        let security = &mut watched[i];
        security.mark(symbols);
    }
}

impl Watched {
    fn mark(&mut self, symbols: &[Symbol])
        ensures specs { self.new.following.windows.specs ≡ self.old.following.windows.specs }
        ensures marks { (t : ℕ) (f : Followed) → WatchesAt t self.old f → WatchesAt t self.new (marked_so symbols.now f) }
    {
        self.marked = is_to_leave(self.listed, symbols.contains(&self.symbol));
    }
}

fn is_to_leave(listed: bool, selected: bool) -> bool
    ensures { result ≡ (not listed && not selected) }
{
    !listed && !selected
}

/// The numbers of the feeds of the securities that are done with, whose lines are appended.
pub(crate) fn tell_leaving(
    alloc: Global,
    watched: &[Watched],
    mirror: &Mirror,
    at: Moment,
    text: &mut Vec<u8>,
) -> Result<Vec<FeedNo>, NoMemory>
    requires { IsPrintedMoment at.0 }
    ensures feeds { IfOk result (λ feeds. (seen : Seen) → Sees mirror.now seen
        → feeds.items ≡ map (λ w. w.feed) (leaving_of seen watched.now)) }
    ensures text { OnOk result ((seen : Seen) → Sees mirror.now seen
        → text.new.items ≡ text.old.items ++ lines_bytes (lines_of (unsigned_abs at.0) (leaving_of seen watched.now))) }
{
    let mut feeds = Vec::new(alloc);
    for security in watched {
        tell_if_leaving(security, mirror, at, &mut feeds, text)?;
    }
    Ok(feeds)
}

fn tell_if_leaving(
    security: &Watched,
    mirror: &Mirror,
    at: Moment,
    feeds: &mut Vec<FeedNo>,
    text: &mut Vec<u8>,
) -> Result<(), NoMemory>
    requires { IsPrintedMoment at.0 }
    ensures feeds { OnOk result ((seen : Seen) → Sees mirror.now seen
        → feeds.new.items ≡ feeds.old.items ++ map (λ w. w.feed) (leaving_of seen (security.now ∷ []))) }
    ensures text { OnOk result ((seen : Seen) → Sees mirror.now seen
        → text.new.items ≡ text.old.items
        ++ lines_bytes (lines_of (unsigned_abs at.0) (leaving_of seen (security.now ∷ [])))) }
{
    if is_done(security, mirror) {
        append_removed(at, security.symbol, text)?;
        feeds.push(security.feed)?;
    }
    Ok(())
}

// Whether a security is marked, nothing is held of it and no order of it is live.
fn is_done(security: &Watched, mirror: &Mirror) -> bool
    ensures { (seen : Seen) → Sees mirror.now seen → result ≡ is_done seen (active_in security.now) }
{
    security.marked
        && mirror.position(security.symbol).0 == 0
        && mirror.orders_of(security.symbol).is_empty()
}

/// Forgets the securities that are done with.
pub(crate) fn forget(watched: &mut Vec<Watched>, mirror: &Mirror)
    ensures stay { (seen : Seen) → Sees mirror.now seen → watched.new.items ≡ staying_of seen watched.old.items }
    ensures len { vec_len watched.new ≤ vec_len watched.old }
{
    watched.retain(
        |security| -> bool
            ensures { (seen : Seen) → Sees mirror.entry.now seen → result ≡ not (is_done seen (active_in security.now)) }
        { !is_done(security, mirror) },
    );
}
