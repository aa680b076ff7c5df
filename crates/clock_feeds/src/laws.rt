//! What is true of the kept rows, the bars and the lists of all feeds. Each law is the contract of a function that does
//! nothing.
ghost use Rattle.std.specs.Prelude.{◌≡◌, ℕ, ◌+◌, ◌<◌, ◌≤◌, ◌⊎◌, ◌^◌, true, false, ℤ, ◌≤ℤ◌, ◌<ℤ◌, pos, List, [], ◌∷◌, ◌++◌, map, length, Option, Some, None, find, option_to_list};
ghost use Rattle.std.specs.List.{All, list_all};
ghost use Rattle.lean_fixed.specs.declared.resolution.Resolution.{Resolution};
ghost use Rattle.lean_fixed.specs.declared.time.Moment.{Moment};
ghost use Rattle.lean_fixed.specs.declared.time.Window.{Window};
ghost use Rattle.lean_fixed.specs.Moments.{last_moment};
ghost use Rattle.lean_fixed.specs.Ranges.{IsWindow};
ghost use Rattle.lean_io.specs.Told.{Files};
ghost use Rattle.lean_items.specs.declared.bad.Bad.{Bad};
ghost use Rattle.lean_items.specs.declared.bar.Bar.{Bar};
ghost use Rattle.lean_items.specs.declared.coarse_row.CoarseRow.{CoarseRow};
ghost use Rattle.lean_items.specs.declared.feed_key.FeedKey.{FeedKey};
ghost use Rattle.lean_items.specs.declared.feed_key.FeedKind.TheVariants.{Coarse, Equity};
ghost use Rattle.lean_items.specs.declared.item.Item.{Item};
ghost use Rattle.lean_items.specs.declared.item.Item.TheVariants.{Bar as BarItem, Coarse as CoarseItem, Bad as BadItem, End};
ghost use Rattle.lean_items.specs.Fits.{Rises as ItemsRise};
ghost use Rattle.lean_items.specs.Given.{IsRow};
ghost use Rattle.exchange_hours.specs.Entries.{Entries};
ghost use Rattle.exchange_hours.specs.Sessions.{LieInDays};
ghost use Rattle.feed_paths.specs.Files.{from_1970};
ghost use Rattle.clock_feeds.specs.Kept.{Kept};
ghost use Rattle.clock_feeds.specs.Bars.{Filling, end_of, ends_at, bar_at, blocked};
ghost use Rattle.clock_feeds.specs.Feeds.{last_item, items_from, coarse_items, bars_of, coarse_of, filling_of, rows, feed};
ghost use Rattle.clock_feeds.specs.Slices.{Source, source, bars_at, blocked_at, slice, refused, coarse_at};
ghost use Rattle.clock_feeds.specs.Stands.{EndBy, Rises};
ghost use Rattle.clock_feeds.specs.Known.{bars_by, coarse_blocked, feed_bars, feed_blocked};
ghost use Rattle.clock_feeds.specs.Grid.{start_of, HoldsWhole, IsOnGrid, LiesInPeriod};
ghost use Rattle.clock_feeds.specs.Ahead.{AreWellFormed, AgreeUntil};
ghost use Rattle.clock_feeds.specs.Lists.{IsSound, IsSoundRow, RowsRise, StopsInFile, IsInFile, IsOfKind, IsWhole, EndsWithin, IsNextBar, IsAtEnd, bar_ending, bars_ending, rows_ending, is_by, is_before, blocked_in, list_of, bars_in, bad_in, slice_in, refused_in, EndInWindows};

/// The kept bars of a security end past the start of its feed, one past the other, and not past the end of the window, and
/// their numbers are in their ranges.
pub fn kept_bars_are_sound()
    ensures sound { (files : Files) (hours : Entries) (window : Window) (key : FeedKey)
        (symbol : List ℕ) (resolution : Resolution) → LieInDays hours → IsWindow window
        → key.kind ≡ Equity symbol resolution
        → All (IsSound key.start.0 (last_moment window))
        (bars_of files hours window key symbol resolution).rows }
    ensures rise { (files : Files) (hours : Entries) (window : Window) (key : FeedKey)
        (symbol : List ℕ) (resolution : Resolution) → LieInDays hours → IsWindow window
        → key.kind ≡ Equity symbol resolution
        → Rises (from_1970 key.start.0) (bars_of files hours window key symbol resolution).rows }
    ensures end { (files : Files) (hours : Entries) (window : Window) (key : FeedKey)
        (symbol : List ℕ) (resolution : Resolution) → LieInDays hours → IsWindow window
        → key.kind ≡ Equity symbol resolution
        → EndBy (last_moment window) (bars_of files hours window key symbol resolution).rows }
{}

/// The kept coarse rows end past the start of the feed and not past the end of the window, their ends do not fall, and
/// their numbers are in their ranges.
pub fn kept_rows_are_sound()
    ensures sound { (files : Files) (hours : Entries) (window : Window) (key : FeedKey)
        → IsWindow window → key.kind ≡ Coarse
        → All (IsSoundRow key.start.0 (last_moment window))
        (coarse_of files hours window key).rows }
    ensures rise { (files : Files) (hours : Entries) (window : Window) (key : FeedKey)
        → IsWindow window → key.kind ≡ Coarse
        → RowsRise 0 (coarse_of files hours window key).rows }
{}

/// The malformed line at which a feed ends is one of a file that has a number.
pub fn malformed_lines_have_files()
    ensures bars { (files : Files) (hours : Entries) (window : Window) (key : FeedKey)
        (symbol : List ℕ) (resolution : Resolution) → IsWindow window
        → key.kind ≡ Equity symbol resolution
        → StopsInFile (bars_of files hours window key symbol resolution).stop }
    ensures rows { (files : Files) (hours : Entries) (window : Window) (key : FeedKey)
        → IsWindow window → key.kind ≡ Coarse
        → StopsInFile (coarse_of files hours window key).stop }
    ensures feed { (files : Files) (hours : Entries) (window : Window) (key : FeedKey)
        → IsWindow window → All IsInFile (feed files hours window key) }
{}

/// The list of a security has no coarse row, and that of the coarse universe no bar.
pub fn lists_are_of_their_kind()
    ensures { (files : Files) (hours : Entries) (window : Window) (key : FeedKey)
        → All (IsOfKind key.kind) (feed files hours window key) }
{}

/// A list is rows and behind them one last item, a malformed line or the end.
pub fn lists_are_whole()
    ensures feed { (files : Files) (hours : Entries) (window : Window) (key : FeedKey)
        → IsWhole (feed files hours window key) }
    ensures rows { (files : Files) (hours : Entries) (window : Window) (key : FeedKey)
        → IsWhole (rows files hours window key) }
{}

/// The rows of a list rise past the start of the feed, those of coarse files do not fall, and their numbers are in their
/// ranges.
pub fn lists_rise()
    ensures feed { (files : Files) (hours : Entries) (window : Window) (key : FeedKey)
        → LieInDays hours → IsWindow window
        → ItemsRise key.start.0 (feed files hours window key) }
    ensures rows { (files : Files) (hours : Entries) (window : Window) (key : FeedKey)
        → LieInDays hours → IsWindow window
        → ItemsRise key.start.0 (rows files hours window key) }
{}

/// Each row of a list ends past the start of the feed, and not past the end of the window.
pub fn lists_lie_within()
    ensures feed { (files : Files) (hours : Entries) (window : Window) (key : FeedKey)
        → LieInDays hours → IsWindow window
        → All (EndsWithin key.start.0 (pos (last_moment window))) (feed files hours window key) }
    ensures rows { (files : Files) (hours : Entries) (window : Window) (key : FeedKey)
        → LieInDays hours → IsWindow window
        → All (EndsWithin key.start.0 (pos (last_moment window))) (rows files hours window key) }
{}

/// No list has 2^40 items.
pub fn lists_are_short()
    ensures feed { (files : Files) (hours : Entries) (window : Window) (key : FeedKey)
        → LieInDays hours → IsWindow window → length (feed files hours window key) < 2 ^ 40 }
    ensures rows { (files : Files) (hours : Entries) (window : Window) (key : FeedKey)
        → LieInDays hours → IsWindow window → length (rows files hours window key) < 2 ^ 40 }
{}

/// The list of a feed that does not fill is its kept rows.
pub fn plain_feeds()
    ensures { (files : Files) (hours : Entries) (window : Window) (key : FeedKey)
        → LieInDays hours → IsWindow window → key.fill ≡ false
        → feed files hours window key ≡ rows files hours window key }
{}

/// The bar at a moment ends there, and where the kept rows are sound it is, filled or not.
pub fn bars_are_sound()
    ensures end { (f : Filling) (kept : Kept Bar) (t : ℕ) (bar : Bar) → bar_at f kept t ≡ Some bar
        → end_of bar ≡ t }
    ensures sound { (start : ℤ) (f : Filling) (kept : Kept Bar) (t : ℕ) (bar : Bar)
        → f.last ≤ 121000000 → All (IsSound start f.last) kept.rows
        → t ≤ f.last → bar_at f kept t ≡ Some bar → IsSound start f.last bar }
{}

/// There is no bar up to the start of a feed, nor past the end of the window, and moments without a bar may be left out of
/// its walk.
pub fn idle_feeds()
    ensures early { (f : Filling) (kept : Kept Bar) (after t : ℕ) → Rises after kept.rows
        → t ≤ after → bar_at f kept t ≡ None }
    ensures late { (f : Filling) (kept : Kept Bar) (t : ℕ) → EndBy f.last kept.rows
        → f.last < t → bar_at f kept t ≡ None }
    ensures skipped { (f : Filling) (kept : Kept Bar) (from until : ℕ)
        → from ≤ until → until ≤ f.last + 1
        → ((t : ℕ) → from ≤ t → t < until → bar_at f kept t ≡ None)
        → items_from f kept from ≡ items_from f kept until }
    ensures started { (f : Filling) (kept : Kept Bar) (after from : ℕ) → Rises after kept.rows
        → from ≤ after + 1 → after ≤ f.last
        → items_from f kept from ≡ items_from f kept (after + 1) }
{}

/// The items of a security from a moment on are the next bar and the items past it, or the last item alone.
pub fn next_items()
    ensures begins { (f : Filling) (kept : Kept Bar) (from : ℕ)
        → ((bar : Bar) × IsNextBar f kept from bar) ⊎ IsAtEnd f kept from }
    ensures bar { (f : Filling) (kept : Kept Bar) (from : ℕ) (bar : Bar) (rest : List Item)
        → items_from f kept from ≡ BarItem bar ∷ rest
        → IsNextBar f kept from bar × (rest ≡ items_from f kept (end_of bar + 1)) }
    ensures bad { (f : Filling) (kept : Kept Bar) (from : ℕ) (bad : Bad) (rest : List Item)
        → items_from f kept from ≡ BadItem bad ∷ rest
        → IsAtEnd f kept from × (kept.stop ≡ Some bad) × (rest ≡ []) }
    ensures end { (f : Filling) (kept : Kept Bar) (from : ℕ) (rest : List Item)
        → items_from f kept from ≡ End ∷ rest
        → IsAtEnd f kept from × (kept.stop ≡ None) × (rest ≡ []) }
{}

/// A feed is not blocked before the end of a bar of its own. Once its last item alone is left, it is blocked where that is a
/// malformed line.
pub fn blocked_feeds()
    ensures before { (f : Filling) (kept : Kept Bar) (end : ℕ) (bar : Bar) (t : ℕ)
        → bar_at f kept end ≡ Some bar → t < end → blocked kept t ≡ None }
    ensures at_end { (f : Filling) (kept : Kept Bar) (from t : ℕ) → IsAtEnd f kept from
        → EndBy f.last kept.rows → from ≤ t + 1 → blocked kept t ≡ kept.stop }
{}

/// What ends at a moment can be read off the lists of the feeds.
pub fn lists_tell_slices<N>()
    ensures source { (name : N) (files : Files) (hours : Entries) (window : Window) (key : FeedKey)
        (symbol : List ℕ) (resolution : Resolution) → key.kind ≡ Equity symbol resolution
        → list_of (name, source files hours window key symbol resolution)
        ≡ (name, feed files hours window key) }
    ensures bars { (source : N × Source) (t : ℕ) → EndBy source.1.filling.last source.1.kept.rows
        → bars_at t source ≡ bars_in t (list_of source) }
    ensures bad { (source : N × Source) (t : ℕ) → EndBy source.1.filling.last source.1.kept.rows
        → blocked_at t source ≡ bad_in t (list_of source) }
    ensures slice { (sources : List (N × Source)) (t : ℕ) → EndInWindows sources
        → slice sources t ≡ slice_in (map list_of sources) t }
    ensures refused { (sources : List (N × Source)) (t : ℕ) → EndInWindows sources
        → refused sources t ≡ refused_in (map list_of sources) t }
{}

/// What ends at a moment, and whether a feed is blocked then, can be read off its list, whatever its key.
pub fn lists_tell_feeds()
    ensures bars { (files : Files) (hours : Entries) (window : Window) (key : FeedKey)
        (symbol : List ℕ) (resolution : Resolution) (t : ℕ) → LieInDays hours → IsWindow window
        → key.kind ≡ Equity symbol resolution
        → bars_ending t (feed files hours window key)
        ≡ option_to_list (bar_at (filling_of hours window key resolution)
        (bars_of files hours window key symbol resolution) t) }
    ensures rows { (files : Files) (hours : Entries) (window : Window) (key : FeedKey) (t : ℕ)
        → key.kind ≡ Coarse
        → rows_ending t (feed files hours window key) ≡ coarse_at (coarse_of files hours window key) t }
    ensures blocked { (files : Files) (hours : Entries) (window : Window) (key : FeedKey) (t : ℕ)
        → LieInDays hours → IsWindow window
        → blocked_in (feed files hours window key) t ≡ feed_blocked files hours window key t }
{}

/// The coarse rows that are known from a moment on can be read off the list of their feed.
pub fn lists_tell_rows()
    ensures { (kept : Kept (ℕ × CoarseRow)) (t : ℕ)
        → coarse_at kept t ≡ rows_ending t (coarse_items kept) }
{}

/// Where a list that rises stands at a moment, some of its bars being past: the next one is all that may end then, and the
/// list is blocked only once the last item alone is left, be its rows bars or coarse ones.
pub fn standing_lists()
    ensures past { (z : ℤ) (front rest : List Item) (bar : Bar) → pos 0 ≤ℤ z
        → ItemsRise z (front ++ BarItem bar ∷ rest)
        → list_all (is_before (end_of bar)) front ≡ true }
    ensures bar { (z : ℤ) (t : ℕ) (front rest : List Item) (bar : Bar) → pos 0 ≤ℤ z
        → ItemsRise z (front ++ BarItem bar ∷ rest)
        → list_all (is_before t) front ≡ true → t ≤ end_of bar
        → bars_ending t (front ++ BarItem bar ∷ rest)
        ≡ option_to_list (bar_ending t (BarItem bar)) }
    ensures last { (t : ℕ) (front : List Item) (stop : Option Bad)
        → list_all (is_before t) front ≡ true
        → bars_ending t (front ++ last_item stop ∷ []) ≡ [] }
    ensures open { (t : ℕ) (front rest : List Item) (bar : Bar) → t < end_of bar
        → blocked_in (front ++ BarItem bar ∷ rest) t ≡ None }
    ensures waits { (t : ℕ) (front rest : List Item) (at : Moment) (row : CoarseRow) → pos t <ℤ at.0
        → blocked_in (front ++ CoarseItem at row ∷ rest) t ≡ None }
    ensures closed { (t : ℕ) (front : List Item) (stop : Option Bad) → All IsRow front
        → list_all (is_by t) front ≡ true → blocked_in (front ++ last_item stop ∷ []) t ≡ stop }
{}

/// A feed that is blocked stays blocked, by the same malformed line.
pub fn blocked_feeds_stay()
    ensures bars { (kept : Kept Bar) (t u : ℕ) (bad : Bad) → t ≤ u
        → blocked kept t ≡ Some bad → blocked kept u ≡ Some bad }
    ensures rows { (kept : Kept (ℕ × CoarseRow)) (t u : ℕ) (bad : Bad) → t ≤ u
        → coarse_blocked kept t ≡ Some bad → coarse_blocked kept u ≡ Some bad }
    ensures feed { (files : Files) (hours : Entries) (window : Window) (key : FeedKey) (t u : ℕ)
        (bad : Bad) → t ≤ u → feed_blocked files hours window key t ≡ Some bad
        → feed_blocked files hours window key u ≡ Some bad }
{}

/// The bars of a security up to a moment only grow, each time by the bar that ends then.
pub fn bars_grow()
    ensures grow { (s : Source) (before t : ℕ) → before < t
        → ((u : ℕ) → before < u → u < t → bar_at s.filling s.kept u ≡ None)
        → bars_by s t ≡ bars_by s before ++ option_to_list (bar_at s.filling s.kept t) }
    ensures idle { (s : Source) (before t : ℕ) → before ≤ t
        → ((u : ℕ) → before < u → u ≤ t → bar_at s.filling s.kept u ≡ None)
        → bars_by s t ≡ bars_by s before }
    ensures none { (s : Source) (t : ℕ)
        → ((u : ℕ) → u ≤ t → bar_at s.filling s.kept u ≡ None) → bars_by s t ≡ [] }
    ensures now { (s : Source) (t : ℕ) → find (ends_at t) (bars_by s t) ≡ bar_at s.filling s.kept t }
    ensures end { (s : Source) (t : ℕ) → EndBy t (bars_by s t) }
    ensures rise { (s : Source) (after t : ℕ) → Rises after s.kept.rows → Rises after (bars_by s t) }
{}

/// The bars of a key up to a moment grow by what its list has at that moment, and there is none up to the start of its feed.
pub fn feeds_grow()
    ensures grow { (files : Files) (hours : Entries) (window : Window) (key : FeedKey) (before t : ℕ)
        → LieInDays hours → IsWindow window → before < t
        → ((u : ℕ) → before < u → u < t → bars_ending u (feed files hours window key) ≡ [])
        → feed_bars files hours window key t
        ≡ feed_bars files hours window key before ++ bars_ending t (feed files hours window key) }
    ensures now { (files : Files) (hours : Entries) (window : Window) (key : FeedKey) (t : ℕ)
        → feed_bars files hours window key (t + 1) ≡ feed_bars files hours window key t
        ++ option_to_list (find (ends_at (t + 1)) (feed_bars files hours window key (t + 1))) }
    ensures none { (files : Files) (hours : Entries) (window : Window) (key : FeedKey) (t : ℕ)
        → LieInDays hours → IsWindow window → pos t ≤ℤ key.start.0
        → feed_bars files hours window key t ≡ [] }
{}

/// The bars of a key up to a moment end past the start of its feed and in the window, have their numbers in their ranges, and
/// are bars of the grid of its resolution.
pub fn known_bars_are_sound()
    ensures sound { (files : Files) (hours : Entries) (window : Window) (key : FeedKey) (t : ℕ)
        → LieInDays hours → IsWindow window
        → All (IsSound key.start.0 (last_moment window)) (feed_bars files hours window key t) }
    ensures grid { (files : Files) (hours : Entries) (window : Window) (key : FeedKey)
        (symbol : List ℕ) (resolution : Resolution) (t : ℕ) → key.kind ≡ Equity symbol resolution
        → All (IsOnGrid hours resolution) (feed_bars files hours window key t) }
{}

/// Each bar of a security, read or filled, is a bar of the grid of its resolution. So it lies in a period of any length that
/// holds whole bars, and starts no earlier than the end of any bar before it.
pub fn bars_are_on_grid()
    ensures grid { (files : Files) (hours : Entries) (window : Window) (key : FeedKey)
        (symbol : List ℕ) (resolution : Resolution) (t : ℕ) (bar : Bar)
        → bar_at (filling_of hours window key resolution) (bars_of files hours window key symbol resolution) t
        ≡ Some bar → IsOnGrid hours resolution bar }
    ensures period { (hours : Entries) (resolution : Resolution) (period : ℕ) (bar : Bar)
        → LieInDays hours → HoldsWhole resolution period → IsOnGrid hours resolution bar
        → LiesInPeriod period bar }
    ensures apart { (hours : Entries) (resolution : Resolution) (earlier bar : Bar)
        → LieInDays hours → IsOnGrid hours resolution earlier → IsOnGrid hours resolution bar
        → end_of earlier < end_of bar → end_of earlier ≤ start_of bar }
    ensures before { (files : Files) (hours : Entries) (window : Window) (key : FeedKey)
        (symbol : List ℕ) (resolution : Resolution) (before t : ℕ) (bar : Bar)
        → LieInDays hours → key.kind ≡ Equity symbol resolution → before < t
        → bar_at (filling_of hours window key resolution) (bars_of files hours window key symbol resolution) t
        ≡ Some bar
        → EndBy (start_of bar) (feed_bars files hours window key before) }
{}

/// No look-ahead: what is known of the feeds of a window by a moment comes of the rows that end by then. Where no line is
/// malformed in two folders, and the rows that end by a moment are the same in both, the bars and the coarse rows are the same
/// at each moment up to it, and no feed is blocked.
pub fn feeds_agree()
    ensures bars { (files other : Files) (hours : Entries) (window : Window) (t : ℕ)
        → LieInDays hours → IsWindow window
        → AreWellFormed files hours window → AreWellFormed other hours window
        → AgreeUntil t files other hours window
        → (key : FeedKey) (u : ℕ) → u ≤ t → u ≤ last_moment window
        → feed_bars files hours window key u ≡ feed_bars other hours window key u }
    ensures rows { (files other : Files) (hours : Entries) (window : Window) (t : ℕ)
        → LieInDays hours → IsWindow window
        → AreWellFormed files hours window → AreWellFormed other hours window
        → AgreeUntil t files other hours window
        → (key : FeedKey) (u : ℕ) → key.kind ≡ Coarse → u ≤ t → u ≤ last_moment window
        → coarse_at (coarse_of files hours window key) u
        ≡ coarse_at (coarse_of other hours window key) u }
    ensures open { (files : Files) (hours : Entries) (window : Window) → AreWellFormed files hours window
        → (key : FeedKey) (t : ℕ) → feed_blocked files hours window key t ≡ None }
{}
