//! The definitions, computed on rows whose answers are known. Each value is the contract of a function that does nothing.
ghost use Rattle.std.specs.Prelude.{◌≡◌, ◌∷◌, [], codes, map, Some, None};
ghost use Rattle.lean_fixed.specs.declared.resolution.Resolution.TheVariants.{Minute, Hour, Daily};
ghost use Rattle.lean_items.specs.declared.item.Item.TheVariants.{Bar as BarItem, Bad as BadItem, End};
ghost use Rattle.lean_items.specs.declared.reason.Reason.TheVariants.{Fields, Order};
ghost use Rattle.clock_feeds.specs.Bars.{bar_at, blocked};
ghost use Rattle.clock_feeds.specs.Feeds.{bars_of, coarse_of, items_from};
ghost use Rattle.clock_feeds.specs.Slices.{slice, refused, coarse_at};
ghost use Rattle.clock_feeds.specs.Known.{bars_by, coarse_blocked};
ghost use Rattle.clock_feeds.specs.Worked.{usual_hours, night_hours, days, spider, universe, everywhere, two_days, two_nights, sunday, lines_of, ends, hour_bar, filled_bar, two_bars, malformed, by_hours, two_sources};

/// Of five minutes of a Friday those are kept that start from 09:30 on and before 16:00: the bar that ends as the session
/// opens and the one that starts as it closes are out of session.
pub fn minutes_of_a_session()
    ensures { ends (bars_of (everywhere (lines_of (
        codes "34080000,5,5,5,5,7" ∷ codes "34140000,5,5,5,5,7" ∷ codes "34200000,5,5,5,5,7"
        ∷ codes "57540000,5,5,5,5,7" ∷ codes "57600000,5,5,5,5,7" ∷ [])))
        usual_hours (days 1 1) (spider Minute 1440) (codes "SPY") Minute).rows ≡ 2011 ∷ 2400 ∷ [] }
{}

/// The hour bar of 09:00 straddles the opening, so it is in session; those of 08:00 and of 16:00 are not.
pub fn hours_of_a_session()
    ensures { ends (bars_of (everywhere (lines_of (
        codes "19700102 08:00,5,5,5,5,7" ∷ codes "19700102 09:00,5,5,5,5,7"
        ∷ codes "19700102 15:00,5,5,5,5,7" ∷ codes "19700102 16:00,5,5,5,5,7" ∷ [])))
        usual_hours (days 1 1) (spider Hour 1440) (codes "SPY") Hour).rows ≡ 2040 ∷ 2400 ∷ [] }
{}

/// The daily row of a holiday has no end: it is not kept, and the rows past it are.
pub fn days_and_a_holiday()
    ensures { ends (bars_of (everywhere (lines_of (
        codes "19700102 00:00,5,5,5,5,7" ∷ codes "19700105 00:00,5,5,5,5,7"
        ∷ codes "19700106 00:00,5,5,5,5,7" ∷ [])))
        usual_hours (days 1 5) (spider Daily 1440) (codes "SPY") Daily).rows ≡ 2400 ∷ 8160 ∷ [] }
{}

/// A malformed line behind the first row past the window is never seen; one before it ends the feed. A row that ends at
/// 24:00 of the window's last day is none past it.
pub fn cuts()
    ensures past { bars_of (everywhere (lines_of (
        codes "19700102 10:00,5,5,5,5,7" ∷ codes "19700106 10:00,5,5,5,5,7" ∷ codes "x" ∷ [])))
        usual_hours (days 1 1) (spider Hour 1440) (codes "SPY") Hour
        ≡ record { rows = hour_bar 2100 5 ∷ []; stop = None } }
    ensures malformed { bars_of (everywhere (lines_of (
        codes "19700102 10:00,5,5,5,5,7" ∷ codes "" ∷ codes "x"
        ∷ codes "19700102 12:00,6,6,6,6,7" ∷ [])))
        usual_hours (days 1 1) (spider Hour 1440) (codes "SPY") Hour
        ≡ record { rows = hour_bar 2100 5 ∷ []; stop = Some malformed } }
    ensures last { ends (bars_of (everywhere (lines_of (
        codes "19700104 23:00,5,5,5,5,7" ∷ codes "19700105 00:00,5,5,5,5,7" ∷ [])))
        night_hours (days 3 3) (spider Hour 4320) (codes "SPY") Hour).rows ≡ 5760 ∷ [] }
{}

/// A feed gives what ends past its start, be that within a day.
pub fn start_within_a_day()
    ensures { ends (bars_of (everywhere (lines_of (
        codes "19700102 09:00,5,5,5,5,7" ∷ codes "19700102 10:00,5,5,5,5,7"
        ∷ codes "19700102 11:00,5,5,5,5,7" ∷ [])))
        usual_hours (days 1 1) (spider Hour 2100) (codes "SPY") Hour).rows ≡ 2160 ∷ [] }
{}

/// The order of rows is that within one file: the first row of Tuesday starts earlier in its day than the last one of
/// Friday.
pub fn order_in_a_file()
    ensures rows { ends (bars_of two_days usual_hours
        (days 1 5) (spider Minute 1440) (codes "SPY") Minute).rows ≡ 2041 ∷ 7771 ∷ [] }
    ensures stop { (bars_of two_days usual_hours
        (days 1 5) (spider Minute 1440) (codes "SPY") Minute).stop ≡ Some (record { file = 5; line = 2; reason = Order }) }
{}

/// The sessions of Sunday evening and of Monday meet at midnight: the bars on both sides of it are in session.
pub fn sessions_that_meet()
    ensures { ends (bars_of two_nights night_hours
        (days 3 4) (spider Minute 4320) (codes "SPY") Minute).rows ≡ 5760 ∷ 5761 ∷ [] }
{}

/// The coarse file of a Sunday is known from 00:00 of Monday on. A row whose symbol is none is passed over.
pub fn coarse_of_a_sunday()
    ensures rows { map (λ t. map (λ row. row.symbol)
        (coarse_at (coarse_of sunday usual_hours (days 4 5) (universe 5759)) t))
        (4320 ∷ 5759 ∷ 5760 ∷ [])
        ≡ [] ∷ [] ∷ (codes "SPY" ∷ []) ∷ [] }
    ensures stop { (coarse_of sunday usual_hours (days 4 5) (universe 5759)).stop
        ≡ Some (record { file = 3; line = 3; reason = Fields }) }
    ensures blocked { map (coarse_blocked (coarse_of sunday usual_hours (days 4 5) (universe 5759)))
        (5759 ∷ 5760 ∷ [])
        ≡ None ∷ Some (record { file = 3; line = 3; reason = Fields }) ∷ [] }
{}

/// Two rows are filled at the grid's ends past each of them: up to the closing, or not behind the malformed line.
pub fn bars_of_a_day()
    ensures filled { map (bar_at by_hours (two_bars None))
        (2040 ∷ 2100 ∷ 2160 ∷ 2190 ∷ 2220 ∷ 2400 ∷ 2460 ∷ [])
        ≡ None ∷ Some (hour_bar 2100 5) ∷ Some (filled_bar 2160 5) ∷ None ∷ Some (hour_bar 2220 6)
        ∷ Some (filled_bar 2400 6) ∷ None ∷ [] }
    ensures malformed { map (bar_at by_hours (two_bars (Some malformed))) (2160 ∷ 2220 ∷ 2280 ∷ [])
        ≡ Some (filled_bar 2160 5) ∷ Some (hour_bar 2220 6) ∷ None ∷ [] }
    ensures blocked { map (blocked (two_bars (Some malformed))) (2219 ∷ 2220 ∷ [])
        ≡ None ∷ Some malformed ∷ [] }
{}

/// The items of that day.
pub fn items_of_a_day()
    ensures filled { items_from by_hours (two_bars None) 2040
        ≡ BarItem (hour_bar 2100 5) ∷ BarItem (filled_bar 2160 5) ∷ BarItem (hour_bar 2220 6)
        ∷ BarItem (filled_bar 2280 6) ∷ BarItem (filled_bar 2340 6) ∷ BarItem (filled_bar 2400 6)
        ∷ End ∷ [] }
    ensures malformed { items_from by_hours (two_bars (Some malformed)) 2040
        ≡ BarItem (hour_bar 2100 5) ∷ BarItem (filled_bar 2160 5) ∷ BarItem (hour_bar 2220 6)
        ∷ BadItem malformed ∷ [] }
{}

/// The bars up to a moment are those that have ended, filled ones among them.
pub fn bars_up_to_a_moment()
    ensures { bars_by (record { filling = by_hours; kept = two_bars None }) 2219
        ≡ hour_bar 2100 5 ∷ filled_bar 2160 5 ∷ [] }
{}

/// What ends at a moment over two sources, and which of them is refused.
pub fn slices()
    ensures both { slice two_sources 2220 ≡ (1, hour_bar 2220 6) ∷ (2, hour_bar 2220 6) ∷ [] }
    ensures one { slice two_sources 2280 ≡ (1, filled_bar 2280 6) ∷ [] }
    ensures none { refused two_sources 2219 ≡ None }
    ensures refused { refused two_sources 2220 ≡ Some (2, malformed) }
{}
