//! Laws.
ghost use Rattle.std.specs.Prelude.{◌≡◌, ◌+◌, ◌-◌, ◌<◌, ◌≤◌, ℕ, pos, Bool, List, [], ◌∷◌, ◌++◌, map, find, Option, Some, None};
ghost use Rattle.std.specs.List.{AllByRecursion as Each, last_or};
ghost use Rattle.std.specs.Option.{option_to_list};
ghost use Rattle.lean_items.specs.declared.bar.Bar.{Bar};
ghost use Rattle.clock_steps.specs.Runs.{rests, IsFrontOf};
ghost use Rattle.lean_fixed.specs.declared.resolution.Resolution.{Resolution};
ghost use Rattle.lean_fixed.specs.declared.time.Window.{Window};
ghost use Rattle.lean_fixed.specs.Moments.{first_moment, last_moment};
ghost use Rattle.lean_fixed.specs.Ranges.{IsMoment, IsPrintedMoment, IsWindow};
ghost use Rattle.lean_io.specs.Told.{Files};
ghost use Rattle.lean_items.specs.declared.bad.Bad.{Bad};
ghost use Rattle.lean_items.specs.declared.feed_key.FeedKey.{FeedKey};
ghost use Rattle.exchange_hours.specs.Entries.{Entries};
ghost use Rattle.exchange_hours.specs.Sessions.{LieInDays};
ghost use Rattle.clock_feeds.specs.Ahead.{AreWellFormed, AgreeUntil};
ghost use Rattle.clock_feeds.specs.Bars.{ends_at};
ghost use Rattle.clock_run.specs.Known.{Known, World};
ghost use Rattle.clock_run.specs.States.{Setup, State, opening, equity_key};
ghost use Rattle.clock_run.specs.Moments.{marks, parts_of, moment_of};
ghost use Rattle.rule_strategy.specs.Validity.{IsPlan};
ghost use Rattle.clock_run.specs.Orderly.{IsOrderly};
ghost use Rattle.clock_book.specs.Fitting.{IsFitting};
ghost use Rattle.clock_book.specs.InRange.{HasMoney};
ghost use Rattle.clock_book.specs.Seen.{seen_of};
ghost use Rattle.clock_run.specs.InRange.{HasBarsInRange, IsWorldInRange, IsStateInRange, IsLineInRange, StaysInRange};
ghost use Rattle.clock_run.specs.Idle.{IsIdle, IsQuiet, IsSettled};
ghost use Rattle.clock_run.specs.Histories.{History, histories, given_with, closes, fresh_bar};
ghost use Rattle.clock_run.specs.Requests.{requests};
ghost use Rattle.clock_run.specs.Worlds.{world_of};
ghost use Rattle.clock_run.specs.Reports.{moments, backtest};

/// No look-ahead: what a backtest has printed and done up to some moment comes of what is known by then alone. Over the files of
/// two folders in which no line of the feeds is malformed, and in which the rows that end by a moment are the same, all moments
/// up to it have the same lines and leave the same state.
pub fn no_look_ahead()
    ensures worlds { (setup : Setup) (world other : World) (count : ℕ)
        → ((t : ℕ) → first_moment setup.plan.window ≤ t
        → t < first_moment setup.plan.window + count → world t ≡ other t)
        → moments setup world count ≡ moments setup other count }
    ensures files { (setup : Setup) (files other : Files) (t : ℕ)
        → LieInDays setup.hours → IsWindow setup.plan.window
        → AreWellFormed files setup.hours setup.plan.window → AreWellFormed other setup.hours setup.plan.window
        → AgreeUntil t files other setup.hours setup.plan.window → t ≤ last_moment setup.plan.window
        → moments setup (world_of files setup.hours setup.plan.window) (t + 1 - first_moment setup.plan.window)
        ≡ moments setup (world_of other setup.hours setup.plan.window) (t + 1 - first_moment setup.plan.window) }
    ensures front { (setup : Setup) (world : World) (t : ℕ) → t ≤ last_moment setup.plan.window
        → IsFrontOf (moments setup world (t + 1 - first_moment setup.plan.window)).lines (backtest setup world).lines }
{}

/// What is known of a folder's files goes on from moment to moment: the bars of a feed grow by the one that ends then, a feed
/// that is blocked stays so, by the same malformed line, and no bar of a feed ends by its start.
pub fn worlds_go_on()
    ensures bars { (files : Files) (hours : Entries) (window : Window) (key : FeedKey) (t : ℕ)
        → (world_of files hours window (t + 1)).bars key ≡ (world_of files hours window t).bars key
        ++ option_to_list (find (ends_at (t + 1)) ((world_of files hours window (t + 1)).bars key)) }
    ensures blocked { (files : Files) (hours : Entries) (window : Window) (key : FeedKey) (t u : ℕ)
        (bad : Bad) → t ≤ u → (world_of files hours window t).blocked key ≡ Some bad
        → (world_of files hours window u).blocked key ≡ Some bad }
    ensures fresh { (files : Files) (hours : Entries) (window : Window) (symbol : List ℕ)
        (resolution : Resolution) (fill : Bool) (t : ℕ) → LieInDays hours → IsWindow window
        → (world_of files hours window t).bars (equity_key t symbol resolution fill) ≡ [] }
{}

/// A moment at which nothing happens changes nothing and prints nothing.
pub fn idle_moments()
    ensures { (setup : Setup) (t : ℕ) (known : Known) (s : State) → IsIdle setup t known s
        → moment_of setup t known s ≡ rests s }
{}

/// A moment that is not halted leaves a state in which the orders were tried on all marks and no security waits to be
/// removed: what an idle moment asks for.
pub fn moments_settle()
    ensures settles { (setup : Setup) (t : ℕ) (known : Known) (s : State)
        → (moment_of setup t known s).stop ≡ None → IsSettled (moment_of setup t known s).state }
    ensures opening { (setup : Setup) → IsSettled (opening setup) }
{}

/// With one bar more the closes go on by those of what is given as that bar ends, the last of which is fresh then. Where no bar
/// ends, nothing is fresh.
pub fn one_bar_more()
    ensures closes { (symbol : List ℕ) (period : Option ℕ) (bars : List Bar) (bar : Bar)
        → closes (record { symbol = symbol; period = period; bars = bars ++ bar ∷ [] })
        ≡ closes (record { symbol = symbol; period = period; bars = bars })
        ++ map (λ given. given.closing) (given_with period (bars ++ bar ∷ []) (Some bar)) }
    ensures fresh { (symbol : List ℕ) (period : Option ℕ) (bars : List Bar) (bar : Bar) (t : ℕ)
        → bar.end.0 ≡ pos t
        → fresh_bar t (record { symbol = symbol; period = period; bars = bars ++ bar ∷ [] })
        ≡ last_or None (given_with period (bars ++ bar ∷ []) (Some bar)) }
    ensures quiet { (t : ℕ) (h : History) → IsQuiet t h → fresh_bar t h ≡ None }
{}

/// In every state of a backtest of a plan that was read: the numbers of the active feeds rise behind that of the coarse feed,
/// the symbols of the active securities differ, there are at most 256 of them, at most 1,000,000 requests were handled, and ids
/// count the orders from 1.
pub fn states_are_orderly()
    ensures moment { (setup : Setup) (t : ℕ) (known : Known) (s : State) → IsOrderly setup.plan s
        → IsOrderly setup.plan (moment_of setup t known s).state }
    ensures states { (setup : Setup) (world : World) (count : ℕ) → IsPlan setup.plan
        → IsOrderly setup.plan (moments setup world count).state }
{}

/// Where the bars of a world are in range, the numbers of every state of a backtest of a plan that was read are: each fill of the
/// book has the quantity, the price and the fee of a fill, each mark is a bar in range, each order that was accepted has a
/// quantity and the prices of its kind, what a refused one asked for lies within 10^18 either way, and the equities of the close
/// lines are money. So cash, equity, fees and realised profit are money. The bars of a folder's files are in range, so this holds
/// of every backtest over them. What a moment prints is in range, too: each event that it prints has a line. Each part of a
/// moment keeps this, and its marks and what its rules ask for may be given to a book.
pub fn amounts_stay_in_range()
    ensures parts { (setup : Setup) (t : ℕ) (known : Known) → HasBarsInRange known
        → Each (λ part. (s : State) → IsStateInRange s → StaysInRange t (part s)) (parts_of setup t known) }
    ensures moment { (setup : Setup) (t : ℕ) (known : Known) (s : State) → HasBarsInRange known
        → IsStateInRange s → IsStateInRange (moment_of setup t known s).state }
    ensures lines { (setup : Setup) (t : ℕ) (known : Known) (s : State) → HasBarsInRange known
        → IsStateInRange s → IsPrintedMoment (pos t)
        → Each (λ line. IsLineInRange line) (moment_of setup t known s).lines }
    ensures states { (setup : Setup) (world : World) (count : ℕ) → IsPlan setup.plan
        → IsWorldInRange world → IsStateInRange (moments setup world count).state }
    ensures sums { (s : State) → IsStateInRange s → HasMoney s.book }
    ensures marks { (t : ℕ) (known : Known) (s : State) → HasBarsInRange known → IsMoment (pos t)
        → Each (λ command. IsFitting command) (marks t (histories known s)) }
    ensures requests { (setup : Setup) (t : ℕ) (known : Known) (s : State) → IsStateInRange s
        → IsMoment (pos t)
        → Each (λ command. IsFitting command) (requests setup.plan.rules (seen_of s.book) t (histories known s)) }
    ensures files { (files : Files) (hours : Entries) (window : Window) → LieInDays hours
        → IsWindow window → IsWorldInRange (world_of files hours window) }
{}
