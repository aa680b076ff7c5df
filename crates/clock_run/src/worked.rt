//! The definitions, computed on small moments and on two whole reports. Each value is the contract of a function that does
//! nothing.
ghost use Rattle.std.specs.Prelude.{◌≡◌, ◌+◌, pos, neg_ℤ, true, false, [], ◌∷◌, ◌++◌, replicate, codes, Some, None};
ghost use Rattle.lean_fixed.specs.Moments.{midnight};
ghost use Rattle.lean_fixed.specs.declared.resolution.Resolution.TheVariants.{Minute};
ghost use Rattle.lean_items.specs.declared.feed_key.FeedKind.TheVariants.{Coarse, Equity};
ghost use Rattle.exchange_hours.specs.Sessions.{moment};
ghost use Rattle.lean_orders.specs.declared.order.Kind.TheVariants.{Market};
ghost use Rattle.lean_orders.specs.declared.event.Cause.TheVariants.{BuyingPower};
ghost use Rattle.lean_orders.specs.declared.event.What.TheVariants.{Submitted, Filled, Invalid};
ghost use Rattle.rule_lang.specs.declared.token.Name.TheVariants.{Position};
ghost use Rattle.rule_lang.specs.declared.token.Comparison.TheVariants.{Equal};
ghost use Rattle.universe_rules.specs.Sample.{row};
ghost use Rattle.universe_state.specs.Sample.{security};
ghost use Rattle.clock_book.specs.Worked.{usual_hours};
ghost use Rattle.clock_run.specs.Lines.{added, removed, closed, malformed, too_many_securities};
ghost use Rattle.clock_run.specs.States.{actives, joining};
ghost use Rattle.clock_run.specs.Histories.{fresh_bar};
ghost use Rattle.clock_run.specs.Moments.{selection, removals, moment_of};
ghost use Rattle.clock_run.specs.Summary.{drawdown, held_symbols};
ghost use Rattle.clock_run.specs.Reports.{backtest, report_bytes};
ghost use Rattle.clock_run.specs.Worked.{monday, minute, minutes_of, top, plan_of, setup_of, whole, where_name, order_of, minute_bar, flat, known_by, of_symbol, world_with, world_of_two, bad_line, known_bad, three, state_of, no_orders, live_order, bought, event, two_orders, universe_plan};

/// Of three rows the two of the most dollars are selected: a security that is not among them is marked, one that was marked
/// is marked no more, a listed one never is, and the one that is not active is added with the next number.
pub fn choice()
    ensures lines { (selection (Some (top 2)) 5
        (row (codes "AAA") 5 5 10 ∷ row (codes "BBB") 5 5 50 ∷ row (codes "CCC") 5 5 40 ∷ [])
        (state_of three (no_orders 10))).lines ≡ added 5 (codes "CCC") ∷ [] }
    ensures securities { actives (selection (Some (top 2)) 5
        (row (codes "AAA") 5 5 10 ∷ row (codes "BBB") 5 5 50 ∷ row (codes "CCC") 5 5 40 ∷ [])
        (state_of three (no_orders 10))).state
        ≡ security (codes "SPY") 1 true false ∷ security (codes "AAA") 2 false true
        ∷ security (codes "BBB") 3 false false ∷ security (codes "CCC") 4 false false ∷ [] }
    ensures none { (selection (Some (top 2)) 5 [] (state_of three (no_orders 10))).lines ≡ [] }
{}

/// In the same moment the marked security goes, since nothing is held of it.
#[tactic(auto, unfolding(crate::specs::Moments::moment_of, crate::specs::Requests::requests, clock_book::specs::Handled::after, clock_book::specs::Handled::replies, exchange_hours::specs::Grid::is_closing, exchange_hours::specs::Sessions::session))]
pub fn choice_and_removal()
    ensures { (moment_of (setup_of (plan_of 2 10 0 [] (Some (top 2)) [])) (midnight (monday + 1))
        (known_by (of_symbol [] []) (row (codes "BBB") 5 5 50 ∷ row (codes "CCC") 5 5 40 ∷ []) 0)
        (state_of three (no_orders 10))).lines
        ≡ added (midnight (monday + 1)) (codes "CCC") ∷ removed (midnight (monday + 1)) (codes "AAA") ∷ [] }
{}

/// With 255 active securities one more is added, and at the next the backtest is halted.
#[tactic(auto, unfolding(crate::specs::Moments::moment_of))]
pub fn one_security_too_many()
    ensures lines { (moment_of (setup_of (plan_of 2 10 0 [] (Some (top 2)) [])) 5
        (known_by (of_symbol [] []) (row (codes "BBB") 5 5 50 ∷ row (codes "CCC") 5 5 40 ∷ []) 0)
        (state_of (replicate 255 (joining (top 2) 0 1 (codes "A"))) (no_orders 10))).lines
        ≡ added 5 (codes "BBB") ∷ [] }
    ensures stop { (moment_of (setup_of (plan_of 2 10 0 [] (Some (top 2)) [])) 5
        (known_by (of_symbol [] []) (row (codes "BBB") 5 5 50 ∷ row (codes "CCC") 5 5 40 ∷ []) 0)
        (state_of (replicate 255 (joining (top 2) 0 1 (codes "A"))) (no_orders 10))).stop
        ≡ Some too_many_securities }
    ensures room { (selection (Some (top 2)) 5 (row (codes "BBB") 5 5 50 ∷ [])
        (state_of (replicate 255 (joining (top 2) 0 1 (codes "A"))) (no_orders 10))).stop ≡ None }
{}

/// A marked security waits while something is held of it, and while an order of it is live.
pub fn removals_wait()
    ensures held { (removals 5 (state_of three
        (record (no_orders 10) { fills = bought (codes "BBB") ∷ [] }))).lines ≡ [] }
    ensures live { (removals 5 (state_of three
        (record (no_orders 10) { orders = live_order (codes "BBB") ∷ [] }))).lines ≡ [] }
    ensures done { (removals 5 (state_of three (no_orders 10))).lines ≡ removed 5 (codes "BBB") ∷ [] }
    ensures others { (removals 5 (state_of three
        (record (no_orders 10) { fills = bought (codes "SPY") ∷ [] }))).lines ≡ removed 5 (codes "BBB") ∷ [] }
{}

/// A bar within a bucket makes a security without a period fresh, and one with a period not; the bar that ends with the bucket
/// does, and a later bar completes two at once.
pub fn fresh_bars()
    ensures plain { fresh_bar (minute 2) (record { symbol = codes "SPY"; period = None; bars = flat (minute 1) 5 ∷ flat (minute 2) 6 ∷ [] })
        ≡ Some (flat (minute 2) 6) }
    ensures within { fresh_bar (minute 2) (record { symbol = codes "SPY"; period = Some 5; bars = flat (minute 1) 5 ∷ flat (minute 2) 6 ∷ [] })
        ≡ None }
    ensures completes { fresh_bar (minute 10) (record { symbol = codes "SPY"; period = Some 5; bars = flat (minute 1) 5 ∷ flat (minute 10) 6 ∷ [] })
        ≡ Some (record (flat (minute 10) 6) { start = moment (minute 5) }) }
{}

/// Both rules ask while nothing is held, since they see one state, and both orders are filled.
#[tactic(auto, unfolding(crate::specs::Moments::moment_of, crate::specs::Requests::requests, rule_strategy::specs::Asked::requests_of, rule_strategy::specs::Asked::asked, clock_book::specs::Handled::after, clock_book::specs::Handled::replies, exchange_hours::specs::Grid::is_closing, exchange_hours::specs::Sessions::session, rule_lang::specs::Values::truth_of, rule_lang::specs::Values::number_of, rule_lang::specs::Tree::windows_in, rule_lang::specs::Tree::windows_under))]
pub fn one_state_for_all_rules()
    ensures both { (moment_of (setup_of (plan_of 1 100000000 0 (minutes_of (codes "SPY") None ∷ []) None
        (order_of (where_name Equal Position 0) Market (whole 10) None ∷ order_of (where_name Equal Position 0) Market (whole 10) None ∷ [])))
        (minute 1) (world_with (codes "SPY") (flat (minute 1) 1000000 ∷ []) (minute 1))
        (state_of (joining (top 1) 0 0 (codes "SPY") ∷ []) (no_orders 100000000))).lines
        ≡ event 1 1 (Submitted Market (record { 0 = pos 10 }) None None) ∷ event 1 1 (Filled (record {
          symbol = codes "SPY";
          quantity = record { 0 = pos 10 };
          price = record { 0 = pos 1000000 };
          fee = record { 0 = pos 0 };
        }))
        ∷ event 1 2 (Submitted Market (record { 0 = pos 10 }) None None) ∷ event 1 2 (Filled (record {
          symbol = codes "SPY";
          quantity = record { 0 = pos 10 };
          price = record { 0 = pos 1000000 };
          fee = record { 0 = pos 0 };
        })) ∷ [] }
    // With less cash the second is refused, since the first has spent it.
    ensures spent { (moment_of (setup_of (plan_of 1 10000000 0 (minutes_of (codes "SPY") None ∷ []) None
        (order_of (where_name Equal Position 0) Market (whole 15) None ∷ order_of (where_name Equal Position 0) Market (whole 15) None ∷ [])))
        (minute 1) (world_with (codes "SPY") (flat (minute 1) 1000000 ∷ []) (minute 1))
        (state_of (joining (top 1) 0 0 (codes "SPY") ∷ []) (no_orders 10000000))).lines
        ≡ event 1 1 (Submitted Market (record { 0 = pos 15 }) None None) ∷ event 1 1 (Filled (record {
          symbol = codes "SPY";
          quantity = record { 0 = pos 15 };
          price = record { 0 = pos 1000000 };
          fee = record { 0 = pos 0 };
        }))
        ∷ event 1 2 (Invalid BuyingPower) ∷ [] }
{}

/// The close line comes where the session closes: at 13:00 of a day that closes early, and not at 16:00 of it.
#[tactic(auto, unfolding(crate::specs::Moments::moment_of, crate::specs::Requests::requests, clock_book::specs::Handled::after, clock_book::specs::Handled::replies, exchange_hours::specs::Grid::is_closing, exchange_hours::specs::Sessions::session))]
pub fn close_lines()
    ensures early { (moment_of
        (record { plan = plan_of 1 10 0 [] None []; hours = record usual_hours { early_closes = record { day = monday; minute = 780 } ∷ [] } })
        (minute 180) (world_with [] [] 0) (state_of [] (no_orders 10))).lines ≡ closed (minute 180) (pos 10) (pos 10) ∷ [] }
    ensures over { (moment_of
        (record { plan = plan_of 1 10 0 [] None []; hours = record usual_hours { early_closes = record { day = monday; minute = 780 } ∷ [] } })
        (minute 360) (world_with [] [] 0) (state_of [] (no_orders 10))).lines ≡ [] }
{}

/// Of the feeds that are blocked the first is named, the coarse feed before those of the securities.
#[tactic(auto, unfolding(crate::specs::Moments::moment_of, crate::specs::Requests::requests, clock_book::specs::Handled::after, clock_book::specs::Handled::replies, exchange_hours::specs::Grid::is_closing, exchange_hours::specs::Sessions::session))]
pub fn first_refusal()
    ensures coarse { (moment_of (setup_of (plan_of 1 10 0 [] (Some (top 2)) [])) (minute 0)
        (known_bad (Some (bad_line 3)) (Some (bad_line 2))) (state_of (joining (top 2) 0 1 (codes "AAA") ∷ []) (no_orders 10))).stop
        ≡ Some (malformed Coarse (bad_line 3)) }
    ensures security { (moment_of (setup_of (plan_of 1 10 0 [] (Some (top 2)) [])) (minute 0)
        (known_bad None (Some (bad_line 2)))
        (state_of (joining (top 2) 0 1 (codes "AAA") ∷ joining (top 2) 0 2 (codes "BBB") ∷ []) (no_orders 10))).stop
        ≡ Some (malformed (Equity (codes "AAA") Minute) (bad_line 2)) }
{}

/// The peak is the greatest of the starting cash and the equities before.
pub fn drawdowns()
    ensures three { drawdown (pos 100) (pos 120 ∷ pos 90 ∷ pos 110 ∷ []) ≡ pos 30 }
    ensures start { drawdown (pos 100) (pos 90 ∷ []) ≡ pos 10 }
    ensures none { drawdown (pos 100) (pos 110 ∷ pos 120 ∷ []) ≡ pos 0 }
{}

/// A day with a purchase and a stop that fills below its price, by a slip of 100 units.
pub fn day_of_two_orders()
    ensures { report_bytes (setup_of two_orders) (backtest (setup_of two_orders)
        (world_with (codes "SPY") (flat (minute 1) 1000000 ∷ minute_bar (minute 2) 900000 910000 880000 890000 1 ∷ [])))
        ≡ codes "20131007 10:01 order 1 SPY submitted market 10 -\n"
        ++ codes "20131007 10:01 order 1 SPY filled 10 100.0100 fee 0.0000\n"
        ++ codes "20131007 10:01 order 2 SPY submitted stop -10 95.0000\n"
        ++ codes "20131007 10:02 order 2 SPY filled -10 88.9900 fee 0.0000\n"
        ++ codes "20131007 16:00 close cash 9889.8000 equity 9889.8000\n"
        ++ codes "end 2 orders 2 fills 0 open\n"
        ++ codes "fees 0.0000\n"
        ++ codes "realised -110.2000\n"
        ++ codes "cash 9889.8000\n"
        ++ codes "equity 9889.8000\n"
        ++ codes "drawdown 110.2000\n" }
{}

/// Two days of a universe of one: it is sold a day after another took its place, and leaves only then.
pub fn days_of_a_universe()
    ensures { report_bytes (setup_of universe_plan) (backtest (setup_of universe_plan)
        (world_of_two (row (codes "AAA") 100000 1000 10000) (row (codes "BBB") 100000 1000 20000)
        (codes "AAA") (flat (minute 1) 100000 ∷ flat (minute 1445) 110000 ∷ [])))
        ≡ codes "20131007 00:00 add AAA\n"
        ++ codes "20131007 10:01 order 1 AAA submitted market 10 -\n"
        ++ codes "20131007 10:01 order 1 AAA filled 10 10.0000 fee 0.0000\n"
        ++ codes "20131007 16:00 close cash 900.0000 equity 1000.0000\n"
        ++ codes "20131008 00:00 add BBB\n"
        ++ codes "20131008 10:05 order 2 AAA submitted market -10 -\n"
        ++ codes "20131008 10:05 order 2 AAA filled -10 11.0000 fee 0.0000\n"
        ++ codes "20131008 10:05 remove AAA\n"
        ++ codes "20131008 16:00 close cash 1010.0000 equity 1010.0000\n"
        ++ codes "end 2 orders 2 fills 0 open\n"
        ++ codes "fees 0.0000\n"
        ++ codes "realised 10.0000\n"
        ++ codes "cash 1010.0000\n"
        ++ codes "equity 1010.0000\n"
        ++ codes "drawdown 0.0000\n" }
{}

/// Of three symbols that were traded two are held, and stand in the order of their bytes, each once.
pub fn holdings()
    ensures held { held_symbols (record (no_orders 10) {
      fills = bought (codes "SPY") ∷ bought (codes "AAPL") ∷ bought (codes "SPY") ∷ [];
    }) ≡ codes "AAPL" ∷ codes "SPY" ∷ [] }
    ensures flat { held_symbols (record (no_orders 10) {
      fills = bought (codes "SPY") ∷ record (bought (codes "SPY")) { quantity = record { 0 = neg_ℤ (pos 10) } } ∷ [];
    }) ≡ [] }
{}
