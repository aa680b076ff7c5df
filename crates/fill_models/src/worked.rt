//! The fill table, computed on one bar of opening 100, high 110, low 90 and closing 105, with a slip of 2.
ghost use Rattle.std.specs.Prelude.{◌≡◌, pos, negsuc, true, false, Some, None};
ghost use Rattle.lean_orders.specs.declared.order.Kind.TheVariants.{Market, Limit, Stop, AtOpen};
ghost use Rattle.fill_models.specs.Worked.{tried, tried_stop_limit, tried_triggered, is_set_off};

/// Limits: at the bar's end nothing, past it their own price, and the bar's nearest where all of it is better.
pub fn limits()
    ensures buy_at { tried Limit (pos 1) (pos 90) (pos 600) ≡ None }
    ensures buy_past { tried Limit (pos 1) (pos 91) (pos 600) ≡ Some (pos 91) }
    ensures buy_better { tried Limit (pos 1) (pos 200) (pos 600) ≡ Some (pos 110) }
    ensures sell_at { tried Limit (negsuc 0) (pos 110) (pos 600) ≡ None }
    ensures sell_past { tried Limit (negsuc 0) (pos 109) (pos 600) ≡ Some (pos 109) }
    ensures sell_better { tried Limit (negsuc 0) (pos 50) (pos 600) ≡ Some (pos 90) }
    ensures own_moment { tried Limit (pos 1) (pos 91) (pos 601) ≡ None }
{}

/// Stops: at the bar's end nothing, past it their own price, and the slipped closing price where it is worse.
pub fn stops()
    ensures buy_at { tried Stop (pos 1) (pos 110) (pos 600) ≡ None }
    ensures buy_past { tried Stop (pos 1) (pos 109) (pos 600) ≡ Some (pos 109) }
    ensures buy_worse { tried Stop (pos 1) (pos 100) (pos 600) ≡ Some (pos 107) }
    ensures sell_at { tried Stop (negsuc 0) (pos 90) (pos 600) ≡ None }
    ensures sell_past { tried Stop (negsuc 0) (pos 91) (pos 600) ≡ Some (pos 91) }
    ensures sell_worse { tried Stop (negsuc 0) (pos 104) (pos 600) ≡ Some (pos 103) }
{}

/// At the open: in a session that opens at the order's moment, and not in one that opened before it. A market order does
/// not rest.
pub fn opens()
    ensures buy { tried AtOpen (pos 1) (pos 1) (pos 570) ≡ Some (pos 102) }
    ensures sell { tried AtOpen (negsuc 0) (pos 1) (pos 570) ≡ Some (pos 98) }
    ensures late { tried AtOpen (pos 1) (pos 1) (pos 571) ≡ None }
    ensures market { tried Market (pos 1) (pos 1) (pos 570) ≡ None }
{}

/// Stop-limits: triggered past the stop alone, and filled where the bar closed past the limit, by the bar that triggers
/// them too.
pub fn stop_limits()
    ensures buy_at { is_set_off (pos 1) (pos 110) (pos 600) ≡ false }
    ensures buy_past { is_set_off (pos 1) (pos 109) (pos 600) ≡ true }
    ensures sell_at { is_set_off (negsuc 0) (pos 90) (pos 600) ≡ false }
    ensures sell_past { is_set_off (negsuc 0) (pos 91) (pos 600) ≡ true }
    ensures own_moment { is_set_off (pos 1) (pos 109) (pos 601) ≡ false }
    ensures buy_not_triggered { tried_stop_limit (pos 1) (pos 110) (pos 106) ≡ None }
    ensures buy_closed_at { tried_stop_limit (pos 1) (pos 109) (pos 105) ≡ None }
    ensures buy_closed_past { tried_stop_limit (pos 1) (pos 109) (pos 106) ≡ Some (pos 106) }
    ensures buy_better { tried_stop_limit (pos 1) (pos 109) (pos 200) ≡ Some (pos 110) }
    ensures buy_triggered { tried_triggered (pos 1) (pos 110) (pos 106) ≡ Some (pos 106) }
    ensures sell_not_triggered { tried_stop_limit (negsuc 0) (pos 90) (pos 104) ≡ None }
    ensures sell_closed_at { tried_stop_limit (negsuc 0) (pos 91) (pos 105) ≡ None }
    ensures sell_closed_past { tried_stop_limit (negsuc 0) (pos 91) (pos 104) ≡ Some (pos 104) }
    ensures sell_better { tried_stop_limit (negsuc 0) (pos 91) (pos 50) ≡ Some (pos 90) }
    ensures sell_triggered { tried_triggered (negsuc 0) (pos 90) (pos 104) ≡ Some (pos 104) }
{}
