//! Fees and slippage, computed on half a cent a share, at least a dollar, and a slip of 2.
ghost use Rattle.std.specs.Prelude.{◌≡◌, pos};
ghost use Rattle.lean_fixed.specs.declared.money.Side.TheVariants.{Buy, Sell};
ghost use Rattle.trade_costs.specs.Fees.{fee, slipped};
ghost use Rattle.trade_costs.specs.Worked.{usual_costs};

/// The least fee up to 200 shares, and then by the share.
pub fn fees()
    ensures hundred { fee usual_costs (pos 100) ≡ pos 10000 }
    ensures two_hundred { fee usual_costs (pos 201) ≡ pos 10050 }
    ensures thousand { fee usual_costs (pos 1000) ≡ pos 50000 }
{}

/// A price never falls below 1.
pub fn slips()
    ensures buy { slipped usual_costs (pos 100) Buy ≡ pos 102 }
    ensures sell { slipped usual_costs (pos 100) Sell ≡ pos 98 }
    ensures least { slipped usual_costs (pos 1) Sell ≡ pos 1 }
    ensures three { slipped usual_costs (pos 3) Sell ≡ pos 1 }
{}
