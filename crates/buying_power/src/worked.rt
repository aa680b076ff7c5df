//! The buying power rule, computed on an equity of 1,000, others of 499, a price of 10, a leverage of 2 and a fee of 1.
ghost use Rattle.std.specs.Prelude.{◌≡◌, true, false, pos, negsuc};
ghost use Rattle.buying_power.specs.Buying.{allows};
ghost use Rattle.buying_power.specs.Worked.{asked};

/// 150 shares are the most that may be held or owed. What lessens a position is always allowed, and so is the same
/// number on the other side.
pub fn worked()
    ensures equal { allows (asked (pos 0) (pos 150)) ≡ true }
    ensures one_more { allows (asked (pos 0) (pos 151)) ≡ false }
    ensures short { allows (asked (pos 100) (negsuc 250)) ≡ false }
    ensures lessened { allows (asked (pos 1000) (negsuc 0)) ≡ true }
    ensures turned { allows (asked (pos 1000) (negsuc 1999)) ≡ true }
    ensures past { allows (asked (pos 1000) (negsuc 2000)) ≡ false }
{}
