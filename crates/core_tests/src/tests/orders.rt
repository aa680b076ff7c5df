//! Orders of one security, after worked reports.

use crate::tests::lines::check;
use std::test::Fail;

// A sale of twice the position leaves the account short.
const THROUGH_ZERO: &str = r#"
run 20131007 20131007 10000
fee-per-share = "0.01"
bars SPY
market 10 when time == 601
market -20 when time == 602
"#;

const TWO_BARS: &str = "\
601; bar 1 600 601 1000000
602; bar 1 601 602 1000000
960
";

const SHORT: &str = "\
20131007 10:01 order 1 SPY submitted market 10 -
20131007 10:01 order 1 SPY filled 10 100.0000 fee 0.1000
20131007 10:02 order 2 SPY submitted market -20 -
20131007 10:02 order 2 SPY filled -20 100.0000 fee 0.2000
20131007 16:00 close cash 10999.7000 equity 9999.7000
";

// The two cancels see the same state: the second finds the order closed.
const CANCELS: &str = "\
run 20131007 20131007 10000
bars SPY
limit 10 at 90 when time == 601
update at 95 when time == 602
cancel when time == 603
cancel when time == 603
";

const THREE_BARS: &str = "\
601; bar 1 600 601 1000000
602; bar 1 601 602 1000000
603; bar 1 602 603 1000000
960
";

const CANCELED: &str = "\
20131007 10:01 order 1 SPY submitted limit 10 90.0000
20131007 10:02 order 1 SPY updated 95.0000
20131007 10:03 order 1 SPY canceled
20131007 10:03 order 1 SPY invalid closed
20131007 16:00 close cash 10000.0000 equity 10000.0000
";

// Both rules see a position of 0, though the first buys; at the next bar neither does.
const TWO_BUYERS: &str = "\
run 20131007 20131007 10000
bars SPY
market 10 when position == 0
market 10 when position == 0
";

const BOTH_BUY: &str = "\
20131007 10:01 order 1 SPY submitted market 10 -
20131007 10:01 order 1 SPY filled 10 100.0000 fee 0.0000
20131007 10:01 order 2 SPY submitted market 10 -
20131007 10:01 order 2 SPY filled 10 100.0000 fee 0.0000
20131007 16:00 close cash 8000.0000 equity 10000.0000
";

#[test]
fn sales_through_zero(rt: HostRuntime) -> Result<(), Fail> {
    check(rt.alloc(), THROUGH_ZERO, TWO_BARS, SHORT)
}

#[test]
fn updates_and_cancels(rt: HostRuntime) -> Result<(), Fail> {
    check(rt.alloc(), CANCELS, THREE_BARS, CANCELED)
}

#[test]
fn rules_see_one_state(rt: HostRuntime) -> Result<(), Fail> {
    check(rt.alloc(), TWO_BUYERS, TWO_BARS, BOTH_BUY)
}
