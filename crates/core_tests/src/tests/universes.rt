//! Securities of a universe come and leave, after worked reports.

use crate::tests::lines::check;
use std::test::Fail;

// What is no longer selected is kept until its position is closed.
const OPEN: &str = "\
run 20131007 20131008 1000
choose 1
market 10 when time == 601 and position == 0 for AAA
market 0 - position when time == 605 and position > 0 for AAA
";

const OPEN_DAYS: &str = "\
0; row 0 AAA 100000 10000
601; bar 1 600 601 100000
960
1440; row 0 BBB 100000 20000
2045; bar 1 2044 2045 110000
2400
";

const OPEN_LINES: &str = "\
20131007 00:00 add AAA
feed 1 AAA
20131007 10:01 order 1 AAA submitted market 10 -
20131007 10:01 order 1 AAA filled 10 10.0000 fee 0.0000
20131007 16:00 close cash 900.0000 equity 1000.0000
20131008 00:00 add BBB
feed 2 BBB
20131008 10:05 order 2 AAA submitted market -10 -
20131008 10:05 order 2 AAA filled -10 11.0000 fee 0.0000
20131008 10:05 remove AAA
end 1
20131008 16:00 close cash 1010.0000 equity 1010.0000
";

// What is removed and added again begins anew, with another feed and no closes.
const RETURNS: &str = "\
run 20131007 20131009 1000
choose 1
market 0 when sma(2) > 0
";

const RETURN_DAYS: &str = "\
0; row 0 AAA 100000 10000
601; bar 1 600 601 100000
602; bar 1 601 602 100000
960
1440; row 0 BBB 100000 20000
2400
2880; row 0 AAA 100000 10000
3481; bar 3 3480 3481 100000
3482; bar 3 3481 3482 100000
3840
";

const RETURN_LINES: &str = "\
20131007 00:00 add AAA
feed 1 AAA
20131007 10:02 order 1 AAA invalid quantity
20131007 16:00 close cash 1000.0000 equity 1000.0000
20131008 00:00 add BBB
20131008 00:00 remove AAA
end 1
feed 2 BBB
20131008 16:00 close cash 1000.0000 equity 1000.0000
20131009 00:00 add AAA
20131009 00:00 remove BBB
end 2
feed 3 AAA
20131009 10:02 order 2 AAA invalid quantity
20131009 16:00 close cash 1000.0000 equity 1000.0000
";

// What the plan lists is not added where it is selected, and stays where it is not.
const LISTED: &str = "\
run 20131007 20131009 1000
bars SPY
choose 1
market 0 when time == 601
";

const LISTED_DAYS: &str = "\
0; row 0 SPY 1000000 10000
1440; row 0 AAA 100000 10000
2041; bar 1 2040 2041 1000000; bar 2 2040 2041 100000
2880; row 0 BBB 100000 20000
3481; bar 1 3480 3481 1000000; bar 2 3480 3481 100000
";

const LISTED_LINES: &str = "\
20131008 00:00 add AAA
feed 2 AAA
20131008 10:01 order 1 SPY invalid quantity
20131008 10:01 order 2 AAA invalid quantity
20131009 00:00 add BBB
20131009 00:00 remove AAA
end 2
feed 3 BBB
20131009 10:01 order 3 SPY invalid quantity
";

#[test]
fn open_positions(rt: HostRuntime) -> Result<(), Fail> {
    check(rt.alloc(), OPEN, OPEN_DAYS, OPEN_LINES)
}

#[test]
fn members_return(rt: HostRuntime) -> Result<(), Fail> {
    check(rt.alloc(), RETURNS, RETURN_DAYS, RETURN_LINES)
}

#[test]
fn listed_ones_stay(rt: HostRuntime) -> Result<(), Fail> {
    check(rt.alloc(), LISTED, LISTED_DAYS, LISTED_LINES)
}
