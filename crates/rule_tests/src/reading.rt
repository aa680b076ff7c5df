use crate::cases::{fault_text, read};
use rule_lang::Want;
use std::alloc::Global;
use std::test::Fail;
use test_cases::cases::check;

fn fault(alloc: Global, text: &str, want: Want) -> Result<String, Fail> {
    match read(alloc, text, want)? {
        Ok(_) => Ok(String::from_str(alloc, "ok")?),
        Err(fault) => fault_text(alloc, fault),
    }
}

fn fault_of_truth(alloc: Global, text: &str) -> Result<String, Fail> {
    fault(alloc, text, Want::Truth)
}

fn fault_of_number(alloc: Global, text: &str) -> Result<String, Fail> {
    fault(alloc, text, Want::Number)
}

const TRUTHS: &str = "\
close > foo = token 8
close > > foo = token 10
1 < $ = token 4
1=2 = token 1
1!2 = token 1
1===2 = token 3
1 < .5 = token 4
1.2.3 < 4 = token 3
Close > 1 = token 0
close > CASH = token 8
close_ > 1 = token 5
order > 1 = token 0
smas(3) > 1 = token 0
andclose > 1 = token 0
1 < é = token 4
1234567890123456789 < 1 = number 0
0000000000000000001 < 1 = number 0
1 < 1234567890123456789.1 = number 4
1. < 2 = number 0
1.23456 < 2 = number 0
foo < 1.23456 = token 0
1.23456 < foo = number 0
1234567890123456789. < foo = number 0
123456789012345678 < 1 = ok
999999999999999999.9999 < 1 = ok
000000000000000000.0001 < 1 = ok
1 < 2 < foo = token 8
sma(0) > 1. = number 9
not 1 and foo = token 10
((((((((((((((((((((((((((((((((( foo = token 34
1<2 = ok
\t1\t<  2  = ok
not(1<2)and(3<4)or(5<6) = ok
sma ( 3 )>1 = ok
1 <\t= 2 = token 4
1 < 2.5 = ok
1 < 2 .5 = token 6
 = syntax 0
    = syntax 3
close > = syntax 7
close >  = syntax 8
1 2 = syntax 2
) > 1 = syntax 0
(1 < 2 = syntax 6
(1 < 2)) and 1 < 2 = syntax 7
() = syntax 1
1 < 2 < 3 = syntax 6
1 < 2 == 3 = syntax 6
1 < not 2 = syntax 4
not = syntax 3
and 1 < 2 = syntax 0
1 < 2 and = syntax 9
1 < 2 or or 3 < 4 = syntax 9
1 + < 2 = syntax 4
1 < + 2 = syntax 4
1 * * 2 < 3 = syntax 4
sma > 1 = syntax 4
sma(close) > 1 = syntax 4
sma(-1) > 1 = syntax 4
sma(1 > 2 = syntax 6
sma() > 1 = syntax 4
sma(1+1) > 2 = syntax 5
sma4(3) > 1 = syntax 3
close(1) > 2 = syntax 5
2 (3) > 1 = syntax 2
open1 > 2 = syntax 4
sma(0) > 1 = number 4
sma(1) > 1 = ok
sma(1000) > 1 = ok
sma(1001) > 1 = number 4
sma(1.0) > 1 = number 4
sma(0 0) > 1 = number 4
sma(0 = number 4
1 1 sma(0) = syntax 2
sma(0) 1 1 = number 4
((((((((((((((((((((((((((((((((1 < 2)))))))))))))))))))))))))))))))) = ok
(((((((((((((((((((((((((((((((((1 < 2))))))))))))))))))))))))))))))))) = depth 32
not not not not not not not not not not not not not not not not not not not not not not not not not not not not not not not not 1 < 2 = ok
not not not not not not not not not not not not not not not not not not not not not not not not not not not not not not not not not 1 < 2 = depth 128
--------------------------------1 < 2 = ok
---------------------------------1 < 2 = depth 32
1 < - - - - - - - - - - - - - - - - - - - - - - - - - - - - - - - - - 2 = depth 68
not (not (not (not (not (not (not (not (not (not (not (not (not (not (not (not (1 < 2)))))))))))))))) = ok
not (not (not (not (not (not (not (not (not (not (not (not (not (not (not (not (-1 < 2)))))))))))))))) = depth 80
(1<2) and (1<2) and (1<2) and (1<2) and (1<2) and (1<2) and (1<2) and (1<2) and (1<2) and (1<2) and (1<2) and (1<2) and (1<2) and (1<2) and (1<2) and (1<2) and (1<2) and (1<2) and (1<2) and (1<2) and (1<2) and (1<2) and (1<2) and (1<2) and (1<2) and (1<2) and (1<2) and (1<2) and (1<2) and (1<2) and (1<2) and (1<2) and (1<2) and (1<2) and (1<2) and (1<2) and (1<2) and (1<2) and (1<2) and (1<2) and (1<2) = ok
not 1<2 and not 1<2 and not 1<2 and not 1<2 and not 1<2 and not 1<2 and not 1<2 and not 1<2 and not 1<2 and not 1<2 and not 1<2 and not 1<2 and not 1<2 and not 1<2 and not 1<2 and not 1<2 and not 1<2 and not 1<2 and not 1<2 and not 1<2 and not 1<2 and not 1<2 and not 1<2 and not 1<2 and not 1<2 and not 1<2 and not 1<2 and not 1<2 and not 1<2 and not 1<2 and not 1<2 and not 1<2 and not 1<2 and not 1<2 and not 1<2 and not 1<2 and not 1<2 and not 1<2 and not 1<2 and not 1<2 and 1<2 = ok
-1 - -1 - -1 - -1 - -1 - -1 - -1 - -1 - -1 - -1 - -1 - -1 - -1 - -1 - -1 - -1 - -1 - -1 - -1 - -1 - -1 - -1 - -1 - -1 - -1 - -1 - -1 - -1 - -1 - -1 - -1 - -1 - -1 - -1 - -1 - -1 - -1 - -1 - -1 - -1 - -1 < 2 = ok
((((((((((((((((((((((((((((((((sma(3) > 1)))))))))))))))))))))))))))))))) = ok
((((((((((((((((((((((((((((((((sma(3) > -1)))))))))))))))))))))))))))))))) = depth 41
((((((((((((((((((((((((((((((((() = depth 32
1 ( ((((((((((((((((((((((((((((((((( = syntax 2
(((((((((((((((((((((((((((((((((close = depth 32
((((((((((((((((((((((((((((((((( = depth 32
(((((((((((((((((((((((((((((((( = syntax 32
not close ( = syntax 10
close + (1 < 2 = syntax 14
close = type 0
close + (1 < 2) = type 6
not close = type 0
not close < 1 = ok
1 and 2 < 3 = type 2
1 < 2 and 3 = type 6
1 < 2 or close = type 6
close or 1 < 2 = type 6
(1 < 2) < 3 = type 8
(1 < 2) == (3 < 4) = type 8
1 < (2 < 3) = type 2
-(1 < 2) < 3 = type 0
(1 < 2) * 3 < 4 = type 8
3 / (1 < 2) < 4 = type 2
3 - (1 < 2) < 4 = type 2
1 + (2 and 3) < 4 = type 2
(2 and 3) + 1 < 4 = type 3
1 < 2 and (3 and 4 < 5) = type 13
not not close = type 4
not (close + 1) = type 0
sma(3) = type 0
1 + 2 = type 0
1 < 2 and not close > 3 or (high - low) * 2 >= 0.0001 = ok
";

#[test]
fn reads_truths(rt: HostRuntime) -> Result<(), Fail> {
    check(rt.alloc(), TRUTHS, fault_of_truth)
}

const NUMBERS: &str = "\
open = ok
high = ok
low = ok
close = ok
volume = ok
price = ok
position = ok
cash = ok
equity = ok
orders = ok
time = ok
sma(4) = ok
highest(4) = ok
lowest(4) = ok
change(4) = ok
10 = ok
0 - position = ok
-10 = ok
close + 1 = ok
(cash / close) * 0.5 = ok
1 < 2 = type 0
not 1 < 2 = type 0
1 < 2 or 2 < 3 = type 0
close + (1 < 2) = type 6
1 and 2 = type 2
or = syntax 0
clos = token 0
1 + = syntax 3
";

#[test]
fn reads_numbers(rt: HostRuntime) -> Result<(), Fail> {
    check(rt.alloc(), NUMBERS, fault_of_number)
}
