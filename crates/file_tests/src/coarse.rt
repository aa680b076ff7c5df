//! The rows of coarse universe files: what each text is read as. A case is a line: the text of a row and, behind ` = `, its
//! symbol, its close in 1/10000 dollar, its volume and its dollar volume, or `skipped`, or the word of the reason.

use coarse_csv::read_coarse;
use lean_items::CoarseRow;
use std::alloc::Global;
use std::str;
use std::test::Fail;
use test_cases::cases::check;

const ROWS: &str = "\
SPY R735QTJ8XC9X,SPY,645.57,100,64557 = SPY 6455700 100 64557
x,AAA,1.23456,7,9 = AAA 12345 7 9
,A,1,2,3 = A 10000 2 3
x,BRK.B,1,2,3 = BRK.B 10000 2 3
x,0123456789AB,1,2,3 = 0123456789AB 10000 2 3
x,A..,1,2,3 = A.. 10000 2 3
x,AAA,1,2,3,4,,-5, = AAA 10000 2 3
x,AAA,0001.5,0002,0003.99 = AAA 15000 2 3
x,AAA,1.,2.,3. = AAA 10000 2 3
x,AAA,1.2,2.0,3.4 = AAA 12000 2 3
x,AAA,1.23,2.00000000000000000000000,3.45 = AAA 12300 2 3
x,AAA,1.234,2,3.99999999999999999999999 = AAA 12340 2 3
x,AAA,1.2345,2,3 = AAA 12345 2 3
x,AAA,1.23459999999999999999999,2,3 = AAA 12345 2 3
x,AAA,0,0,0 = AAA 0 0 0
x,AAA,0.0000999,0.000,0.9 = AAA 0 0 0
x,AAA,0.0001,1,1 = AAA 1 1 1
x,AAA,1000000,1000000000000000,1000000000000000 = AAA 10000000000 1000000000000000 1000000000000000
x,AAA,1000000.00009,1,1000000000000000.99 = AAA 10000000000 1 1000000000000000
";

// The numbers of a line whose symbol is no symbol are not looked at, its fields are.
const SKIPPED: &str = "\
x,aaa,1,1,1 = skipped
x,,1,1,1 = skipped
x,.A,1,1,1 = skipped
x,A-B,1,1,1 = skipped
x, AAA,1,1,1 = skipped
x,AAA ,1,1,1 = skipped
x,0123456789ABC,1,1,1 = skipped
x,aaa,-1,-1,-1 = skipped
,,,, = skipped
,,,,,, = skipped
x,aaa,1,1 = fields
,,, = fields
";

const REASONS: &str = "\
x = fields
 = fields
x,AAA,1,1 = fields
x;AAA;1;1;1 = fields
x,AAA,,1,1 = price
x,AAA,.5,1,1 = price
x,AAA,-1,1,1 = price
x,AAA,+1,1,1 = price
x,AAA,1.2.3,1,1 = price
x,AAA,1.2345x,1,1 = price
x,AAA,1e3,1,1 = price
x,AAA, 1,1,1 = price
x,AAA,1 ,1,1 = price
x,AAA,1000000.0001,1,1 = price
x,AAA,1000001,1,1 = price
x,AAA,1844674407370956,1,1 = price
x,AAA,1000000000000000001,1,1 = price
x,AAA,18446744073709551617,1,1 = price
x,AAA,340282366920938463463374607431768211457,1,1 = price
x,AAA,x,x,x = price
x,AAA,1,,1 = volume
x,AAA,1,1.5,1 = volume
x,AAA,1,-1,1 = volume
x,AAA,1,1.000x,1 = volume
x,AAA,1,1000000000000001,1 = volume
x,AAA,1,18446744073709551617,1 = volume
x,AAA,1,1, = volume
x,AAA,1,1,.5 = volume
x,AAA,1,1,-1 = volume
x,AAA,1,1,1.x = volume
x,AAA,1,1,1e3 = volume
x,AAA,1,1,1000000000000001 = volume
x,AAA,1,1,18446744073709551617 = volume
x,AAA,1,x,x = volume
";

// What a text is read as.
fn coarse(alloc: Global, text: &str) -> Result<String, Fail> {
    match read_coarse(text.as_bytes()) {
        Ok(Some(row)) => row_text(alloc, &row),
        Ok(None) => Ok(String::from_str(alloc, "skipped")?),
        Err(reason) => Ok(String::from_str(alloc, reason.word())?),
    }
}

fn row_text(alloc: Global, row: &CoarseRow) -> Result<String, Fail> {
    let symbol = str::from_utf8(row.symbol.bytes())?;
    Ok(format!(in alloc; "{symbol} {} {} {}", row.close.0, row.volume.0, row.dollars)?)
}

#[test]
fn coarse_rows_are_read(rt: HostRuntime) -> Result<(), Fail> {
    check(rt.alloc(), ROWS, coarse)
}

#[test]
fn other_symbols_are_skipped(rt: HostRuntime) -> Result<(), Fail> {
    check(rt.alloc(), SKIPPED, coarse)
}

#[test]
fn the_first_reason_counts(rt: HostRuntime) -> Result<(), Fail> {
    check(rt.alloc(), REASONS, coarse)
}
