ghost use Rattle.std.specs.Prelude.{IfOk};
ghost use Rattle.lean_fixed.specs.Ranges.{IsMoney};

use crate::tests::books::{command, handle, one_a_share};
use crate::tests::cases::within;
use lean_fixed::{Money, NoMemory};
use order_book::Book;
use report_stats::Stats;
use std::alloc::Global;
use std::fmt::Write;
use std::str;
use std::test::Fail;
use test_cases::cases::check;

// Commands to the book of 10,000,000 units of cash, and `close` with the equity of a close line. The answer is the summary,
// with ` / ` between its lines.
const SUMMARIES: &str = "\
600 account = end 0 orders 0 fills 0 open / fees 0.0000 / realised 0.0000 / cash 1000.0000 / equity 1000.0000 / drawdown 0.0000
close 9999999; close 10000100; close 9999900; close 10000050 = end 0 orders 0 fills 0 open / fees 0.0000 / realised 0.0000 / cash 1000.0000 / equity 1000.0000 / drawdown 0.0200
close 9999000; close 9999500; close 10000000 = end 0 orders 0 fills 0 open / fees 0.0000 / realised 0.0000 / cash 1000.0000 / equity 1000.0000 / drawdown 0.1000
601 mark SPY 100 100 100 100; 601 limit SPY 10 101; 601 limit SPY 20 99; 601 limit SPY 5 50; 602 mark SPY 100 103 98 102; 602 match = end 3 orders 2 fills 1 open / fees 0.0030 / realised 0.0000 / cash 999.6980 / equity 1000.0040 / drawdown 0.0000 / hold SPY 30 0.0102
601 mark B 20 20 20 20; 601 mark A 10 10 10 10; 601 mark C 5 5 5 5; 601 market B 2; 601 market A -1; 601 market C 1; 601 market C -1 = end 4 orders 4 fills 0 open / fees 0.0005 / realised -0.0004 / cash 999.9955 / equity 999.9985 / drawdown 0.0000 / hold A -1 0.0010 / hold B 2 0.0020
601 mark SPY 100 100 100 100; 601 limit SPY 1 90; 601 cancel 1; 601 limit SPY 0 90; 601 open SPY 1 = end 3 orders 0 fills 1 open / fees 0.0000 / realised 0.0000 / cash 1000.0000 / equity 1000.0000 / drawdown 0.0000
";

// A book, and the statistics of its close lines.
#[derive(Drop)]
struct Told {
    book: Book,
    stats: Stats,
}

fn equity(text: &str) -> Result<Money, Fail>
    ensures { IfOk result (λ equity. IsMoney equity.0) }
{
    Ok(Money(within(Some(text), 0, 1_000_000_000)?))
}

impl Told {
    fn step(&mut self, alloc: Global, text: &str) -> Result<(), Fail> {
        match text.strip_prefix("close ") {
            Some(text) => {
                self.stats.close(equity(text)?);
                Ok(())
            }
            None => handle(&mut self.book, &command(text)?, &mut Vec::new(alloc)),
        }
    }

    fn summary(&self, alloc: Global) -> Result<String, Fail> {
        let mut text = Vec::new(alloc);
        match self.stats.summary(alloc, &self.book, &mut text) {
            Ok(()) => joined(alloc, str::from_utf8(&text)?),
            Err(NoMemory) => Err(Fail::from("memory")),
        }
    }
}

fn joined(alloc: Global, text: &str) -> Result<String, Fail> {
    let mut said = String::new(alloc);
    for line in text.lines() {
        if !said.is_empty() {
            write!(said, " / ")?;
        }
        write!(said, "{line}")?;
    }
    Ok(said)
}

fn summary_of(alloc: Global, text: &str) -> Result<String, Fail> {
    let mut told = Told {
        book: one_a_share(alloc)?,
        stats: Stats::new(Money(10_000_000)),
    };
    for text in text.split("; ") {
        told.step(alloc, text)?;
    }
    told.summary(alloc)
}

#[test]
fn summaries(rt: HostRuntime) -> Result<(), Fail> {
    check(rt.alloc(), SUMMARIES, summary_of)
}
