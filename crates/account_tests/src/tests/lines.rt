ghost use Rattle.report_lines.specs.EventLines.{IsEvent};

use crate::tests::cases::word;
use lean_orders::OrderEvent;
use report_lines::{read_event, write_event};
use std::alloc::Global;
use std::fmt::Write;
use std::str;
use std::test::Fail;

// Lines of reports, each of which is read as an event.
const LINES: &str = "\
20131007 10:01 order 1 SPY submitted market 10 -
20131007 10:01 order 1 SPY filled 10 100.0100 fee 0.0000
20131007 10:01 order 2 SPY submitted stop -10 95.0000
20131007 10:02 order 2 SPY filled -10 88.9900 fee 0.0000
20131007 13:00 order 1 SPY submitted open 10 -
20131008 09:31 order 1 SPY filled 10 168.0000 fee 0.0000
20131007 10:01 order 1 SPY submitted limit 10 99.0000
20131007 10:01 order 2 SPY submitted stop-limit 10 102.0000 101.5000
20131007 10:01 order 2 SPY submitted stop-limit -10 99.0000 1000100.0000
20131007 10:02 order 1 SPY updated 95.0000
20131007 10:03 order 1 SPY canceled
20131007 10:03 order 1 SPY invalid closed
20131007 10:02 order 1 SPY invalid quantity
20131007 10:02 order 1 SPY invalid no-price
20131007 10:02 order 1 SPY invalid price
20131007 10:02 order 1 SPY invalid buying-power
20131007 10:02 order 1 SPY invalid unknown
19700101 00:00 order 1000000 BRK.B filled -1000000000 1000100.0000 fee 100000000000.0000
22000102 00:00 order 1 A submitted limit 1 0.0001
";

// Texts that are no such lines.
const OTHERS: &str = "\
20131007 10:01 order 1 SPY submitted market 10
20131007 10:01 order 1 SPY submitted market 10 100.0000
20131007 10:01 order 1 SPY submitted limit 10 -
20131007 10:01 order 1 SPY submitted limit 10 1.0000 1.0000
20131007 10:01 order 1 SPY submitted stop-limit 10 -
20131007 10:01 order 1 SPY submitted stop-limit 10 1.0000
20131007 10:01 order 1 SPY submitted stop-limit 10 1.0000 -
20131007 10:01 order 1 SPY submitted stop-limit 10 1.0000 0.0000
20131007 10:01 order 1 SPY submitted stop-limit 10 1.0000 1000100.0001
20131007 10:01 order 1 SPY submitted stop-limit 10 1.0000 1.0000 
20131007 10:01 order 1 SPY submitted limit 0 1.0000
20131007 10:01 order 1 SPY submitted limit -0 1.0000
20131007 10:01 order 1 SPY submitted limit 01 1.0000
20131007 10:01 order 1 SPY submitted limit +1 1.0000
20131007 10:01 order 1 SPY submitted limit 1000000001 1.0000
20131007 10:01 order 1 SPY submitted limit 1 01.0000
20131007 10:01 order 1 SPY submitted limit 1 1.000
20131007 10:01 order 1 SPY submitted limit 1 0.0000
20131007 10:01 order 1 SPY submitted limit 1 1000100.0001
20131007 10:01 order 1 SPY submitted sideways 1 1.0000
20131007 10:01 order 0 SPY canceled
20131007 10:01 order 01 SPY canceled
20131007 10:01 order 1000001 SPY canceled
20131007 10:01 order 1 spy canceled
20131007 10:01 order 1 SPY canceled 
20131007 10:01 order 1  SPY canceled
20131007 10:01 order 1 SPY invalid
20131007 10:01 order 1 SPY invalid limit
20131007 10:01 order 1 SPY filled 1 1.0000 0.0000
20131007 10:01 order 1 SPY filled 1 1.0000 fee 100000000000.0001
20131007 10:01 order 1 SPY updated -
20131007 10:60 order 1 SPY canceled
20131032 10:01 order 1 SPY canceled
22000102 00:01 order 1 SPY canceled
20131007 10:01 orders 1 SPY canceled
20131007 10:01
";

fn line(alloc: Global, event: &OrderEvent) -> Result<String, Fail>
    requires { IsEvent event.now }
{
    let mut written = Vec::new(alloc);
    write_event(event, &mut written)?;
    word(alloc, str::from_utf8(written.as_slice())?)
}

#[test]
fn lines_are_read_and_written_back(rt: HostRuntime) -> Result<(), Fail> {
    let mut said = String::new(rt.alloc());
    for text in LINES.lines() {
        let event = read_event(text.as_bytes()).ok_or("no event")?;
        write!(said, "{}", line(rt.alloc(), &event)?)?;
    }
    assert_eq!(rt; said.as_str(), LINES);
    Ok(())
}

#[test]
fn other_texts_are_not_read(rt: HostRuntime) -> Result<(), Fail> {
    for text in OTHERS.lines() {
        assert!(rt; read_event(text.as_bytes()).is_none(), "{text}");
    }
    Ok(())
}
