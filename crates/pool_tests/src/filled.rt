//! Feeds with filled bars, by themselves and in a pool on one thread.
ghost use Rattle.lean_fixed.specs.Ranges.{IsMoment, IsWindow};

use crate::folders::{Case, files_of_case};
use crate::said::items_text;
use crate::serial::take_serial;
use crate::taking::take_feed;
use exchange_hours::Hours;
use fill_forward::FilledFeed;
use lean_fixed::{NoMemory, Window};
use lean_io::Folder;
use lean_items::{FeedKey, Item};
use row_feed::RowFeed;
use std::alloc::Global;
use std::sync::Arc;
use std::test::Fail;
use test_cases::cases::check;
use test_cases::cut::SlowFolder;

// All items of the filled feed of a key over the files of a folder.
fn filled_of<F: Folder>(
    alloc: Global,
    folder: &mut F,
    key: FeedKey,
    window: Window,
    hours: Arc<Hours>,
) -> Result<Vec<Item>, NoMemory>
    requires window { IsWindow window }
    requires key { IsMoment key.start.0 }
{
    let hand = folder.hand(alloc)?;
    match RowFeed::new(alloc, hand, key, window, hours) {
        Ok(rows) => {
            let mut feed = FilledFeed::new(rows);
            let items = take_feed(alloc, &mut feed);
            folder.take_back(feed.into_hand());
            items
        }
        Err(refused) => {
            folder.take_back(refused.hand);
            Err(NoMemory)
        }
    }
}

// Each file is read as it is, by a feed and by a pool, and one byte at a time.
const FILLED: &str = "\
usual SPY.minute 07 07 0, SPY.07:36000000,1000000,1000000,1000000,1000000,5;36360000,1000000,1000000,1000000,1000000,5; = 07.1001 1000000 v5, 07.1002-07.1006 1000000 fill, 07.1007 1000000 v5, 07.1008-07.1600 1000000 fill, end
usual SPY.minute 07 07 0, SPY.07:36000000,1000000,1000000,1000000,1000000,5;36360000,1000000,1000000,1000000,1000000,5;x; = 07.1001 1000000 v5, 07.1002-07.1006 1000000 fill, 07.1007 1000000 v5, bad 15985:3 fields
early SPY.minute 07 08 0, SPY.07:46620000,5,6,4,5,1; | SPY.08:34260000,8,8,8,8,2; = 07.1258 5/6/4/5 v1, 07.1259-07.1300 5/6/4/5 fill, 08.0931 5/6/4/5 fill, 08.0932 8 v2, 08.0933-08.1600 8 fill, end
usual SPY.minute 07 08 0, SPY.07:57540000,5,5,5,5,1;57600000,9,9,9,9,9; | SPY.08:34260000,8,8,8,8,2;x; = 07.1600 5 v1, 08.0931 5 fill, 08.0932 8 v2, bad 15986:2 fields
usual SPY.minute 07 08 0, SPY.07:57480000,5,5,5,5,1; | SPY.08:x; = 07.1559 5 v1, bad 15986:1 fields
usual SPY.minute 07 07 601, SPY.07:36000000,5,5,5,5,1;36300000,6,6,6,6,2;x; = 07.1006 6 v2, bad 15985:3 fields
usual SPY.minute 07 07 0, SPY.07:34140000,5,5,5,5,1; = end
night SPY.minute 07 07 0, SPY.07:86220000,5,5,5,5,1; = 07.2358 5 v1, 07.2359-08.0000 5 fill, end
holiday SPY.hour 07 09 0, SPY.hour:20131007 14:00,5,5,5,5,1;20131009 10:00,6,6,6,6,2; = 07.1500 5 v1, 07.1600 5 fill, 09.1000 5 fill, 09.1100 6 v2, 09.1200-09.1600 6 fill, end
usual SPY.hour 07 13 0, SPY.hour:20131007 15:00,5,5,5,5,1; = 07.1600 5 v1, 08.1000-08.1600 5 fill, 09.1000-09.1600 5 fill, 10.1000-10.1600 5 fill, 11.1000-11.1600 5 fill, end
usual SPY.hour 07 13 0, SPY.hour:20131007 14:00,5,5,5,5,1;20131007 15:30,5,5,5,5,1; = 07.1500 5 v1, bad 0:2 time
night SPY.hour 07 08 0, SPY.hour:20131007 22:00,5,5,5,5,1; = 07.2300 5 v1, 08.0000 5 fill, 08.2300-09.0000 5 fill, end
usual SPY.daily 07 13 0, SPY.daily:20131007 00:00,5,5,5,5,1;20131010 00:00,6,6,6,6,2; = 07.1600 5 v1, 08.1600 5 fill, 09.1600 5 fill, 10.1600 6 v2, 11.1600 6 fill, end
early SPY.daily 04 07 0, SPY.daily:20131004 00:00,5,5,5,5,1; = 04.1600 5 v1, 07.1300 5 fill, end
night SPY.daily 07 08 0, SPY.daily:20131007 00:00,5,5,5,5,1; = 08.0000 5 v1, 09.0000 5 fill, end
usual coarse 07 07 0, coarse.06:X 1,SPY,6.45,7,9; = 07.0000 SPY 64500 7 9, end
";

fn filled(alloc: Global, input: &str) -> Result<String, Fail> {
    let (case, mut folder) = files_of_case(alloc, input)?;
    let (key, window) = (case.key(true), case.window());
    let items = filled_of(alloc, &mut folder, key, window, case.hours)?;
    Ok(items_text(alloc, &items)?)
}

/// What the filled feed of a case gives in a pool over a folder.
pub(crate) fn filled_text<F: Folder>(
    alloc: Global,
    case: &Case,
    folder: &mut F,
) -> Result<String, Fail> {
    let hours = case.hours.clone()?;
    let items = take_serial(alloc, folder, case.window(), hours, case.key(true))?;
    Ok(items_text(alloc, &items)?)
}

fn serial(alloc: Global, input: &str) -> Result<String, Fail> {
    let (case, mut folder) = files_of_case(alloc, input)?;
    filled_text(alloc, &case, &mut folder)
}

fn slow(alloc: Global, input: &str) -> Result<String, Fail> {
    let (case, inner) = files_of_case(alloc, input)?;
    let mut folder = SlowFolder { inner };
    filled_text(alloc, &case, &mut folder)
}

#[test]
fn fills_between_the_rows(rt: HostRuntime) -> Result<(), Fail> {
    check(rt.alloc(), FILLED, filled)?;
    check(rt.alloc(), FILLED, serial)?;
    check(rt.alloc(), FILLED, slow)
}
