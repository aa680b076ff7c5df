//! Feeds of rows alone, of each kind of key.
ghost use Rattle.std.specs.Prelude.{◌≡◌, false};
ghost use Rattle.lean_fixed.specs.Ranges.{IsMoment, IsWindow};
ghost use Rattle.row_feed.specs.Feed.{has_ended};

use crate::folders::{Case, files_of_case};
use crate::said::items_text;
use exchange_hours::Hours;
use lean_fixed::{NoMemory, Window};
use lean_io::{Folder, Hand};
use lean_items::{FeedKey, Item};
use row_feed::RowFeed;
use std::alloc::Global;
use std::sync::Arc;
use std::test::Fail;
use test_cases::cases::check;
use test_cases::cut::SlowFolder;

// All items of a feed of rows.
fn take_rows<H: Hand>(alloc: Global, rows: &mut RowFeed<H>) -> Result<Vec<Item>, NoMemory>
    requires { has_ended rows.old ≡ false }
{
    let mut items = Vec::new(alloc);
    'rows: loop {
        let item = rows.next();
        items.push(*&item)?;
        match item {
            Item::Bar(_) => {}
            Item::Coarse(_, _) => {}
            Item::Bad(_) => return Ok(items),
            Item::Faulted => return Ok(items),
            Item::End => return Ok(items),
        }
    }
}

// The same of a key over the files of a folder.
fn rows_of<F: Folder>(
    alloc: Global,
    folder: &mut F,
    key: FeedKey,
    window: Window,
    hours: Arc<Hours>,
) -> Result<Vec<Item>, NoMemory>
    requires window { IsWindow window }
    requires key { IsMoment key.start.0 }
{
    let hand = folder.hand(alloc)?;
    match RowFeed::new(alloc, hand, key, window, hours) {
        Ok(mut rows) => {
            let items = take_rows(alloc, &mut rows);
            folder.take_back(rows.into_hand());
            items
        }
        Err(refused) => {
            folder.take_back(refused.hand);
            Err(NoMemory)
        }
    }
}

// Each file is read as it is, and one byte at a time.
const ROWS: &str = "\
usual SPY.minute 07 07 0, SPY.07:34140000,5,5,5,5,1;34200000,5,5,5,5,2;57540000,5,5,5,5,3;57600000,5,5,5,5,4; = 07.0931 5 v2, 07.1600 5 v3, end
usual SPY.minute 07 08 0, SPY.07:36000000,5,6,4,5,1; | SPY.08:34200000,8,8,8,8,2; = 07.1001 5/6/4/5 v1, 08.0931 8 v2, end
usual SPY.minute 07 09 0, SPY.09:36000000,5,5,5,5,1; = 09.1001 5 v1, end
usual SPY.minute 07 09 0, SPY.10:36000000,5,5,5,5,1; = end
usual SPY.minute 07 08 0, SPY.07:36000000,5,5,5,5,1;x;36060000,5,5,5,5,1; | SPY.08:36000000,5,5,5,5,1; = 07.1001 5 v1, bad 15985:2 fields
usual SPY.minute 07 07 0, SPY.07:;36000000,5,5,5,5,1;;x; = 07.1001 5 v1, bad 15985:4 fields
usual SPY.minute 07 07 0, SPY.07:36060000,5,5,5,5,1;36060000,5,5,5,5,1; = 07.1002 5 v1, bad 15985:2 order
usual SPY.minute 07 07 0, SPY.07:32400000,5,5,5,5,1;28800000,5,5,5,5,1; = bad 15985:2 order
usual SPY.minute 07 07 601, SPY.07:36000000,5,5,5,5,1;36060000,5,5,5,5,2; = 07.1002 5 v2, end
usual SPY.minute 07 07 601, SPY.07:x;36060000,5,5,5,5,2; = bad 15985:1 fields
usual SPY.minute 07 09 1441, SPY.07:x; | SPY.08:36060000,5,5,5,5,2; = 08.1002 5 v2, end
early SPY.minute 07 07 0, SPY.07:46740000,5,5,5,5,1;46800000,5,5,5,5,2; = 07.1300 5 v1, end
holiday SPY.minute 07 09 0, SPY.07:36000000,5,5,5,5,1; | SPY.08:x; | SPY.09:36000000,5,5,5,5,3; = 07.1001 5 v1, 09.1001 5 v3, end
night SPY.minute 07 07 0, SPY.07:79140000,5,5,5,5,1;79200000,5,5,5,5,2;86340000,5,5,5,5,3; = 07.2201 5 v2, 08.0000 5 v3, end
usual SPY.hour 07 07 0, SPY.hour:20131007 10:00,5,5,5,5,1;20131008 10:00,5,5,5,5,1;x; = 07.1100 5 v1, end
usual SPY.hour 07 07 0, SPY.hour:20131007 10:00,5,5,5,5,1;x;20131008 10:00,5,5,5,5,1; = 07.1100 5 v1, bad 0:2 fields
usual SPY.hour 07 07 0, SPY.hour:20131007 08:00,5,5,5,5,1;20131007 09:00,5,5,5,5,2;20131007 15:00,5,5,5,5,3;20131007 16:00,5,5,5,5,4; = 07.1000 5 v2, 07.1600 5 v3, end
usual SPY.hour 07 07 0, SPY.hour:20131007 09:00,5,5,5,5,1;20131007 09:30,5,5,5,5,1; = 07.1000 5 v1, bad 0:2 time
night SPY.hour 07 07 0, SPY.hour:20131007 23:00,5,5,5,5,1;20131008 22:00,5,5,5,5,2; = 08.0000 5 v1, end
usual SPY.daily 07 08 0, SPY.daily:20131004 00:00,5,5,5,5,1;20131007 00:00,6,6,6,6,2;20131008 00:00,7,7,7,7,3;20131009 00:00,8,8,8,8,4; = 07.1600 6 v2, 08.1600 7 v3, end
early SPY.daily 07 08 0, SPY.daily:20131007 00:00,5,5,5,5,1;20131008 00:00,6,6,6,6,2; = 07.1300 5 v1, 08.1600 6 v2, end
holiday SPY.daily 07 09 0, SPY.daily:20131007 00:00,5,5,5,5,1;20131008 00:00,6,6,6,6,2;20131009 00:00,7,7,7,7,3; = 07.1600 5 v1, 09.1600 7 v3, end
usual SPY.daily 07 08 0, SPY.daily:20131007 09:00,5,5,5,5,1; = bad 0:1 time
usual coarse 07 08 0, coarse.06:X 1,SPY,6.45,7,9;X 2,A,1,2,3; | coarse.07:X 3,B,2,2,2; | coarse.08:x; = 07.0000 SPY 64500 7 9, 07.0000 A 10000 2 3, 08.0000 B 20000 2 2, end
usual coarse 07 07 0, coarse.06:X 1,spy,6.45,7,9;X 2,A,1,2,3;x; = 07.0000 A 10000 2 3, bad 15984:3 fields
";

/// What the feed of a case gives over a folder.
pub(crate) fn rows_text<F: Folder>(
    alloc: Global,
    case: &Case,
    folder: &mut F,
) -> Result<String, Fail> {
    let hours = case.hours.clone()?;
    let items = rows_of(alloc, folder, case.key(false), case.window(), hours)?;
    Ok(items_text(alloc, &items)?)
}

fn rows(alloc: Global, input: &str) -> Result<String, Fail> {
    let (case, mut folder) = files_of_case(alloc, input)?;
    rows_text(alloc, &case, &mut folder)
}

fn slow_rows(alloc: Global, input: &str) -> Result<String, Fail> {
    let (case, inner) = files_of_case(alloc, input)?;
    let mut folder = SlowFolder { inner };
    rows_text(alloc, &case, &mut folder)
}

#[test]
fn gives_kept_rows_and_the_last_item(rt: HostRuntime) -> Result<(), Fail> {
    check(rt.alloc(), ROWS, rows)?;
    check(rt.alloc(), ROWS, slow_rows)
}
