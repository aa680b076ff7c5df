//! The feed of a hand with filled bars.

use crate::hand_feed::HandFeed;
use exchange_hours::Hours;
use fill_forward::FilledFeed;
use lean_fixed::Window;
use lean_io::Hand;
use lean_items::FeedKey;
use row_feed::{Refused, RowFeed};
use std::alloc::Global;
use std::sync::Arc;

impl<H: Hand> HandFeed<H> for FilledFeed<H> {
    fn open(
        alloc: Global,
        hand: H,
        key: FeedKey,
        window: Window,
        hours: Arc<Hours>,
    ) -> Result<FilledFeed<H>, Refused<H>> {
        match RowFeed::new(alloc, hand, key, window, hours) {
            Ok(rows) => Ok(FilledFeed::new(rows)),
            Err(refused) => Err(refused),
        }
    }

    fn into_hand(self) -> H {
        FilledFeed::into_hand(self)
    }
}
