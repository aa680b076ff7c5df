ghost use Rattle.std.specs.Prelude.{◌≡◌, false, Some, IfOk, IfErr};
ghost use Rattle.std.specs.Arc.{arc_value};
ghost use Rattle.lean_fixed.specs.Ranges.{IsMoment, IsWindow};
ghost use Rattle.lean_io.specs.Told.{Files};
ghost use Rattle.clock_feeds.specs.Feeds.{feed as feed_list};

use exchange_hours::Hours;
use lean_fixed::Window;
use lean_io::Hand;
use lean_items::{Feed, FeedKey};
use row_feed::Refused;
use std::alloc::Global;
use std::sync::Arc;

/// A feed that reads by a hand.
pub trait HandFeed<H: Hand>: Feed + Drop {
    /// The feed of a key over a window and the hours of the exchange. `Refused`: there is no memory for it.
    fn open(
        alloc: Global,
        hand: H,
        key: FeedKey,
        window: Window,
        hours: Arc<Hours>,
    ) -> Result<Self, Refused<H>>
        requires window { IsWindow window }
        requires key { IsMoment key.start.0 }
        ensures leaves { IfOk result (λ feed. (f : Files) → H.files hand ≡ Some f
            → Self.leaves feed (feed_list f (arc_value hours) window key)) }
        ensures open { IfOk result (λ feed. Self.has_ended feed ≡ false) }
        ensures same { IfOk result (λ feed. Self.faults feed ≡ H.faults hand) }
        ensures refused { IfErr result (λ refused. refused.hand ≡ hand) };

    /// The hand, which has met the faults of the feed.
    fn into_hand(self) -> H
        ensures { H.faults result ≡ Self.faults self };
}
