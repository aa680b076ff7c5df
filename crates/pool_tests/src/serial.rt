ghost use Rattle.std.specs.Prelude.{◌≡◌, ◌≤◌, Some, IfOk, OnOk};
ghost use Rattle.std.specs.Arc.{arc_value};
ghost use Rattle.std.specs.List.{Contains};
ghost use Rattle.lean_fixed.specs.Counts.{Rose};
ghost use Rattle.lean_fixed.specs.Ranges.{IsMoment, IsWindow};
ghost use Rattle.lean_io.specs.Told.{Files};
ghost use Rattle.lean_items.specs.declared.item.Item.TheVariants.{Faulted};
ghost use Rattle.lean_items.specs.Taken.{Follows};
ghost use Rattle.clock_feeds.specs.Feeds.{feed as feed_list};

use crate::taking::take_all;
use exchange_hours::Hours;
use feed_pool::SerialPool;
use lean_fixed::{NoMemory, Window};
use lean_io::Folder;
use lean_items::{FeedKey, Item};
use std::alloc::Global;
use std::sync::Arc;

/// Takes all items of the feed of a key over the files of a folder, by a pool that is finished. What was taken follows the
/// list of the feed by the definition, a failed read is among it only where the folder's count of faults rose, and all hands are
/// given back.
pub fn take_serial<F: Folder>(
    alloc: Global,
    folder: &mut F,
    window: Window,
    hours: Arc<Hours>,
    key: FeedKey,
) -> Result<Vec<Item>, NoMemory>
    requires window { IsWindow window }
    requires key { IsMoment key.start.0 }
    ensures follow { IfOk result (λ items. (f : Files) → F.files folder.old ≡ Some f
        → Follows (feed_list f (arc_value hours) window key) items.items) }
    ensures rose { IfOk result (λ items. Contains items.items Faulted
        → Rose (F.faults folder.old) (F.faults folder.new)) }
    ensures hands { OnOk result (F.hands folder.new ≡ F.hands folder.old) }
    ensures files { F.files folder.new ≡ F.files folder.old }
    ensures grows { F.faults folder.old ≤ F.faults folder.new }
{
    let mut pool = SerialPool::new(alloc, folder, window, hours)?;
    take_all(alloc, &mut pool, key)
}
