//! Which items end at a moment, and which fit behind one that does.
ghost use Rattle.std.specs.Prelude.{◌≡◌};
ghost use Rattle.lean_items.specs.Fits.{fits};
ghost use Rattle.frontier_sync.specs.Slices.{ends_at};

use lean_fixed::Moment;
use lean_items::Item;

// Whether an item is a row that ends at a moment.
pub(crate) fn ends_at(at: Moment, item: &Item) -> bool
    ensures { result ≡ ends_at at.0 item.now }
{
    match item {
        Item::Bar(bar) => bar.end.0 == at.0,
        Item::Coarse(from, _) => from.0 == at.0,
        Item::Bad(_) => false,
        Item::Faulted => false,
        Item::End => false,
    }
}

// Whether an item may come behind one that ends at a moment.
pub(crate) fn fits(after: Moment, item: &Item) -> bool
    ensures { result ≡ fits after.0 item.now }
{
    match item {
        Item::Bar(bar) => after.0 < bar.end.0 && bar.is_in_range(),
        Item::Coarse(at, row) => after.0 <= at.0 && row.is_in_range(*at),
        Item::Bad(_) => true,
        Item::Faulted => true,
        Item::End => true,
    }
}
