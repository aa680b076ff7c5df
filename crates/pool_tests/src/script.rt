ghost use Rattle.std.specs.Prelude.{◌≡◌, ◌+◌, ◌<◌, ◌^◌, slice_index_or, vec_len};
ghost use Rattle.lean_items.specs.declared.item.Item.TheVariants.{End};
ghost use Rattle.lean_items.specs.Given.{OnRow};

use lean_items::Item;

/// Items that feeds give one after another. A `Faulted` among them stands for a read that fails before the item behind it.
#[derive(Drop)]
pub struct Script {
    items: Vec<Item>,
    ghost few: { vec_len items + 1 < 2 ^ 40 },
}

impl Script {
    ghost use Rattle.std.specs.Prelude.{◌≡◌, ◌+◌, ◌<◌, ◌^◌, slice_index_or, vec_len};
    ghost use Rattle.lean_items.specs.declared.item.Item.TheVariants.{End};
    ghost use Rattle.lean_items.specs.Given.{OnRow};
    ghost use Rattle.pool_tests.specs.Scripts.{items_of};

    /// A script of so many items.
    pub fn new(items: Vec<Item>) -> Script
        requires { vec_len items + 1 < 2 ^ 40 }
        ensures { items_of result ≡ items.items }
    {
        Script { items }
    }

    /// The item at a place, or the end behind the last one.
    pub fn at(&self, place: usize) -> Item
        ensures item { result ≡ slice_index_or (items_of self.now) place End }
        ensures row { OnRow result (place < vec_len self.now.items) }
    {
        match self.items.get(place) {
            Some(item) => *item,
            None => Item::End,
        }
    }
}
