ghost use Rattle.std.specs.Prelude.{◌≡◌, ℕ, ◌+◌, ◌^◌, ◌<◌, ◌≤◌, Bool, false, List};
ghost use Rattle.lean_fixed.specs.Counts.{Rose};
ghost use Rattle.lean_items.specs.declared.item.Item.{Item};
ghost use Rattle.lean_items.specs.Given.{is_last, OnRow, OnFaulted, GivesItem};

use crate::Item;

/// Gives the items of one list after another: rows, each known from its end on, and then one last item, which is a
/// malformed line or the end. A read that fails is given in place of the next item, and is then the last.
///
/// A feed tells its list where its hand tells its files; where it does not, nothing is said of the items but their number.
pub trait Feed {
    /// These items are left to give. It holds of no list where the feed tells none.
    ghost leaves: { Self → List Item → Type 0 };

    /// Whether the last item was given.
    ghost has_ended: { Self → Bool };

    /// No more rows than this are left.
    ghost room: { Self → ℕ };

    /// How many faults the feed's hand has met.
    ghost faults: { Self → ℕ };

    /// A feed gives fewer than 2^40 items, its last one counted.
    ghost few: { (feed : Self) → room feed + 1 < 2 ^ 40 };

    /// Gives the next item. `Faulted`: a read failed, and the count of faults rose in this call, or stands at its last
    /// value. It takes no memory.
    fn next(&mut self) -> Item
        requires { has_ended self.old ≡ false }
        ensures gives { (list : List Item) → leaves self.old list
            → GivesItem (leaves self.new) list result }
        ensures fewer { OnRow result (room self.new < room self.old) }
        ensures ended { has_ended self.new ≡ is_last result }
        ensures grows { faults self.old ≤ faults self.new }
        ensures rose { OnFaulted result (Rose (faults self.old) (faults self.new)) };
}
