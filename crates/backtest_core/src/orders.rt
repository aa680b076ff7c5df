//! Lists of live orders.
use lean_fixed::NoMemory;
use lean_orders::Resting;
use std::alloc::Global;
use std::marker::Model;

/// Some orders, in the order in which they came. Contracts see the list.
#[derive(Drop)]
pub struct Orders {
    items: Vec<Resting>,
}

impl Model for Orders {
    ghost use Rattle.std.specs.Prelude.{List};
    ghost use Rattle.lean_orders.specs.declared.order.Resting.{Resting};

    ghost Value = { List Resting };

    ghost view = { λ o. o.items.items };
}

impl Orders {
    ghost use Rattle.std.specs.Prelude.{◌≡◌, ◌++◌, ◌∷◌, [], ◌==◌, not, OnOk};
    ghost use Rattle.clock_book.specs.Seen.{without_id};

    pub(crate) fn new(alloc: Global) -> Orders
        ensures { result ≡ [] }
    {
        Orders {
            items: Vec::new(alloc),
        }
    }

    pub(crate) fn as_slice(&self) -> &[Resting]
        ensures { result.now ≡ self.now }
    {
        self.items.as_slice()
    }

    pub(crate) fn push(&mut self, order: &Resting) -> Result<(), NoMemory>
        ensures ok { OnOk result (self.new ≡ self.old ++ order.now ∷ []) }
    {
        match self.items.push(*order) {
            Ok(()) => Ok(()),
            Err(_) => Err(NoMemory),
        }
    }

    // Takes the orders of an id out.
    pub(crate) fn take_out(&mut self, id: u32)
        ensures { self.new ≡ without_id id self.old }
    {
        self.items.retain(
            |order| -> bool
                ensures { result ≡ not (order.now.id == id) }
            { order.id != id },
        );
    }
}
