//! The places of the orders that may be live, symbol by symbol.
ghost use Rattle.std.specs.Prelude.{◌≡◌, ℕ, List, ◌++◌, ◌∷◌, [], if◌then◌else◌, filter, OnOk, OnErr, IfSome, slice_get, length};
ghost use Rattle.portfolio.specs.Symbols.{same_symbol};
ghost use Rattle.order_book.specs.Resting.{is_live_at};
ghost use Rattle.order_book.specs.Waiting.{places_of};

use crate::orders::is_live_at;
use indexmap::IndexMap;
use lean_fixed::{NoMemory, Symbol};
use lean_orders::Order;
use std::alloc::Global;
use std::marker::Model;

// Some places of orders. That of an order is one less than its id.
#[derive(Drop)]
pub(crate) struct Places {
    items: Vec<u32>,
}

impl Model for Places {
    ghost use Rattle.std.specs.Prelude.{List, ℕ};

    ghost Value = { List ℕ };

    ghost view = { λ p. p.items.items };
}

impl Places {
    ghost use Rattle.std.specs.Prelude.{◌≡◌, ◌++◌, ◌∷◌, [], filter, OnOk, OnErr};
    ghost use Rattle.lean_orders.specs.declared.order.Order.{Order};
    ghost use Rattle.order_book.specs.Resting.{is_live_at};

    fn new(alloc: Global) -> Places
        ensures { result ≡ [] }
    {
        Places {
            items: Vec::new(alloc),
        }
    }

    fn as_slice(&self) -> &[u32]
        ensures { result.now ≡ self.now }
    {
        self.items.as_slice()
    }

    fn push(&mut self, place: u32) -> Result<(), NoMemory>
        ensures ok { OnOk result (self.new ≡ self.old ++ place ∷ []) }
        ensures err { OnErr result (self.new ≡ self.old) }
    {
        match self.items.push(place) {
            Ok(()) => Ok(()),
            Err(_) => Err(NoMemory),
        }
    }

    // Lets the places go of orders that are no longer live.
    fn prune(&mut self, orders: &[Order])
        ensures { self.new ≡ filter (is_live_at orders.now) self.old }
    {
        self.items.retain(
            |place| -> bool
                ensures { result ≡ is_live_at orders.entry.now place.now }
            { is_live_at(orders, *place) },
        );
    }
}

// Of each symbol the places of its orders that may be live.
pub(crate) type Waiting = IndexMap<Symbol, Places>;

// The places of a symbol.
pub(crate) fn places_of(waiting: &Waiting, symbol: Symbol) -> &[u32]
    ensures { result.now ≡ places_of waiting.now.entries symbol }
{
    match waiting.get(&symbol) {
        Some(places) => places.as_slice(),
        None => &[],
    }
}

// Adds a place to those of a symbol. At `NoMemory` the places are as they were.
pub(crate) fn add_place(waiting: &mut Waiting, symbol: Symbol, place: u32) -> Result<(), NoMemory>
    ensures ok { OnOk result ((s : List ℕ) → places_of waiting.new.entries s
        ≡ (if same_symbol symbol s then places_of waiting.old.entries s ++ place ∷ []
        else places_of waiting.old.entries s)) }
    ensures err { OnErr result ((s : List ℕ)
        → places_of waiting.new.entries s ≡ places_of waiting.old.entries s) }
{
    match waiting.get_mut(&symbol) {
        Some(places) => places.push(place),
        None => begin(waiting, symbol, place),
    }
}

// Adds the first place of a symbol.
fn begin(waiting: &mut Waiting, symbol: Symbol, place: u32) -> Result<(), NoMemory>
    requires { places_of waiting.old.entries symbol ≡ [] }
    ensures ok { OnOk result ((s : List ℕ) → places_of waiting.new.entries s
        ≡ (if same_symbol symbol s then place ∷ [] else places_of waiting.old.entries s)) }
    ensures err { OnErr result ((s : List ℕ)
        → places_of waiting.new.entries s ≡ places_of waiting.old.entries s) }
{
    let mut places = Places::new(*waiting.allocator());
    places.push(place)?;
    match waiting.insert(symbol, places) {
        Ok(_) => Ok(()),
        Err(_) => Err(NoMemory),
    }
}

// Lets the places of a symbol go whose orders are no longer live.
pub(crate) fn prune(waiting: &mut Waiting, symbol: Symbol, orders: &[Order])
    ensures { (s : List ℕ) → places_of waiting.new.entries s
        ≡ (if same_symbol symbol s then filter (is_live_at orders.now) (places_of waiting.old.entries s)
        else places_of waiting.old.entries s) }
{
    match waiting.get_mut(&symbol) {
        Some(places) => places.prune(orders),
        None => (),
    }
}
