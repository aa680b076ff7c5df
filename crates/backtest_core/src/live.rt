//! The live orders, found by their symbols and by their ids.
ghost use Rattle.std.specs.Prelude.{◌≡◌, ◌++◌, ◌∷◌, [], if◌then◌else◌, ℕ, List, OnOk};
ghost use Rattle.portfolio.specs.Symbols.{same_symbol};
ghost use Rattle.clock_book.specs.Seen.{without_id};
ghost use Rattle.backtest_core.specs.Mirror.{listed, has_symbol};

use crate::mirror::{Listed, Lives};
use crate::orders::Orders;
use indexmap::IndexMap;
use lean_fixed::{NoMemory, Symbol};
use lean_orders::Resting;
use std::alloc::Global;
use std::hash::Hash;

impl Lives {
    ghost use Rattle.std.specs.Prelude.{◌≡◌, ◌++◌, ◌∷◌, [], List, OnOk};
    ghost use Rattle.lean_orders.specs.declared.order.Resting.{Resting};
    ghost use Rattle.clock_book.specs.Seen.{without_id};
    ghost use Rattle.backtest_core.specs.Mirror.{AreLive, of_symbol};

    /// No order is live.
    pub fn new(alloc: Global) -> Lives
        ensures { AreLive result [] }
    {
        Lives {
            by_symbol: IndexMap::new(alloc),
            by_id: IndexMap::new(alloc),
        }
    }

    /// Another order is live.
    pub fn add(&mut self, order: &Resting) -> Result<(), NoMemory>
        ensures { OnOk result ((live : List Resting) → AreLive self.old live
            → AreLive self.new (live ++ order.now ∷ [])) }
    {
        add(&mut self.by_symbol, order.symbol, order)?;
        add(&mut self.by_id, order.id, order)
    }

    /// The orders of an id are no longer live.
    pub fn remove(&mut self, id: u32)
        ensures { (live : List Resting) → AreLive self.old live
            → AreLive self.new (without_id id live) }
    {
        match self.by_id.swap_remove(&id) {
            None => (),
            Some(orders) => take_out_all(&mut self.by_symbol, id, orders.as_slice()),
        }
    }

    /// The live orders of a symbol, in the order in which they came.
    pub fn of_symbol(&self, symbol: Symbol) -> &[Resting]
        ensures { (live : List Resting) → AreLive self.now live
            → result.now ≡ of_symbol symbol live }
    {
        match self.by_symbol.get(&symbol) {
            Some(orders) => orders.as_slice(),
            None => &[],
        }
    }
}

// Lists an order under a key, behind those that are there.
fn add<K: Eq + Hash + Drop>(orders: &mut Listed<K>, key: K, order: &Resting) -> Result<(), NoMemory>
    ensures { OnOk result ((k : K) → listed K.eq orders.new.entries k
        ≡ (if K.eq key k then listed K.eq orders.old.entries k ++ order.now ∷ []
        else listed K.eq orders.old.entries k)) }
{
    match orders.get_mut(&key) {
        Some(others) => others.push(order),
        None => begin(orders, key, order),
    }
}

// Lists the first order under a key.
fn begin<K: Eq + Hash + Drop>(
    orders: &mut Listed<K>,
    key: K,
    order: &Resting,
) -> Result<(), NoMemory>
    ensures { OnOk result ((k : K) → listed K.eq orders.new.entries k
        ≡ (if K.eq key k then order.now ∷ [] else listed K.eq orders.old.entries k)) }
{
    let mut first = Orders::new(*orders.allocator());
    first.push(order)?;
    match orders.insert(key, first) {
        Ok(_) => Ok(()),
        Err(_) => Err(NoMemory),
    }
}

// Takes the orders of an id out from under their symbols.
fn take_out_all(by_symbol: &mut Listed<Symbol>, id: u32, orders: &[Resting])
    ensures { (s : List ℕ) → listed same_symbol by_symbol.new.entries s
        ≡ (if has_symbol s orders.now then without_id id (listed same_symbol by_symbol.old.entries s)
        else listed same_symbol by_symbol.old.entries s) }
{
    for order in orders {
        take_out(by_symbol, id, order.symbol);
    }
}

// Takes the orders of an id out from under a symbol.
fn take_out(by_symbol: &mut Listed<Symbol>, id: u32, symbol: Symbol)
    ensures { (s : List ℕ) → listed same_symbol by_symbol.new.entries s
        ≡ (if same_symbol symbol s then without_id id (listed same_symbol by_symbol.old.entries s)
        else listed same_symbol by_symbol.old.entries s) }
{
    match by_symbol.get_mut(&symbol) {
        Some(orders) => orders.take_out(id),
        None => (),
    }
}
