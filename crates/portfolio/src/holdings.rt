//! The table of what is held, by symbol.
ghost use Rattle.std.specs.Prelude.{◌≡◌, ℕ, List, ◌++◌, [], ◌∷◌, true, false, Some, is_some, OnOk, OnErr, IfSome, IfNone, slice_get, if◌then◌else◌};
ghost use Rattle.std.specs.List.{IsDistinct};
ghost use Rattle.portfolio.specs.Symbols.{same_symbol, is_among};
ghost use Rattle.portfolio.specs.Account.{holding_in, keys_in};

use crate::lot::Lot;
use crate::totals::Holding;
use indexmap::IndexMap;
use lean_fixed::{NoMemory, Price, Symbol};

/// The symbols in the order in which they were first held.
pub type Holdings = IndexMap<Symbol, Holding>;

/// What is held of a symbol, which may be nothing.
pub fn holding_in(holdings: &Holdings, symbol: &Symbol) -> Holding
    ensures { result ≡ holding_in holdings.now.entries symbol.now }
{
    match holdings.get(symbol) {
        Some(holding) => *holding,
        None => Holding::NONE,
    }
}

/// Makes an entry for the symbol, which is not there.
pub fn add(holdings: &mut Holdings, symbol: Symbol) -> Result<(), NoMemory>
    requires { is_among symbol (keys_in holdings.old.entries) ≡ false }
    ensures kept { (s : List ℕ)
        → holding_in holdings.new.entries s ≡ holding_in holdings.old.entries s }
    ensures ok { OnOk result
        (keys_in holdings.new.entries ≡ keys_in holdings.old.entries ++ symbol ∷ []) }
    ensures there { OnOk result (is_among symbol (keys_in holdings.new.entries) ≡ true) }
    ensures err { OnErr result (holdings.new.entries ≡ holdings.old.entries) }
{
    match holdings.insert(symbol, Holding::NONE) {
        Ok(_) => Ok(()),
        Err(_) => Err(NoMemory),
    }
}

/// Whether the symbol has an entry.
pub fn is_held(holdings: &Holdings, symbol: &Symbol) -> bool
    ensures { result ≡ is_among symbol.now (keys_in holdings.now.entries) }
{
    holdings.contains_key(symbol)
}

/// Gives the symbol another price where it has an entry, and answers what was held before. `None` exactly where it has no entry,
/// and then nothing has changed.
pub fn set_price(holdings: &mut Holdings, symbol: &Symbol, price: Price) -> Option<Holding>
    ensures before { IfSome result (λ before. before ≡ holding_in holdings.old.entries symbol.now) }
    ensures after { IfSome result (λ _. (s : List ℕ) → holding_in holdings.new.entries s
        ≡ (if same_symbol symbol.now s
        then record { lot = (holding_in holdings.old.entries s).lot; price = Some price }
        else holding_in holdings.old.entries s)) }
    ensures keys { keys_in holdings.new.entries ≡ keys_in holdings.old.entries }
    ensures there { is_some result ≡ is_among symbol.now (keys_in holdings.old.entries) }
    ensures none { IfNone result (holdings.new.entries ≡ holdings.old.entries) }
{
    match holdings.get_mut(symbol) {
        Some(holding) => {
            let before = *holding;
            holding.price = Some(price);
            Some(before)
        }
        None => None,
    }
}

/// Gives the symbol another lot.
pub fn set_lot(holdings: &mut Holdings, symbol: &Symbol, lot: Lot)
    requires { is_among symbol.now (keys_in holdings.old.entries) ≡ true }
    ensures after { (s : List ℕ) → holding_in holdings.new.entries s
        ≡ (if same_symbol symbol.now s
        then record { lot = lot; price = (holding_in holdings.old.entries symbol.now).price }
        else holding_in holdings.old.entries s) }
    ensures keys { keys_in holdings.new.entries ≡ keys_in holdings.old.entries }
{
    match holdings.get_mut(symbol) {
        Some(holding) => holding.lot = lot,
        None => unreachable!(),
    }
}

/// The symbol of the entry at this place. The symbols differ.
pub fn key_at(holdings: &Holdings, index: usize) -> Option<Symbol>
    ensures value { result ≡ slice_get (keys_in holdings.now.entries) index }
    ensures differ { IsDistinct same_symbol (keys_in holdings.now.entries) }
{
    let _len = holdings.len();
    match holdings.get_index(index) {
        Some((symbol, _)) => Some(*symbol),
        None => None,
    }
}
