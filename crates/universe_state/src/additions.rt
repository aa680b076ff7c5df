ghost use Rattle.std.specs.Prelude.{◌≡◌, ◌++◌, ◌&&◌, not, [], ◌∷◌, IfOk, OnOk, if◌then◌else◌};
ghost use Rattle.universe_state.specs.Active.{is_active};
ghost use Rattle.universe_state.specs.Choice.{additions, is_selected};
ghost use Rattle.universe_state.specs.Entries.{securities};

use crate::found::is_active;
use crate::marks::is_selected;
use crate::member::Member;
use indexmap::IndexMap;
use lean_fixed::{NoMemory, Symbol};
use std::alloc::Global;

// The selected symbols that are not active, each once.
pub(crate) fn additions(
    alloc: Global,
    symbols: &[Symbol],
    members: &IndexMap<Symbol, Member>,
) -> Result<Vec<Symbol>, NoMemory>
    ensures { IfOk result (λ added. added.items ≡ additions symbols.now (securities members.now)) }
{
    let mut added = Vec::new(alloc);
    for symbol in symbols {
        let adds = is_new(members, &added, symbol);
        add(&mut added, adds, *symbol)?;
    }
    Ok(added)
}

// Whether a symbol is neither active nor among those that are added.
fn is_new(members: &IndexMap<Symbol, Member>, added: &Vec<Symbol>, symbol: &Symbol) -> bool
    ensures { result ≡ (not (is_active (securities members.now) symbol.now)
        && not (is_selected added.now.items symbol.now)) }
{
    !is_active(members, symbol) && !is_selected(added, symbol)
}

fn add(added: &mut Vec<Symbol>, adds: bool, symbol: Symbol) -> Result<(), NoMemory>
    ensures { OnOk result (added.new.items ≡ added.old.items ++ (if adds then symbol ∷ [] else [])) }
{
    if adds {
        added.push(symbol)?;
    }
    Ok(())
}
