ghost use Rattle.std.specs.Prelude.{◌≡◌, ◌<◌, ◌++◌, ◌∷◌, ◌&&◌, not, List, ℕ, length};
ghost use Rattle.indexmap.specs.IndexMap.{index_map_len};
ghost use Rattle.universe_state.specs.declared.member.Member.{Member};
ghost use Rattle.universe_state.specs.Choice.{marked, is_selected};
ghost use Rattle.universe_state.specs.Entries.{securities, marked_entry};

use crate::member::Member;
use indexmap::IndexMap;
use lean_fixed::Symbol;

// Marks the securities that are not selected, and unmarks those that are.
pub(crate) fn mark_all(members: &mut IndexMap<Symbol, Member>, symbols: &[Symbol])
    ensures { securities members.new ≡ marked symbols.now (securities members.old) }
{
    for i in 0..members.len() {
        mark_at(members, i, symbols);
    }
}

fn mark_at(members: &mut IndexMap<Symbol, Member>, index: usize, symbols: &[Symbol])
    requires { index < index_map_len members.old }
    ensures len { index_map_len members.new ≡ index_map_len members.old }
    ensures marked { (front back : List (List ℕ × Member)) (entry : List ℕ × Member) → members.old.entries ≡ front ++ entry ∷ back
        → length front ≡ index → members.new.entries ≡ front ++ marked_entry symbols.now entry ∷ back }
{
    let (symbol, member) = members.pair_mut(index);
    member.marked = is_to_leave(member.listed, is_selected(symbols, symbol));
}

fn is_to_leave(listed: bool, selected: bool) -> bool
    ensures { result ≡ (not listed && not selected) }
{
    !listed && !selected
}

// Whether a symbol stands among some.
pub(crate) fn is_selected(symbols: &[Symbol], symbol: &Symbol) -> bool
    ensures { result ≡ is_selected symbols.now symbol.now }
{
    symbols.contains(symbol)
}
