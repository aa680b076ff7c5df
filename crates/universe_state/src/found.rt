ghost use Rattle.std.specs.Prelude.{◌≡◌, OnOk, OnErr};
ghost use Rattle.indexmap.specs.IndexMap.{get};
ghost use Rattle.universe_state.specs.Active.{is_same, is_active, with_security};
ghost use Rattle.universe_state.specs.Entries.{active_of, securities};

use crate::member::Member;
use indexmap::IndexMap;
use lean_fixed::{NoMemory, Symbol};

pub(crate) fn member_of(members: &IndexMap<Symbol, Member>, symbol: &Symbol) -> Option<Member>
    ensures { result ≡ get is_same members.now symbol.now }
{
    members.get(symbol).copied()
}

pub(crate) fn is_active(members: &IndexMap<Symbol, Member>, symbol: &Symbol) -> bool
    ensures { result ≡ is_active (securities members.now) symbol.now }
{
    members.contains_key(symbol)
}

// Puts a security in the place of one of its symbol, or behind all others.
pub(crate) fn put(
    members: &mut IndexMap<Symbol, Member>,
    symbol: Symbol,
    member: Member,
) -> Result<(), NoMemory>
    ensures ok { OnOk result
        (securities members.new ≡ with_security (active_of (symbol, member)) (securities members.old)) }
    ensures err { OnErr result (securities members.new ≡ securities members.old) }
{
    members.insert(symbol, member)?;
    Ok(())
}
