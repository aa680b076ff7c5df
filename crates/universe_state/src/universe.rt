ghost use Rattle.std.specs.Prelude.{◌≡◌, ◌≤◌, [], length, true, false, IfOk, IfErr, OnOk, OnErr};
ghost use Rattle.universe_state.specs.Active.{feed_of, is_marked, with_security, without_symbol};
ghost use Rattle.universe_state.specs.Choice.{marked, additions, room};

use crate::ChooseRefusal;
use crate::additions::additions;
use crate::found::{member_of, put};
use crate::marks::mark_all;
use crate::member::Member;
use indexmap::IndexMap;
use lean_fixed::{NoMemory, Symbol};
use lean_items::FeedNo;
use std::alloc::Global;
use std::marker::Model;

/// How many securities may be active.
const MOST_ACTIVE: usize = 256;

/// The active securities: those that the plan lists, and those that its universe has chosen. Contracts see them as the
/// list of these securities, each with its symbol, its feed, whether it is listed and whether it is marked.
#[derive(Drop)]
pub struct Universe {
    alloc: Global,
    members: IndexMap<Symbol, Member>,
}

impl Model for Universe {
    ghost use Rattle.std.specs.Prelude.{List};
    ghost use Rattle.universe_state.specs.Active.{Active};

    ghost Value = { List Active };

    ghost use Rattle.universe_state.specs.Entries.{securities};

    ghost view = { λ universe. securities universe.members };
}

impl Universe {
    ghost use Rattle.universe_state.specs.Refused.{Refuses};

    /// A universe without securities.
    pub fn new(alloc: Global) -> Universe
        ensures { result ≡ [] }
    {
        Universe {
            alloc,
            members: IndexMap::new(alloc),
        }
    }

    /// How many securities are active.
    pub fn len(&self) -> usize
        ensures { result ≡ length self.now }
    {
        self.members.len()
    }

    /// Makes a security that the plan lists active, with its feed. No choice marks it, unless a security of its symbol joins
    /// in its place.
    pub fn list(&mut self, symbol: Symbol, feed: FeedNo) -> Result<(), NoMemory>
        ensures ok { OnOk result (self.new ≡ with_security
            (record { symbol = symbol; feed = feed; listed = true; marked = false }) self.old) }
        ensures err { OnErr result (self.new ≡ self.old) }
    {
        self.put(symbol, feed, true)
    }

    /// Makes a security that was chosen active, with its feed and without a mark.
    pub fn join(&mut self, symbol: Symbol, feed: FeedNo) -> Result<(), NoMemory>
        ensures ok { OnOk result (self.new ≡ with_security
            (record { symbol = symbol; feed = feed; listed = false; marked = false }) self.old) }
        ensures err { OnErr result (self.new ≡ self.old) }
    {
        self.put(symbol, feed, false)
    }

    /// Chooses the selected symbols, in the order of selection: marks each security that is not listed and not selected,
    /// unmarks each that is selected, and answers the symbols that are to be added, which are not active yet. `TooMany`
    /// exactly where a security 257 would be active. After a refusal the universe is as before.
    pub fn choose(&mut self, symbols: &[Symbol]) -> Result<Vec<Symbol>, ChooseRefusal>
        ensures added { IfOk result (λ added. added.items ≡ additions symbols.now self.old) }
        ensures room { OnOk result (length (additions symbols.now self.old) ≤ room self.old) }
        ensures marks { OnOk result (self.new ≡ marked symbols.now self.old) }
        ensures refused { IfErr result (Refuses symbols.now self.old self.new) }
    {
        let mut added = match additions(self.alloc, symbols, &self.members) {
            Ok(added) => added,
            Err(NoMemory) => return Err(ChooseRefusal::NoMemory),
        };
        let room = MOST_ACTIVE.saturating_sub(self.members.len());
        if added.len() > room {
            added.truncate(room);
            return Err(ChooseRefusal::TooMany(added));
        }
        mark_all(&mut self.members, symbols);
        Ok(added)
    }

    /// Takes a security out of the universe, if it is active.
    pub fn leave(&mut self, symbol: Symbol)
        ensures { self.new ≡ without_symbol symbol self.old }
    {
        let _ = self.members.shift_remove(&symbol);
    }

    /// Whether a security is active and marked: it is to be removed once it has no position and no live order.
    pub fn is_marked(&self, symbol: Symbol) -> bool
        ensures { result ≡ is_marked symbol self.now }
    {
        match member_of(&self.members, &symbol) {
            Some(member) => member.marked,
            None => false,
        }
    }

    /// The feed of a security. `None` exactly where it is not active.
    pub fn feed_of(&self, symbol: Symbol) -> Option<FeedNo>
        ensures { result ≡ feed_of symbol self.now }
    {
        match member_of(&self.members, &symbol) {
            Some(member) => Some(member.feed),
            None => None,
        }
    }

    fn put(&mut self, symbol: Symbol, feed: FeedNo, listed: bool) -> Result<(), NoMemory>
        ensures ok { OnOk result (self.new ≡ with_security
            (record { symbol = symbol; feed = feed; listed = listed; marked = false }) self.old) }
        ensures err { OnErr result (self.new ≡ self.old) }
    {
        let member = Member {
            feed,
            listed,
            marked: false,
        };
        put(&mut self.members, symbol, member)
    }
}
