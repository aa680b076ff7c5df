//! Commands are given one after another, as far as there is room.
ghost use Rattle.std.specs.Prelude.{◌≡◌, ◌≤◌, ◌<◌, ◌-◌, ◌^◌, false, Some, None, [], IfSome, vec_len};
ghost use Rattle.lean_fixed.specs.Ranges.{IsPrintedMoment};
ghost use Rattle.backtest_core.specs.Inside.{place_of, begins, first_of, counted_in};
ghost use Rattle.backtest_core.specs.Phases.{IsOf, AreOf, asks_in, most_left, rest_of, most_others};
ghost use Rattle.backtest_core.specs.Giving.{left_in, others_in, requests_in, Spends};

use crate::Phase;
use crate::commands::Commands;
use lean_fixed::Moment;
use lean_orders::Command;
use std::alloc::Global;
use std::mem;

impl Commands {
    /// No command was given yet, and no moment has begun.
    pub fn new(alloc: Global) -> Commands
        ensures left { left_in result ≡ [] }
        ensures requests { result.requests ≡ 0 }
    {
        Commands {
            at: Moment(0),
            phase: None,
            list: Vec::new(alloc),
            given: 0,
            over: false,
            requests: 0,
        }
    }

    /// A moment begins: what was left of the moment before it is given up.
    pub fn begin(&mut self, at: Moment)
        requires { IsPrintedMoment at.0 }
        ensures at { self.new.at ≡ at }
        ensures phase { self.new.phase ≡ None }
        ensures left { left_in self.new ≡ [] }
        ensures over { self.new.over ≡ false }
        ensures requests { self.new.requests ≡ self.old.requests }
        ensures others { others_in self.new ≡ most_others }
    {
        self.list.clear();
        self.given = 0;
        self.phase = None;
        self.over = false;
        self.at = at;
    }

    /// Whether a phase begins as its first command is asked for: it is behind the one that has begun.
    pub fn begins(&self, phase: Phase) -> bool
        ensures { result ≡ begins phase self.now.phase }
    {
        match self.phase {
            None => true,
            Some(now) => place_of(now) < place_of(phase),
        }
    }

    /// A phase begins with its commands, which are taken out of the list.
    pub fn enter(&mut self, phase: Phase, list: &mut Vec<Command>, over: bool)
        requires sound { AreOf self.old.at.0 (asks_in (Some phase)) list.old.items }
        requires room { vec_len list.old ≤ most_left (Some phase) self.old.requests }
        ensures left { left_in self.new ≡ list.old.items }
        ensures phase { self.new.phase ≡ Some phase }
        ensures over { self.new.over ≡ over }
        ensures at { self.new.at ≡ self.old.at }
        ensures requests { self.new.requests ≡ self.old.requests }
    {
        mem::swap(&mut self.list, list);
        self.given = 0;
        self.phase = Some(phase);
        self.over = over;
    }

    /// Gives the next command. `None` exactly where no more is left of the phase.
    pub fn next(&mut self) -> Option<Command>
        ensures command { result ≡ first_of (left_in self.old) }
        ensures left { left_in self.new ≡ rest_of (left_in self.old) }
        ensures requests { IfSome result (λ command. self.new.requests ≡ counted_in self.old.phase self.old.requests) }
        ensures none { result ≡ None → self.new ≡ self.old }
        ensures at { self.new.at ≡ self.old.at }
        ensures phase { self.new.phase ≡ self.old.phase }
        ensures over { self.new.over ≡ self.old.over }
        ensures sound { IfSome result (IsOf self.old.at.0 (asks_in self.old.phase)) }
        ensures spends { IfSome result (Spends self.old self.new) }
    {
        if self.given == self.list.len() {
            return None;
        }
        let command = self.list[self.given];
        self.given += 1;
        self.requests = counted(self.phase, self.requests);
        Some(command)
    }
}

fn place_of(phase: Phase) -> u8
    ensures { result ≡ place_of phase }
{
    match phase {
        Phase::Prices => 0,
        Phase::Rules => 1,
        Phase::Close => 2,
    }
}

// How many requests were given behind one more command of a phase.
fn counted(phase: Option<Phase>, requests: u32) -> u32
    requires { requests < 2 ^ 32 - 1 }
    ensures { result ≡ counted_in phase requests }
{
    match phase {
        Some(Phase::Rules) => requests + 1,
        Some(Phase::Prices) => requests,
        Some(Phase::Close) => requests,
        None => requests,
    }
}
