//! A core begins, and its securities get the numbers of their feeds.
ghost use Rattle.std.specs.Prelude.{◌≡◌, None, IfSome, find};
ghost use Rattle.backtest_core.specs.Standing.{waits_as};
ghost use Rattle.backtest_core.specs.Waiting.{subscription_in, subscriptions_in};
ghost use Rattle.backtest_core.specs.Naming.{IsPlaceOf};

use crate::commands::Commands;
use crate::joining::wait_listed;
use crate::mirror::Mirror;
use crate::places::WindowTable;
use crate::standing::Core;
use crate::viewing::blank_views;
use crate::waiting::Waiting;
use exchange_hours::Hours;
use lean_fixed::{NoMemory, Symbol};
use lean_items::FeedNo;
use rule_strategy::Plan;
use std::alloc::Global;
use std::sync::Arc;

impl Core {
    ghost use Rattle.std.specs.Prelude.{◌<◌, [], ℕ, List, vec_len, IfOk, OnOk};
    ghost use Rattle.std.specs.Arc.{arc_value};
    ghost use Rattle.rule_strategy.specs.Validity.{IsPlan};
    ghost use Rattle.clock_run.specs.Lines.{Line};
    ghost use Rattle.backtest_core.specs.Standing.{Standing, begun, named};
    ghost use Rattle.backtest_core.specs.Naming.{IsPlaceOf};
    ghost use Rattle.backtest_core.specs.Core.{StandsFor, GivesNoMore};

    /// A core before the first moment. The plan is one that was read.
    pub fn begin(alloc: Global, plan: Plan, hours: Arc<Hours>) -> Result<Core, NoMemory>
        requires { IsPlan plan }
        ensures { IfOk result (λ core.
            StandsFor core (begun (record { plan = plan; hours = arc_value hours })) []) }
    {
        let table = WindowTable::new(alloc, plan.rules.0.as_slice())?;
        let waiting = wait_listed(
            alloc,
            plan.securities.0.as_slice(),
            plan.window.first_moment(),
        )?;
        let mirror = Mirror::new(alloc, plan.cash);
        Ok(Core {
            alloc,
            plan,
            hours,
            table,
            view: blank_views(alloc),
            watched: Vec::new(alloc),
            waiting,
            news: Vec::new(alloc),
            mirror,
            commands: Commands::new(alloc),
            asked: Vec::new(alloc),
            text: Vec::new(alloc),
        })
    }

    /// Tells the number of the feed of a security that waits: one that the plan lists, or that the last moment added. Any
    /// other symbol is passed over. The numbers rise from call to call.
    pub fn named(&mut self, symbol: Symbol, feed: FeedNo) -> Result<(), NoMemory>
        ensures named { OnOk result ((v : Standing) (lines : List Line) → StandsFor self.old v lines
            → StandsFor self.new (named symbol feed.0 v) lines) }
        ensures numbers { GivesNoMore self.old self.new }
    {
        match find_waiting(&self.waiting, symbol) {
            None => Ok(()),
            Some(place) => self.watch(place, feed),
        }
    }

    fn watch(&mut self, place: usize, feed: FeedNo) -> Result<(), NoMemory>
        requires { place < vec_len self.old.waiting }
        ensures watches { OnOk result ((v : Standing) (lines : List Line) (symbol : List ℕ) → StandsFor self.old v lines
            → IsPlaceOf symbol self.old.waiting.items place
            → StandsFor self.new (named symbol feed.0 v) lines) }
        ensures numbers { GivesNoMore self.old self.new }
    {
        let waiting = self.waiting[place];
        let security = waiting.watch(self.alloc, feed, &self.table.specs)?;
        self.waiting.remove(place);
        self.watched.push(security)?;
        Ok(())
    }
}

// Where the first of a symbol waits.
fn find_waiting(waiting: &[Waiting], symbol: Symbol) -> Option<usize>
    ensures none { result ≡ None → find (waits_as symbol) (subscriptions_in waiting.now) ≡ None }
    ensures some { IfSome result (IsPlaceOf symbol waiting.now) }
{
    for place in 0..waiting.len() {
        if waits_as(&waiting[place], symbol) {
            return Some(place);
        }
    }
    None
}

fn waits_as(waiting: &Waiting, symbol: Symbol) -> bool
    ensures { result ≡ waits_as symbol (subscription_in waiting.now) }
{
    symbol == waiting.symbol
}
