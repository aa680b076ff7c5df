//! A core closes a moment.
ghost use Rattle.std.specs.Prelude.{◌≡◌, ◌≤◌, ◌+◌, ◌++◌, ◌∷◌, [], ℕ, length, vec_len, map, IfOk, OnOk};
ghost use Rattle.std.specs.Option.{ForSome};
ghost use Rattle.exchange_hours.specs.Sessions.{moment};
ghost use Rattle.clock_run.specs.States.{joining};
ghost use Rattle.backtest_core.specs.Following.{IsPeriodIn};
ghost use Rattle.backtest_core.specs.Inside.{joining_all};
ghost use Rattle.backtest_core.specs.Waiting.{key_in, subscriptions_in};

use crate::Changes;
use crate::leaving::{forget, tell_leaving};
use crate::standing::Core;
use crate::waiting::Waiting;
use lean_fixed::{Moment, NoMemory, Symbol};
use lean_items::FeedKey;
use rule_strategy::UniversePlan;
use std::alloc::Global;

impl Core {
    ghost use Rattle.std.specs.Prelude.{◌≡◌, ◌≤◌, length, map, IfOk};
    ghost use Rattle.std.specs.List.{All};
    ghost use Rattle.lean_fixed.specs.Ranges.{IsMoment};
    ghost use Rattle.universe_state.specs.Choice.{most_active};
    ghost use Rattle.backtest_core.specs.Inside.{Inside, leaving, closed, lines_closed};
    ghost use Rattle.backtest_core.specs.Core.{StandsFor, StandsIn, GivesNoMore};

    /// Closes the moment: the securities that are done with are removed, and those that were added wait for the numbers of
    /// their feeds.
    pub fn close_moment(&mut self) -> Result<Changes, NoMemory>
        ensures closes { IfOk result (λ changes. (i : Inside) → StandsIn self.old i
            → StandsFor self.new (closed i) (lines_closed i)
            × (changes.added.items ≡ map (λ security. security.key) (closed i).waiting)
            × (changes.removed.items ≡ map (λ f. f.security.active.feed) (leaving i))) }
        ensures few { IfOk result (λ changes. length changes.added.items ≤ most_active) }
        ensures starts { IfOk result (λ changes. All (λ key. IsMoment key.start.0) changes.added.items) }
        ensures numbers { GivesNoMore self.old self.new }
    {
        let removed = tell_leaving(
            self.alloc,
            &self.watched,
            &self.mirror,
            self.commands.at,
            &mut self.text,
        )?;
        let waiting = wait_all(
            self.alloc,
            &self.plan.universe,
            self.commands.at,
            &self.news,
        )?;
        let added = keys_of(self.alloc, &waiting)?;
        forget(&mut self.watched, &self.mirror);
        self.news.clear();
        self.waiting = waiting;
        Ok(Changes { added, removed })
    }
}

// The securities of some symbols wait.
fn wait_all(
    alloc: Global,
    universe: &Option<UniversePlan>,
    at: Moment,
    symbols: &[Symbol],
) -> Result<Vec<Waiting>, NoMemory>
    requires { ForSome universe.now (λ universe. IsPeriodIn universe.period) }
    ensures len { IfOk result (λ waiting. vec_len waiting ≤ length symbols.now) }
    ensures waits { IfOk result (λ waiting. (t : ℕ) → at ≡ moment t
        → subscriptions_in waiting.items ≡ joining_all universe.now t symbols.now) }
{
    match universe {
        None => Ok(Vec::new(alloc)),
        Some(universe) => join_all(alloc, universe, at, symbols),
    }
}

fn join_all(
    alloc: Global,
    universe: &UniversePlan,
    at: Moment,
    symbols: &[Symbol],
) -> Result<Vec<Waiting>, NoMemory>
    requires { IsPeriodIn universe.now.period }
    ensures len { IfOk result (λ waiting. vec_len waiting ≤ length symbols.now) }
    ensures waits { IfOk result (λ waiting. (t : ℕ) → at ≡ moment t
        → subscriptions_in waiting.items ≡ map (joining universe.now t 0) symbols.now) }
{
    let mut waiting = Vec::new(alloc);
    for symbol in symbols {
        add_joining(universe, at, *symbol, &mut waiting)?;
    }
    Ok(waiting)
}

fn add_joining(
    universe: &UniversePlan,
    at: Moment,
    symbol: Symbol,
    out: &mut Vec<Waiting>,
) -> Result<(), NoMemory>
    requires { IsPeriodIn universe.now.period }
    ensures len { OnOk result (vec_len out.new ≡ vec_len out.old + 1) }
    ensures waits { OnOk result ((t : ℕ) → at ≡ moment t → subscriptions_in out.new.items
        ≡ subscriptions_in out.old.items ++ joining universe.now t 0 symbol ∷ []) }
{
    out.push(Waiting::joining(universe, at, symbol))?;
    Ok(())
}

// What the feeds of some securities read.
fn keys_of(alloc: Global, waiting: &[Waiting]) -> Result<Vec<FeedKey>, NoMemory>
    ensures { IfOk result (λ keys. keys.items ≡ map key_in waiting.now) }
{
    let keys = waiting.iter().map(
        |security| -> FeedKey
            ensures { result ≡ key_in security.now }
        { security.key() },
    );
    Ok(keys.collect(alloc)?)
}
