//! What the rules ask for at a moment.
ghost use Rattle.std.specs.Prelude.{◌≡◌, ◌++◌, ℕ, true, List, Some, map, flat_map, OnOk};
ghost use Rattle.std.specs.List.{AllZip, AllByRecursion as Each};
ghost use Rattle.exchange_hours.specs.Sessions.{moment};
ghost use Rattle.lean_fixed.specs.declared.money.Price.{Price};
ghost use Rattle.bar_windows.specs.declared.spec.WindowSpec.{WindowSpec};
ghost use Rattle.bar_windows.specs.Recent.{StandsFor as WindowsStandFor};
ghost use Rattle.lean_items.specs.declared.bar.Bar.{Bar};
ghost use Rattle.rule_strategy.specs.Asked.{requests_of};
ghost use Rattle.clock_book.specs.Seen.{Seen};
ghost use Rattle.clock_run.specs.Histories.{History, closes};
ghost use Rattle.clock_run.specs.Requests.{is_for, rule_view, orders_seen, fresh_requests, security_requests, requests};
ghost use Rattle.backtest_core.specs.Standing.{Followed, history};
ghost use Rattle.backtest_core.specs.Watching.{WatchesAt};
ghost use Rattle.lean_fixed.specs.Ranges.{IsPrintedMoment};
ghost use Rattle.backtest_core.specs.Mirror.{Sees};
ghost use Rattle.backtest_core.specs.Phases.{AreOf};
ghost use Rattle.backtest_core.specs.Asking.{FindsRule, HasWindows, facts_of, view_with, value_at};

use crate::facts::Facts;
use crate::mirror::Mirror;
use crate::places::RulePlaces;
use crate::viewing::{facts_of, fill};
use crate::watched::Watched;
use bar_windows::Windows;
use lean_fixed::{Moment, NoMemory, Symbol};
use lean_items::Bar;
use lean_orders::Command;
use rule_strategy::{Rule, RuleView, requests};

/// Appends what a rule asks for at a moment, for one security. Nothing is appended where no bar of it is given at the moment.
pub fn ask(
    places: &RulePlaces,
    rule: &Rule,
    security: &Watched,
    mirror: &Mirror,
    at: Moment,
    view: &mut RuleView,
    out: &mut Vec<Command>,
) -> Result<(), NoMemory>
    requires { IsPrintedMoment at.0 }
    ensures asks { OnOk result ((t : ℕ) (seen : Seen) (f : Followed) → at ≡ moment t → Sees mirror.now seen
        → WatchesAt t security.now f → FindsRule security.now.following.windows.specs places.now rule.now
        → out.new.items ≡ out.old.items ++ security_requests seen t rule.now (history f)) }
    ensures sound { OnOk result (AreOf at.0 true out.old.items → AreOf at.0 true out.new.items) }
{
    match security.fresh {
        None => Ok(()),
        Some(bar) => ask_with(places, rule, security, &bar, mirror, at, view, out),
    }
}

// The same, with the last bar that is given at the moment.
fn ask_with(
    places: &RulePlaces,
    rule: &Rule,
    security: &Watched,
    bar: &Bar,
    mirror: &Mirror,
    at: Moment,
    view: &mut RuleView,
    out: &mut Vec<Command>,
) -> Result<(), NoMemory>
    requires { IsPrintedMoment at.0 }
    ensures asks { OnOk result ((t : ℕ) (seen : Seen) (h : History) → at ≡ moment t → Sees mirror.now seen
        → WindowsStandFor security.now.following.windows (closes h) → security.now.symbol ≡ h.symbol
        → FindsRule security.now.following.windows.specs places.now rule.now
        → out.new.items ≡ out.old.items ++ fresh_requests rule.now seen t h (Some bar.now)) }
    ensures sound { OnOk result (AreOf at.0 true out.old.items → AreOf at.0 true out.new.items) }
{
    if !is_for(rule, security.symbol) {
        return Ok(());
    }
    let facts = facts_of(security.symbol, bar, mirror, at)?;
    ask_of(places, rule, security, &facts, mirror, view, out)
}

// The same, for a security that the rule is for.
#[tactic(auto, using(crate::proofs::SoundLemmas::are_more, crate::proofs::SoundLemmas::requests_sound))]
fn ask_of(
    places: &RulePlaces,
    rule: &Rule,
    security: &Watched,
    facts: &Facts,
    mirror: &Mirror,
    view: &mut RuleView,
    out: &mut Vec<Command>,
) -> Result<(), NoMemory>
    requires { IsPrintedMoment facts.now.at.0 }
    ensures asks { OnOk result ((t : ℕ) (seen : Seen) (h : History) (bar : Bar) → Sees mirror.now seen
        → facts.now ≡ facts_of seen t h.symbol bar
        → WindowsStandFor security.now.following.windows (closes h) → security.now.symbol ≡ h.symbol
        → FindsRule security.now.following.windows.specs places.now rule.now
        → out.new.items ≡ out.old.items
        ++ requests_of rule.now h.symbol (rule_view seen t h bar rule.now) (orders_seen seen h.symbol)) }
    ensures sound { OnOk result (AreOf facts.now.at.0 true out.old.items → AreOf facts.now.at.0 true out.new.items) }
{
    fill(
        &mut view.when,
        facts,
        &security.following.windows,
        &places.when,
    )?;
    if !rule.when.truth(&view.when) {
        return Ok(());
    }
    fill_others(view, facts, &security.following.windows, places)?;
    requests(
        rule,
        security.symbol,
        view,
        mirror.orders_of(security.symbol),
        out,
    )
}

// Has the views of a rule's action.
fn fill_others(
    view: &mut RuleView,
    facts: &Facts,
    windows: &Windows,
    places: &RulePlaces,
) -> Result<(), NoMemory>
    ensures views { OnOk result ((closes : List Price) → WindowsStandFor windows.now closes
        → view.new ≡ record {
          when = view.old.when;
          quantity = view_with facts.now (map (value_at closes windows.now.specs) places.now.quantity.items);
          price = view_with facts.now (map (value_at closes windows.now.specs) places.now.price.items);
          limit = view_with facts.now (map (value_at closes windows.now.specs) places.now.limit.items);
        }) }
    ensures when { view.new.when ≡ view.old.when }
{
    fill(&mut view.quantity, facts, windows, &places.quantity)?;
    fill(&mut view.price, facts, windows, &places.price)?;
    fill(&mut view.limit, facts, windows, &places.limit)
}

fn is_for(rule: &Rule, symbol: Symbol) -> bool
    ensures { result ≡ is_for rule.now.symbol symbol }
{
    match rule.symbol {
        None => true,
        Some(only) => only == symbol,
    }
}

/// Appends what a rule asks for at a moment, security by security.
pub fn ask_securities(
    places: &RulePlaces,
    rule: &Rule,
    watched: &[Watched],
    mirror: &Mirror,
    at: Moment,
    view: &mut RuleView,
    out: &mut Vec<Command>,
) -> Result<(), NoMemory>
    requires { IsPrintedMoment at.0 }
    ensures asks { OnOk result ((t : ℕ) (seen : Seen) (fs : List Followed) (specs : List WindowSpec)
        → at ≡ moment t → Sees mirror.now seen → AllZip (WatchesAt t) watched.now fs
        → Each (HasWindows specs) watched.now → FindsRule specs places.now rule.now
        → out.new.items ≡ out.old.items ++ flat_map (security_requests seen t rule.now) (map history fs)) }
    ensures sound { OnOk result (AreOf at.0 true out.old.items → AreOf at.0 true out.new.items) }
{
    for security in watched {
        ask(places, rule, security, mirror, at, view, out)?;
    }
    Ok(())
}

/// Appends what the rules ask for at a moment, rule by rule and for each rule security by security.
pub fn ask_rules(
    places: &[RulePlaces],
    rules: &[Rule],
    watched: &[Watched],
    mirror: &Mirror,
    at: Moment,
    view: &mut RuleView,
    out: &mut Vec<Command>,
) -> Result<(), NoMemory>
    requires { IsPrintedMoment at.0 }
    ensures asks { OnOk result ((t : ℕ) (seen : Seen) (fs : List Followed) (specs : List WindowSpec)
        → at ≡ moment t → Sees mirror.now seen → AllZip (WatchesAt t) watched.now fs
        → Each (HasWindows specs) watched.now → AllZip (FindsRule specs) places.now rules.now
        → out.new.items ≡ out.old.items ++ requests rules.now seen t (map history fs)) }
    ensures sound { OnOk result (AreOf at.0 true out.old.items → AreOf at.0 true out.new.items) }
{
    if places.len() != rules.len() {
        return Ok(());
    }
    for place in 0..rules.len() {
        ask_securities(
            &places[place],
            &rules[place],
            watched,
            mirror,
            at,
            view,
            out,
        )?;
    }
    Ok(())
}
