//! The windows of all rules, each once.
ghost use Rattle.std.specs.Prelude.{◌≡◌, ◌≢◌, Some, slice_get, All, IfOk, IfSome, IfNone};
ghost use Rattle.bar_windows.specs.Kept.{IsLength};
ghost use Rattle.rule_lang.specs.Tree.{windows_of};
ghost use Rattle.clock_run.specs.Requests.{quantity_of, price_of, limit_of};
ghost use Rattle.backtest_core.specs.Asking.{windows_if};
ghost use Rattle.backtest_core.specs.Tables.{AddsPlace, Adds, AddsRule, AddsRules, IsTable};

use crate::places::{RulePlaces, WindowTable};
use bar_windows::WindowSpec;
use lean_fixed::NoMemory;
use rule_lang::Expr;
use rule_strategy::{Action, Rule};
use std::alloc::Global;

impl WindowTable {
    ghost use Rattle.std.specs.Prelude.{IfOk};
    ghost use Rattle.backtest_core.specs.Tables.{IsTable};

    /// The windows of these rules, each once, and their places for each rule. The work is that of comparing each window with
    /// the different ones before it.
    pub fn new(alloc: Global, rules: &[Rule]) -> Result<WindowTable, NoMemory>
        ensures { IfOk result (λ table. IsTable table rules.now) }
    {
        let mut specs = Vec::new(alloc);
        let rules = add_rules(alloc, &mut specs, rules)?;
        Ok(WindowTable { specs, rules })
    }
}

fn add_rules(
    alloc: Global,
    specs: &mut Vec<WindowSpec>,
    rules: &[Rule],
) -> Result<Vec<RulePlaces>, NoMemory>
    ensures { IfOk result (λ places. AddsRules specs.old.items specs.new.items places.items rules.now) }
{
    let mut out = Vec::new(alloc);
    for rule in rules {
        let places = add_rule(alloc, specs, rule)?;
        out.push(places)?;
    }
    Ok(out)
}

fn add_rule(alloc: Global, specs: &mut Vec<WindowSpec>, rule: &Rule) -> Result<RulePlaces, NoMemory>
    ensures { IfOk result (λ places. AddsRule specs.old.items specs.new.items places rule.now) }
{
    let when = add_windows(alloc, specs, &rule.when)?;
    let quantity = add_quantity(alloc, specs, &rule.action)?;
    let price = add_price(alloc, specs, &rule.action)?;
    let limit = add_limit(alloc, specs, &rule.action)?;
    Ok(RulePlaces {
        when,
        quantity,
        price,
        limit,
    })
}

fn add_quantity(
    alloc: Global,
    specs: &mut Vec<WindowSpec>,
    action: &Action,
) -> Result<Vec<usize>, NoMemory>
    ensures { IfOk result (λ places. Adds specs.old.items specs.new.items places.items (windows_if (quantity_of action.now))) }
{
    match action {
        Action::Order(_, quantity, _, _) => add_windows(alloc, specs, quantity),
        Action::Update(_) => Ok(Vec::new(alloc)),
        Action::Cancel => Ok(Vec::new(alloc)),
    }
}

fn add_price(
    alloc: Global,
    specs: &mut Vec<WindowSpec>,
    action: &Action,
) -> Result<Vec<usize>, NoMemory>
    ensures { IfOk result (λ places. Adds specs.old.items specs.new.items places.items (windows_if (price_of action.now))) }
{
    match action {
        Action::Order(_, _, price, _) => add_windows_if(alloc, specs, price),
        Action::Update(price) => add_windows(alloc, specs, price),
        Action::Cancel => Ok(Vec::new(alloc)),
    }
}

fn add_limit(
    alloc: Global,
    specs: &mut Vec<WindowSpec>,
    action: &Action,
) -> Result<Vec<usize>, NoMemory>
    ensures { IfOk result (λ places. Adds specs.old.items specs.new.items places.items (windows_if (limit_of action.now))) }
{
    match action {
        Action::Order(_, _, _, limit) => add_windows_if(alloc, specs, limit),
        Action::Update(_) => Ok(Vec::new(alloc)),
        Action::Cancel => Ok(Vec::new(alloc)),
    }
}

fn add_windows_if(
    alloc: Global,
    specs: &mut Vec<WindowSpec>,
    expression: &Option<Expr>,
) -> Result<Vec<usize>, NoMemory>
    ensures { IfOk result (λ places. Adds specs.old.items specs.new.items places.items (windows_if expression.now)) }
{
    match expression {
        None => Ok(Vec::new(alloc)),
        Some(expression) => add_windows(alloc, specs, expression),
    }
}

fn add_windows(
    alloc: Global,
    specs: &mut Vec<WindowSpec>,
    expression: &Expr,
) -> Result<Vec<usize>, NoMemory>
    ensures { IfOk result (λ places. Adds specs.old.items specs.new.items places.items (windows_of expression.now)) }
{
    add_all(alloc, specs, expression.windows())
}

fn add_all(
    alloc: Global,
    specs: &mut Vec<WindowSpec>,
    windows: &[WindowSpec],
) -> Result<Vec<usize>, NoMemory>
    requires { All (λ spec. IsLength spec.length) windows.now }
    ensures { IfOk result (λ places. Adds specs.old.items specs.new.items places.items windows.now) }
{
    let mut out = Vec::new(alloc);
    for window in windows {
        let place = add(specs, window)?;
        out.push(place)?;
    }
    Ok(out)
}

// The place of a window, which is added where it is not there.
fn add(specs: &mut Vec<WindowSpec>, window: &WindowSpec) -> Result<usize, NoMemory>
    ensures { IfOk result (λ place. AddsPlace specs.old.items specs.new.items place window.now) }
{
    match find(specs, window) {
        Some(place) => Ok(place),
        None => append(specs, window),
    }
}

fn append(specs: &mut Vec<WindowSpec>, window: &WindowSpec) -> Result<usize, NoMemory>
    requires { All (λ other. other ≢ window.now) specs.old.items }
    ensures { IfOk result (λ place. AddsPlace specs.old.items specs.new.items place window.now) }
{
    let place = specs.len();
    specs.push(*window)?;
    Ok(place)
}

fn find(specs: &[WindowSpec], window: &WindowSpec) -> Option<usize>
    ensures place { IfSome result (λ place. slice_get specs.now place ≡ Some window.now) }
    ensures none { IfNone result (All (λ other. other ≢ window.now) specs.now) }
{
    for place in 0..specs.len() {
        if specs[place] == *window {
            return Some(place);
        }
    }
    None
}
