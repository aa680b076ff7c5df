ghost use Rattle.std.specs.Prelude.{◌≡◌, ◌≤◌, length, [], IfOk};
ghost use Rattle.toml.specs.View.{view, table_view, items_view};
ghost use Rattle.rule_strategy.specs.Answers.{Gives};
ghost use Rattle.rule_strategy.specs.RuleTexts.{order, update, cancel, action, rule_texts, rule_keys, next_texts, texts_from, all_texts, rests_at_price, has_limit};
ghost use Rattle.rule_strategy.specs.Tables.{only};

use crate::PlanFault;
use crate::table::{array_at, check_keys, kind_at, symbol_if, table_in, text_at, text_if, verb_at};
use crate::text::ShortText;
use lean_fixed::Symbol;
use lean_orders::Kind;
use std::alloc::Global;
use toml::{Table, Value};

/// The most rules of a file.
const MOST_RULES: usize = 64;

/// The keys of a rule.
const KEYS: [&str; 7] = ["when", "do", "symbol", "kind", "quantity", "price", "limit"];

/// What a rule does, the word under its key `do`.
#[derive(Clone, Copy)]
pub(crate) enum Verb {
    Submit,
    Cancel,
    Update,
}

/// What a rule does, with the texts of its expressions.
#[derive(Drop)]
pub(crate) enum ActionTexts<'t> {
    /// The kind, the quantity, the price and the limit.
    Order(Kind, ShortText<'t>, Option<ShortText<'t>>, Option<ShortText<'t>>),
    /// The price.
    Update(ShortText<'t>),
    Cancel,
}

/// A rule whose expressions are still texts.
#[derive(Drop)]
pub(crate) struct RuleTexts<'t> {
    pub symbol: Option<Symbol>,
    pub when: ShortText<'t>,
    pub action: ActionTexts<'t>,
}

/// Whether orders of a kind rest at a price, which an update may change. That of a stop-limit order is its stop.
pub(crate) fn rests_at_price(kind: Kind) -> bool
    ensures { result ≡ rests_at_price kind }
{
    match kind {
        Kind::Limit | Kind::Stop | Kind::StopLimit => true,
        Kind::Market | Kind::AtOpen => false,
    }
}

fn has_limit(kind: Kind) -> bool
    ensures { result ≡ has_limit kind }
{
    match kind {
        Kind::StopLimit => true,
        Kind::Market | Kind::Limit | Kind::Stop | Kind::AtOpen => false,
    }
}

/// The rules of a file with the texts of their expressions. There are none where it has no array of them.
#[tactic(auto, unfolding(crate::specs::RuleTexts::all_texts))]
pub(crate) fn read_texts<'t>(
    alloc: Global,
    table: &'t Table,
) -> Result<Vec<RuleTexts<'t>>, PlanFault>
    ensures value { Gives (λ v. v.items) (all_texts (table_view table.now)) result }
    ensures few { IfOk result (λ v. length v.items ≤ 64) }
{
    let items = array_at(table, "rules", MOST_RULES)?;
    read_each(alloc, items)
}

#[tactic(auto, unfolding(crate::specs::RuleTexts::texts_from))]
fn read_each<'t>(alloc: Global, items: &'t [Value]) -> Result<Vec<RuleTexts<'t>>, PlanFault>
    ensures value { Gives (λ v. v.items) (texts_from [] (items_view items.now)) result }
    ensures same { IfOk result (λ v. length v.items ≡ length items.now) }
{
    let mut out = Vec::new(alloc);
    for value in items {
        match next_texts(alloc, value) {
            Ok(next) => out.push(next)?,
            Err(fault) => return Err(fault),
        }
    }
    Ok(out)
}

#[tactic(auto, unfolding(crate::specs::RuleTexts::next_texts))]
fn next_texts<'t>(alloc: Global, value: &'t Value) -> Result<RuleTexts<'t>, PlanFault>
    ensures { Gives (λ t. t) (next_texts (view value.now)) result }
{
    let table = table_in(value, "rules")?;
    rule_texts(alloc, table)
}

#[tactic(auto, unfolding(crate::specs::RuleTexts::rule_texts))]
fn rule_texts<'t>(alloc: Global, table: &'t Table) -> Result<RuleTexts<'t>, PlanFault>
    ensures { Gives (λ t. t) (rule_texts (table_view table.now)) result }
{
    check(alloc, table)?;
    let when = text_at(table, "when")?;
    let verb = verb_at(table, "do")?;
    let symbol = symbol_if(table, "symbol")?;
    let action = action(table, verb)?;
    Ok(RuleTexts {
        symbol,
        when,
        action,
    })
}

fn check(alloc: Global, table: &Table) -> Result<(), PlanFault>
    ensures { Gives (λ u. u) (only rule_keys (table_view table.now)) result }
{
    check_keys(alloc, table, &KEYS)
}

fn action<'t>(table: &'t Table, verb: Verb) -> Result<ActionTexts<'t>, PlanFault>
    ensures { Gives (λ a. a) (action verb (table_view table.now)) result }
{
    match verb {
        Verb::Submit => order(table),
        Verb::Cancel => cancel(table),
        Verb::Update => update(table),
    }
}

#[tactic(auto, unfolding(crate::specs::RuleTexts::order))]
fn order<'t>(table: &'t Table) -> Result<ActionTexts<'t>, PlanFault>
    ensures { Gives (λ a. a) (order (table_view table.now)) result }
{
    let kind = kind_at(table, "kind")?;
    let quantity = text_at(table, "quantity")?;
    let price = text_if(table, "price", rests_at_price(kind))?;
    let limit = text_if(table, "limit", has_limit(kind))?;
    Ok(ActionTexts::Order(kind, quantity, price, limit))
}

#[tactic(auto, unfolding(crate::specs::RuleTexts::update))]
fn update<'t>(table: &'t Table) -> Result<ActionTexts<'t>, PlanFault>
    ensures { Gives (λ a. a) (update (table_view table.now)) result }
{
    text_if(table, "kind", false)?;
    text_if(table, "quantity", false)?;
    let price = text_at(table, "price")?;
    text_if(table, "limit", false)?;
    Ok(ActionTexts::Update(price))
}

#[tactic(auto, unfolding(crate::specs::RuleTexts::cancel))]
fn cancel<'t>(table: &'t Table) -> Result<ActionTexts<'t>, PlanFault>
    ensures { Gives (λ a. a) (cancel (table_view table.now)) result }
{
    text_if(table, "kind", false)?;
    text_if(table, "quantity", false)?;
    text_if(table, "price", false)?;
    text_if(table, "limit", false)?;
    Ok(ActionTexts::Cancel)
}
