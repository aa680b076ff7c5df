ghost use Rattle.std.specs.Prelude.{◌≡◌, ◌≤◌, length, [], Some, None, option_map};
ghost use Rattle.toml.specs.View.{table_view};
ghost use Rattle.rule_lang.specs.declared.fault.Want.TheVariants as want;
ghost use Rattle.rule_strategy.specs.Answers.{Gives};
ghost use Rattle.rule_strategy.specs.Rules.{expression, expression_if, action_of, rule_of, rules_from, rules};

use crate::rule_texts::{ActionTexts, RuleTexts, read_texts};
use crate::text::ShortText;
use crate::{Part, PlanFault, Rules};
use lean_fixed::Symbol;
use lean_orders::Kind;
use rule_lang::{Expr, RuleFault, Want};
use std::alloc::Global;
use toml::Table;

/// What a rule does where it holds.
#[derive(Drop)]
pub enum Action {
    /// It submits an order: the kind, the quantity, the price of a limit, stop or stop-limit order, and the limit of a
    /// stop-limit order. The expressions are numbers.
    Order(Kind, Expr, Option<Expr>, Option<Expr>),
    /// It gives the security's live limit, stop and stop-limit orders this price, a number.
    Update(Expr),
    /// It cancels the security's live orders.
    Cancel,
}

/// A rule, which is tried for each security that has a new bar.
#[derive(Drop)]
pub struct Rule {
    /// The one security that it is for, or none where it is for all.
    pub symbol: Option<Symbol>,
    /// The truth at which it acts.
    pub when: Expr,
    pub action: Action,
}

/// The rules of a file. Their tables are checked before the first expression is read.
#[tactic(auto, unfolding(crate::specs::Rules::rules))]
pub(crate) fn read_rules(alloc: Global, table: &Table) -> Result<Rules, PlanFault>
    ensures { Gives (λ r. r) (rules (table_view table.now)) result }
{
    let texts = read_texts(alloc, table)?;
    let rules = read_each(alloc, &texts)?;
    Ok(Rules(rules))
}

#[tactic(auto, unfolding(crate::specs::Rules::rules_from))]
fn read_each(alloc: Global, texts: &[RuleTexts]) -> Result<Vec<Rule>, PlanFault>
    requires { length texts.now ≤ 64 }
    ensures { Gives (λ v. v.items) (rules_from 1 [] texts.now) result }
{
    let mut out = Vec::new(alloc);
    for place in 0..texts.len() {
        match rule_of(alloc, place as u32 + 1, &texts[place]) {
            Ok(next) => out.push(next)?,
            Err(fault) => return Err(fault),
        }
    }
    Ok(out)
}

#[tactic(auto, unfolding(crate::specs::Rules::rule_of))]
fn rule_of(alloc: Global, number: u32, texts: &RuleTexts) -> Result<Rule, PlanFault>
    ensures { Gives (λ r. r) (rule_of number texts.now) result }
{
    let when = expression(alloc, number, Part::When, Want::Truth, &texts.when)?;
    let action = action_of(alloc, number, &texts.action)?;
    Ok(Rule {
        symbol: texts.symbol,
        when,
        action,
    })
}

#[tactic(auto, unfolding(crate::specs::Rules::action_of))]
fn action_of(alloc: Global, number: u32, texts: &ActionTexts) -> Result<Action, PlanFault>
    ensures { Gives (λ a. a) (action_of number texts.now) result }
{
    match texts {
        ActionTexts::Order(kind, quantity, price, limit) => {
            let quantity = expression(alloc, number, Part::Quantity, Want::Number, quantity)?;
            let price = expression_if(alloc, number, Part::Price, price)?;
            let limit = expression_if(alloc, number, Part::Limit, limit)?;
            Ok(Action::Order(*kind, quantity, price, limit))
        }
        ActionTexts::Update(price) => {
            let price = expression(alloc, number, Part::Price, Want::Number, price)?;
            Ok(Action::Update(price))
        }
        ActionTexts::Cancel => Ok(Action::Cancel),
    }
}

#[tactic(auto, unfolding(crate::specs::Rules::expression_if))]
fn expression_if(
    alloc: Global,
    number: u32,
    part: Part,
    text: &Option<ShortText>,
) -> Result<Option<Expr>, PlanFault>
    ensures { Gives (λ e. e) (expression_if number part text.now) result }
{
    match text {
        None => Ok(None),
        Some(text) => {
            let expression = expression(alloc, number, part, Want::Number, text)?;
            Ok(Some(expression))
        }
    }
}

#[tactic(auto, unfolding(crate::specs::Rules::expression))]
fn expression(
    alloc: Global,
    number: u32,
    part: Part,
    want: Want,
    text: &ShortText,
) -> Result<Expr, PlanFault>
    ensures { Gives (λ e. e) (expression number part want text.now) result }
{
    match Expr::read(alloc, text.bytes(), want) {
        Ok(expression) => Ok(expression),
        Err(RuleFault::At(error, at)) => Err(PlanFault::Rule(number, part, error, at)),
        Err(RuleFault::NoMemory) => Err(PlanFault::NoMemory),
    }
}
