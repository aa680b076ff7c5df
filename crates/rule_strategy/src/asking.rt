ghost use Rattle.std.specs.Prelude.{◌≡◌, ◌≤◌, ◌+◌, ◌++◌, ◌^◌, unsigned_abs, length, vec_len, vec_capacity, Some, IfSome, OnOk, OnErr};
ghost use Rattle.rule_strategy.specs.Asked.{asked, asked_if, submits, updates, cancels, asked_by, requests_of};

use crate::rule_texts::rests_at_price;
use crate::{Action, Rule};
use lean_fixed::{Moment, NoMemory, Price, Shares, Symbol};
use lean_orders::{Command, Kind, Request, Resting};
use rule_lang::{Expr, View};

/// The greatest quantity and price that are asked for, either way, in units of 1/10000.
const MOST_ASKED: u128 = 1_000_000_000_000_000_000;

/// What the expressions of a rule are read against: views of one security at one moment that differ in their windows alone,
/// each of which has the values of its own expression's windows.
#[derive(Drop)]
pub struct RuleView {
    pub when: View,
    pub quantity: View,
    pub price: View,
    pub limit: View,
}

/// Appends what a rule asks for, for one security that it is for, whose live orders are these by id. Where what the rule
/// waits for is true:
///
/// - An order is one submit. Its shares are the value of the quantity, cut toward zero. Where the quantity, the price or the
///   limit has no value, or one beyond 10^18 units either way, there is none.
/// - An update is one update for each live limit, stop and stop-limit order, to the value of the price. Where that is missing
///   or beyond 10^18 units either way, there is none.
/// - A cancel is one cancel for each live order.
///
/// Each command has the moment of the views. For want of memory nothing is appended.
#[tactic(auto, unfolding(crate::specs::Asked::requests_of))]
pub fn requests(
    rule: &Rule,
    symbol: Symbol,
    view: &RuleView,
    live: &[Resting],
    out: &mut Vec<Command>,
) -> Result<(), NoMemory>
    ensures ok { OnOk result (out.new.items ≡ out.old.items ++ requests_of rule.now symbol view.now live.now) }
    ensures err { OnErr result (out.new.items ≡ out.old.items) }
{
    if !rule.when.truth(&view.when) {
        return Ok(());
    }
    out.reserve(live.len() + 1)?;
    append_asked(&rule.action, symbol, view, live, out);
    Ok(())
}

fn append_asked(
    action: &Action,
    symbol: Symbol,
    view: &RuleView,
    live: &[Resting],
    out: &mut Vec<Command>,
)
    requires room { vec_len out.old + length live.now + 1 ≤ vec_capacity out.old }
    ensures { out.new.items ≡ out.old.items ++ asked_by action.now symbol view.now live.now }
{
    let at = view.when.at;
    match action {
        Action::Order(kind, quantity, price, limit) => {
            let quantity = asked(&view.quantity, quantity);
            let price = asked_if(&view.price, price);
            let limit = asked_if(&view.limit, limit);
            append_order(at, symbol, *kind, quantity, price, limit, out);
        }
        Action::Update(price) => append_updates(at, asked(&view.price, price), live, out),
        Action::Cancel => append_cancels(at, live, out),
    }
}

// The number that an expression is, where it may be asked for.
#[tactic(auto, unfolding(crate::specs::Asked::asked))]
fn asked(view: &View, expression: &Expr) -> Option<i64>
    ensures value { result ≡ asked view.now expression.now }
    ensures range { IfSome result (λ n. unsigned_abs n ≤ 10 ^ 18) }
{
    let number = expression.number(view)?;
    if number.unsigned_abs() <= MOST_ASKED {
        Some(number as i64)
    } else {
        None
    }
}

// The price that an order has, if it has one; `None` where that has no value.
fn asked_if(view: &View, expression: &Option<Expr>) -> Option<Option<Price>>
    ensures { result ≡ asked_if view.now expression.now }
{
    match expression {
        None => Some(None),
        Some(expression) => match asked(view, expression) {
            None => None,
            Some(units) => Some(Some(Price(units))),
        },
    }
}

fn append_order(
    at: Moment,
    symbol: Symbol,
    kind: Kind,
    quantity: Option<i64>,
    price: Option<Option<Price>>,
    limit: Option<Option<Price>>,
    out: &mut Vec<Command>,
)
    requires range { IfSome quantity (λ n. unsigned_abs n ≤ 10 ^ 18) }
    requires room { vec_len out.old + 1 ≤ vec_capacity out.old }
    ensures { out.new.items ≡ out.old.items ++ submits at symbol kind quantity price limit }
{
    let (Some(units), Some(price), Some(limit)) = (quantity, price, limit) else {
        return;
    };
    out.push_reserved(Command::Submit(
        at,
        Request {
            symbol,
            kind,
            quantity: Shares(units / 10_000),
            price,
            limit,
        },
    ));
}

fn append_updates(at: Moment, price: Option<i64>, live: &[Resting], out: &mut Vec<Command>)
    requires room { vec_len out.old + length live.now ≤ vec_capacity out.old }
    ensures { out.new.items ≡ out.old.items ++ updates at price live.now }
{
    match price {
        None => {}
        Some(units) => append_each_update(at, Price(units), live, out),
    }
}

fn append_each_update(at: Moment, price: Price, live: &[Resting], out: &mut Vec<Command>)
    requires room { vec_len out.old + length live.now ≤ vec_capacity out.old }
    ensures { out.new.items ≡ out.old.items ++ updates at (Some price.0) live.now }
{
    for order in live {
        if rests_at_price(order.kind) {
            out.push_reserved(Command::Update(at, order.id, price));
        }
    }
}

fn append_cancels(at: Moment, live: &[Resting], out: &mut Vec<Command>)
    requires room { vec_len out.old + length live.now ≤ vec_capacity out.old }
    ensures { out.new.items ≡ out.old.items ++ cancels at live.now }
{
    for order in live {
        out.push_reserved(Command::Cancel(at, order.id));
    }
}
