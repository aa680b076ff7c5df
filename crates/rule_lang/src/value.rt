//! The value of an expression in a view. It takes no memory and looks at each operand at most once.

ghost use Rattle.std.specs.Prelude.{◌≡◌, ℕ, drop, neg_ℤ};
ghost use Rattle.rule_lang.specs.Nodes.{amount_of, condition_of, IsPlaced, ArePlaced};
ghost use Rattle.rule_lang.specs.Values as spec;

use crate::node::{Amount, Condition};
use crate::token::{Arithmetic, Comparison, Name};
use crate::view::{View, WindowValues};

/// No operation has a value beyond this, either way: 10^38.
const REACH: i128 = 100_000_000_000_000_000_000_000_000_000_000_000_000;

/// The units in a whole number.
const UNITS: i128 = 10_000;

/// The minutes in a day.
const DAY: i64 = 1_440;

/// The number that an amount is, whose windows have the places from any number on.
#[tactic(auto, unfolding(crate::specs::Values::number_of))]
pub fn number(amount: &Amount, view: &View) -> Option<i128>
    ensures { (from : ℕ) → IsPlaced amount.now from
        → result ≡ spec.number_of view.now (drop from view.now.windows) (amount_of amount.now) }
{
    match amount {
        Amount::Number(units) => Some(*units),
        Amount::Named(name) => Some(named(*name, view)),
        Amount::Window(_, place) => window(&view.windows, *place),
        Amount::Minus(inner) => minus(number(inner, view)?),
        Amount::Arithmetic(op, left, right) => computed(
            *op,
            number(left, view)?,
            number(right, view)?,
        ),
    }
}

/// The truth of a condition, whose windows have the places from any number on.
#[tactic(auto, unfolding(crate::specs::Values::truth_of))]
pub fn truth(condition: &Condition, view: &View) -> bool
    ensures { (from : ℕ) → ArePlaced condition.now from
        → result ≡ spec.truth_of view.now (drop from view.now.windows) (condition_of condition.now) }
{
    match condition {
        Condition::Not(inner) => !truth(inner, view),
        Condition::And(left, right) => truth(left, view) && truth(right, view),
        Condition::Or(left, right) => truth(left, view) || truth(right, view),
        Condition::Compare(op, left, right) => compared(
            *op,
            number(left, view),
            number(right, view),
        ),
    }
}

fn window(values: &WindowValues, place: usize) -> Option<i128>
    ensures { result ≡ spec.first_value (drop place values.now) }
{
    let value = (*values.0.get(place)?)?;
    Some(value as i128)
}

fn named(name: Name, view: &View) -> i128
    ensures { result ≡ spec.value_of_name view.now name }
{
    match name {
        Name::Open => view.bar.opening.0 as i128,
        Name::High => view.bar.high.0 as i128,
        Name::Low => view.bar.low.0 as i128,
        Name::Close => view.bar.closing.0 as i128,
        Name::Volume => view.bar.volume.0 as i128 * UNITS,
        Name::Price => view.price.0 as i128,
        Name::Position => view.position.0 as i128 * UNITS,
        Name::Cash => view.cash.0,
        Name::Equity => view.equity.0,
        Name::Orders => view.orders as i128 * UNITS,
        Name::Time => view.at.0.rem_euclid(DAY) as i128 * UNITS,
    }
}

fn within(number: i128) -> Option<i128>
    ensures { result ≡ spec.within number }
{
    if -REACH <= number && number <= REACH {
        Some(number)
    } else {
        None
    }
}

fn minus(number: i128) -> Option<i128>
    ensures { result ≡ spec.within (neg_ℤ number) }
{
    within(number.checked_neg()?)
}

fn computed(op: Arithmetic, left: i128, right: i128) -> Option<i128>
    ensures { result ≡ spec.computed op left right }
{
    match op {
        Arithmetic::Plus => within(left.checked_add(right)?),
        Arithmetic::Minus => within(left.checked_sub(right)?),
        Arithmetic::Times => quotient(left.checked_mul(right)?, UNITS),
        Arithmetic::Over => quotient(left.checked_mul(UNITS)?, right),
    }
}

fn quotient(number: i128, divisor: i128) -> Option<i128>
    ensures { result ≡ spec.quotient number divisor }
{
    if divisor == 0 {
        return None;
    }
    Some(within(number)? / divisor)
}

fn compared(op: Comparison, left: Option<i128>, right: Option<i128>) -> bool
    ensures { result ≡ spec.compared op left right }
{
    match (left, right) {
        (Some(left), Some(right)) => holds(op, left, right),
        _ => false,
    }
}

fn holds(op: Comparison, left: i128, right: i128) -> bool
    ensures { result ≡ spec.holds op left right }
{
    match op {
        Comparison::Less => left < right,
        Comparison::AtMost => left <= right,
        Comparison::Greater => left > right,
        Comparison::AtLeast => left >= right,
        Comparison::Equal => left == right,
        Comparison::Unequal => left != right,
    }
}
