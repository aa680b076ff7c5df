//! Expressions as trees, and the parts of a text that they are read from.

ghost use Rattle.std.specs.Prelude.{◌≡◌, ◌≤◌, List, Ok, Err, IfOk};
ghost use Rattle.bar_windows.specs.declared.spec.WindowSpec as the_spec;
ghost use Rattle.rule_lang.specs.declared.token.Op.{Op};
ghost use Rattle.rule_lang.specs.Parts as spec;
ghost use Rattle.rule_lang.specs.Parts.{over};
ghost use Rattle.rule_lang.specs.Nodes.{amount_of, condition_of, part_of, tree_of, AddsAmount, AddsCondition, AddsPart, AddsTree};
ghost use Rattle.rule_lang.specs.Reading.{Gives, typed};

use crate::token::{Arithmetic, Comparison, Name, Op};
use crate::{RuleError, RuleFault, Want};
use bar_windows::WindowSpec;
use std::alloc::Global;

/// A number.
#[derive(Drop)]
pub enum Amount {
    /// A number of the text, in units of 1/10000.
    Number(i128),
    Named(Name),
    /// A window over closes, and its place in the list of the expression's windows.
    Window(WindowSpec, usize),
    /// The sign `-`.
    Minus(Box<Amount>),
    Arithmetic(Arithmetic, Box<Amount>, Box<Amount>),
}

/// What is true or false.
#[derive(Drop)]
pub enum Condition {
    Not(Box<Condition>),
    And(Box<Condition>, Box<Condition>),
    Or(Box<Condition>, Box<Condition>),
    Compare(Comparison, Amount, Amount),
}

/// An expression.
#[derive(Drop)]
pub enum Tree {
    Condition(Condition),
    Amount(Amount),
}

/// A part of a text, by the kind that its outermost operator gives. Where an operator in it has an operand of the wrong
/// kind, the least place of such an operator stands in place of the tree.
#[derive(Drop)]
pub enum Part {
    Logical(Result<Condition, u32>),
    Numeric(Result<Amount, u32>),
}

/// What stands behind a `not`.
#[tactic(auto, unfolding(crate::specs::Tree::windows_under))]
pub fn not(alloc: Global, at: u32, inner: Part) -> Result<Part, RuleFault>
    ensures part { Gives part_of result (Ok (spec.not_at at (part_of inner))) }
    ensures adds { (old new : List the_spec.WindowSpec) → AddsPart inner old new → IfOk result (λ x. AddsPart x old new) }
{
    match condition_at(at, inner) {
        Ok(inner) => Ok(Part::Logical(Ok(Condition::Not(Box::new(alloc, inner)?)))),
        Err(place) => Ok(Part::Logical(Err(place))),
    }
}

/// What stands behind the sign `-`.
#[tactic(auto, unfolding(crate::specs::Tree::windows_in))]
pub fn minus(alloc: Global, at: u32, inner: Part) -> Result<Part, RuleFault>
    ensures part { Gives part_of result (Ok (spec.minus_at at (part_of inner))) }
    ensures adds { (old new : List the_spec.WindowSpec) → AddsPart inner old new → IfOk result (λ x. AddsPart x old new) }
{
    match amount_at(at, inner) {
        Ok(inner) => Ok(Part::Numeric(Ok(Amount::Minus(Box::new(alloc, inner)?)))),
        Err(place) => Ok(Part::Numeric(Err(place))),
    }
}

/// Two operands and the operator between them. The windows of the right one were read behind those of the left one.
pub fn binary(alloc: Global, op: Op, at: u32, left: Part, right: Part) -> Result<Part, RuleFault>
    ensures part { Gives part_of result (Ok (spec.binary op at (part_of left) (part_of right))) }
    ensures adds { (old between new : List the_spec.WindowSpec) → AddsPart left old between → AddsPart right between new
        → IfOk result (λ x. AddsPart x old new) }
{
    match op {
        Op::Or => match conditions(at, left, right) {
            Ok((left, right)) => {
                let left = Box::new(alloc, left)?;
                let right = Box::new(alloc, right)?;
                Ok(Part::Logical(Ok(Condition::Or(left, right))))
            }
            Err(place) => Ok(Part::Logical(Err(place))),
        },
        Op::And => match conditions(at, left, right) {
            Ok((left, right)) => {
                let left = Box::new(alloc, left)?;
                let right = Box::new(alloc, right)?;
                Ok(Part::Logical(Ok(Condition::And(left, right))))
            }
            Err(place) => Ok(Part::Logical(Err(place))),
        },
        Op::Compare(op) => match amounts(at, left, right) {
            Ok((left, right)) => Ok(Part::Logical(Ok(Condition::Compare(op, left, right)))),
            Err(place) => Ok(Part::Logical(Err(place))),
        },
        Op::Compute(op) => match amounts(at, left, right) {
            Ok((left, right)) => {
                let left = Box::new(alloc, left)?;
                let right = Box::new(alloc, right)?;
                Ok(Part::Numeric(Ok(Amount::Arithmetic(op, left, right))))
            }
            Err(place) => Ok(Part::Numeric(Err(place))),
        },
    }
}

// The operands of an operator at a place that takes conditions, or the least place of a type error.
fn conditions(at: u32, left: Part, right: Part) -> Result<(Condition, Condition), u32>
    ensures kinds { over (λ o. (condition_of o.0, condition_of o.1)) result
        ≡ spec.operands (spec.condition_at at (part_of left)) (spec.condition_at at (part_of right)) }
    ensures adds { (old between new : List the_spec.WindowSpec) → AddsPart left old between → AddsPart right between new
        → IfOk result (λ o. AddsCondition o.0 old between × AddsCondition o.1 between new) }
{
    match (condition_at(at, left), condition_at(at, right)) {
        (Ok(left), Ok(right)) => Ok((left, right)),
        (Err(one), Err(other)) => Err(one.min(other)),
        (Err(place), Ok(_)) | (Ok(_), Err(place)) => Err(place),
    }
}

// The same of one that takes amounts.
fn amounts(at: u32, left: Part, right: Part) -> Result<(Amount, Amount), u32>
    ensures kinds { over (λ o. (amount_of o.0, amount_of o.1)) result
        ≡ spec.operands (spec.amount_at at (part_of left)) (spec.amount_at at (part_of right)) }
    ensures adds { (old between new : List the_spec.WindowSpec) → AddsPart left old between → AddsPart right between new
        → IfOk result (λ o. AddsAmount o.0 old between × AddsAmount o.1 between new) }
{
    match (amount_at(at, left), amount_at(at, right)) {
        (Ok(left), Ok(right)) => Ok((left, right)),
        (Err(one), Err(other)) => Err(one.min(other)),
        (Err(place), Ok(_)) | (Ok(_), Err(place)) => Err(place),
    }
}

// A part as the operand of an operator at a place that takes conditions.
fn condition_at(at: u32, part: Part) -> Result<Condition, u32>
    ensures kind { over condition_of result ≡ spec.condition_at at (part_of part) }
    ensures adds { (old new : List the_spec.WindowSpec) → AddsPart part old new → IfOk result (λ x. AddsCondition x old new) }
{
    match part {
        Part::Logical(condition) => condition,
        Part::Numeric(amount) => Err(wrong(&amount, at)),
    }
}

// A part as the operand of an operator at a place that takes amounts.
fn amount_at(at: u32, part: Part) -> Result<Amount, u32>
    ensures kind { over amount_of result ≡ spec.amount_at at (part_of part) }
    ensures adds { (old new : List the_spec.WindowSpec) → AddsPart part old new → IfOk result (λ x. AddsAmount x old new) }
{
    match part {
        Part::Logical(condition) => Err(wrong(&condition, at)),
        Part::Numeric(amount) => amount,
    }
}

// The place of the error that an operand of the wrong kind makes of its operator, unless one in it is sooner.
fn wrong<T>(operand: &Result<T, u32>, at: u32) -> u32
    ensures { result ≡ spec.wrong at operand.now }
{
    match operand {
        Ok(_) => at,
        Err(place) => at.min(*place),
    }
}

/// The expression that a whole text is, or its first type error, which stands at 0 where the whole is not of the kind
/// that is wanted.
pub fn typed(part: Part, want: Want) -> Result<Tree, RuleFault>
    ensures tree { Gives tree_of result (typed want (part_of part)) }
    ensures adds { (old new : List the_spec.WindowSpec) → AddsPart part old new → IfOk result (λ x. AddsTree x old new) }
{
    match (want, part) {
        (Want::Truth, Part::Logical(Ok(condition))) => Ok(Tree::Condition(condition)),
        (Want::Number, Part::Numeric(Ok(amount))) => Ok(Tree::Amount(amount)),
        (_, Part::Logical(Err(place)) | Part::Numeric(Err(place))) => {
            Err(RuleFault::At(RuleError::WrongType, place))
        }
        _ => Err(RuleFault::At(RuleError::WrongType, 0)),
    }
}
