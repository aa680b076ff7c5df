ghost use Rattle.std.specs.Prelude.{◌≡◌};
ghost use Rattle.rule_strategy.specs.declared.fault.PlanFault.TheVariants.{NoMemory};

use crate::KeyText;
use rule_lang::RuleError;
use std::alloc::{AllocError, AllocFailed};

/// The expression of a rule at which a fault stands.
#[derive(Clone, Copy, Debug, PartialEq, Eq)]
pub enum Part {
    When,
    Quantity,
    Price,
    Limit,
}

/// Why an algorithm file gives no plan: its first fault, or want of memory.
#[derive(Debug, Drop)]
pub enum PlanFault {
    /// The bytes are no TOML document.
    Toml,
    /// A required key that is not there.
    Missing(KeyText),
    /// A key that the table does not have, or that a rule of this kind does not take.
    Unknown(KeyText),
    /// A value of another kind, or out of its range.
    Value(KeyText),
    /// Too many days, securities or rules, or a text that is too long.
    Limit(KeyText),
    /// A fault in an expression: the number of its rule, from 1 on, the part of the rule, the error, and the place of the
    /// byte at which it stands, counted from 0.
    Rule(u32, Part, RuleError, u32),
    /// Memory that was asked for is not there.
    NoMemory,
}

impl From<AllocError> for PlanFault {
    ghost from_gives = { λ _ fault. fault ≡ NoMemory };

    fn from(_: AllocError) -> Self {
        PlanFault::NoMemory
    }
}

impl<T: Drop> From<AllocFailed<T>> for PlanFault {
    ghost from_gives = { λ _ fault. fault ≡ NoMemory };

    fn from(_: AllocFailed<T>) -> Self {
        PlanFault::NoMemory
    }
}
