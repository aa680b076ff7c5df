ghost use Rattle.std.specs.Prelude.{◌≡◌};
ghost use Rattle.rule_lang.specs.declared.fault.RuleFault.TheVariants.{NoMemory};

use std::alloc::{AllocError, AllocFailed};

/// The kind of value that an expression is to have.
#[derive(Clone, Copy, Debug, PartialEq, Eq)]
pub enum Want {
    /// True or false, as what a rule waits for.
    Truth,
    /// A number, as a quantity or a price.
    Number,
}

/// What is wrong with a text.
#[derive(Clone, Copy, Debug, PartialEq, Eq)]
pub enum RuleError {
    /// No token begins here, or a word that the language doesn't have.
    Token,
    /// A number with too many digits, or none behind its point, or a length of a window that is not a whole number from 1
    /// to 1,000.
    Number,
    /// A token that can't stand here, or the end of the text where more is wanted.
    Syntax,
    /// A bracket, a `not` or a sign that opens level 33.
    Depth,
    /// An operator with an operand of the wrong kind, or a text of another kind than is wanted.
    WrongType,
}

/// Why a text gives no expression.
#[derive(Clone, Copy, Debug, PartialEq, Eq)]
pub enum RuleFault {
    /// The error and the place of the byte at which it stands, counted from 0.
    At(RuleError, u32),
    /// The tree or the list of tokens found no memory.
    NoMemory,
}

impl From<AllocError> for RuleFault {
    ghost from_gives = { λ _ fault. fault ≡ NoMemory };

    fn from(_: AllocError) -> Self {
        RuleFault::NoMemory
    }
}

impl<T: Drop> From<AllocFailed<T>> for RuleFault {
    ghost from_gives = { λ _ fault. fault ≡ NoMemory };

    fn from(_: AllocFailed<T>) -> Self {
        RuleFault::NoMemory
    }
}
