use crate::RuleError;
use bar_windows::Func;

/// A number that an expression may name.
#[derive(Clone, Copy)]
pub enum Name {
    Open,
    High,
    Low,
    Close,
    Volume,
    Price,
    Position,
    Cash,
    Equity,
    Orders,
    Time,
}

/// A comparison of two numbers.
#[derive(Clone, Copy)]
pub enum Comparison {
    Less,
    AtMost,
    Greater,
    AtLeast,
    Equal,
    Unequal,
}

/// An operation on two numbers; `Minus` is also the sign before one.
#[derive(Clone, Copy)]
pub enum Arithmetic {
    Plus,
    Minus,
    Times,
    Over,
}

/// An operator between two operands.
#[derive(Clone, Copy)]
pub enum Op {
    Or,
    And,
    Compare(Comparison),
    Compute(Arithmetic),
}

/// What a token is.
#[derive(Clone, Copy)]
pub enum Kind {
    /// A number without a point.
    Whole(u64),
    /// A number with a point, in units of 1/10000.
    Decimal(i128),
    Name(Name),
    Func(Func),
    Operator(Op),
    Not,
    Opening,
    Closing,
    /// The end of the text.
    End,
}

/// A token and the place of its first byte in the text.
#[derive(Clone, Copy)]
pub struct Token {
    pub kind: Kind,
    pub at: u32,
}

/// What stands at the front of a text.
#[derive(Clone, Copy)]
pub enum Front {
    /// A space or a tab.
    Blank,
    /// A token and the number of its bytes.
    Lexeme(Kind, usize),
    /// No token begins here, or a number has too many digits or none behind its point.
    Bad(RuleError),
}

/// The levels of operators, from the one that binds most loosely. Compared operands do not follow one another.
#[derive(Clone, Copy)]
pub enum Level {
    Or,
    And,
    Compared,
    Sum,
    Term,
}

/// What opens a level: a bracket, `not`, or the sign `-`.
#[derive(Clone, Copy)]
pub enum Context {
    Brackets,
    Not,
    Minus,
}

/// A bracket, or the end of the text, that a rule of the grammar wants at a place.
#[derive(Clone, Copy)]
pub enum Delimiter {
    Opening,
    Closing,
    End,
}
