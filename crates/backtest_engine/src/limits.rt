/// What a backtest has no room for.
#[derive(Clone, Copy, Debug, PartialEq, Eq)]
pub enum Limit {
    /// One more active security.
    Securities,
    /// One more request.
    Requests,
}

/// Why a strategy stops within a moment.
#[derive(Clone, Copy, Debug, PartialEq, Eq)]
pub enum Stop {
    /// There is no memory.
    NoMemory,
    /// A limit is met. What was printed before it is part of the report.
    Limited(Limit),
}
