/// What a window computes over the last closes.
#[derive(Clone, Copy, Debug, PartialEq, Eq)]
pub enum Func {
    /// The average, after LEAN's simple moving average.
    Sma,
    /// The greatest close.
    Highest,
    /// The least close.
    Lowest,
    /// The last close less an earlier one, after LEAN's momentum.
    Change,
}

/// A window over the closes of a security: what it computes, and over how many closes, from 1 to 1,000.
#[derive(Clone, Copy, Debug, PartialEq, Eq)]
pub struct WindowSpec {
    pub func: Func,
    pub length: u32,
}
