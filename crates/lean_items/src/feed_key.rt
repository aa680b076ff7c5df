use lean_fixed::{Moment, Resolution, Symbol};

/// What a feed reads.
#[derive(Clone, Copy, Debug, PartialEq, Eq)]
pub enum FeedKind {
    /// The coarse universe files.
    Coarse,
    /// The bars of one security, of one resolution.
    Equity(Symbol, Resolution),
}

/// What tells two feeds apart: what they read, where they start, and whether they fill forward, after LEAN's topic
/// "Fill Forward".
#[derive(Clone, Copy, Debug, PartialEq, Eq)]
pub struct FeedKey {
    pub kind: FeedKind,
    /// The feed gives what ends after this moment.
    pub start: Moment,
    /// Whether the last bar is given again where a bar is missing.
    pub fill: bool,
}
