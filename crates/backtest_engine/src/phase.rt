/// The phases of a moment, in their order. The replies of one are heard before the next begins.
#[derive(Clone, Copy, PartialEq, Eq)]
pub enum Phase {
    /// The securities whose bars end are marked, and the live orders are tried.
    Prices,
    /// The rules ask.
    Rules,
    /// A session closes, and the account is asked for.
    Close,
}
