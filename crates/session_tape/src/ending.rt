use lean_fixed::Symbol;
use lean_items::Bad;

/// How the bars of a session tape ended.
#[derive(Clone, Copy)]
pub enum Ending {
    /// All bars were printed: their number.
    Whole(u64),
    /// A malformed line of a symbol's files is due.
    Refused(Symbol, Bad),
    /// A read failed.
    Faulted,
}
