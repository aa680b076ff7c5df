use lean_fixed::Symbol;

/// Why a choice was not made. The universe is as it was before.
#[derive(Drop)]
pub enum ChooseRefusal {
    /// Memory that was asked for is not there.
    NoMemory,
    /// A security 257 would be active. These are the ones that would have been added before it.
    TooMany(Vec<Symbol>),
}
