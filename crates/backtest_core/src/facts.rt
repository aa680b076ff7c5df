use lean_fixed::{Moment, Money, Price, Shares};
use lean_items::Bar;

/// What an expression reads of a security and the account beside its windows.
#[derive(Clone, Copy)]
pub struct Facts {
    pub bar: Bar,
    pub at: Moment,
    /// The last price, and 0 where there is none.
    pub price: Price,
    pub position: Shares,
    pub cash: Money,
    pub equity: Money,
    /// The number of live orders of the security.
    pub orders: u32,
}
