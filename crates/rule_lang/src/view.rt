ghost use Rattle.std.specs.Prelude.{◌≡◌, ◌<◌, length, slice_set};

use lean_fixed::{Moment, Money, Price, Shares};
use lean_items::Bar;
use std::marker::Model;

/// The values of an expression's windows over closes, as they stand in its text. A window that has seen too few closes has
/// no value. Contracts see the list.
#[derive(Drop)]
pub struct WindowValues(pub Vec<Option<i64>>);

impl Model for WindowValues {
    ghost use Rattle.std.specs.Prelude.{ℤ, List, Option};

    ghost Value = { List (Option ℤ) };

    ghost view = { λ w. w.0.items };
}

impl WindowValues {
    /// Gives a window its value at another moment.
    pub fn set(&mut self, place: usize, value: Option<i64>)
        requires { place < length self.old }
        ensures { self.new ≡ slice_set self.old place value }
    {
        self.0[place] = value;
    }
}

/// What an expression is read against: a security at a moment, after the properties of LEAN's "Securities" topic.
#[derive(Drop)]
pub struct View {
    /// The last bar that was given at this moment.
    pub bar: Bar,
    pub at: Moment,
    /// The current price, in 1/10000 dollar like the money below.
    pub price: Price,
    /// The shares that are held, negative where they are owed.
    pub position: Shares,
    pub cash: Money,
    /// The cash and what the positions are worth.
    pub equity: Money,
    /// The number of live orders of the security.
    pub orders: u32,
    pub windows: WindowValues,
}
