//! The list of all orders. That of an id stands at the place one less than it.
ghost use Rattle.std.specs.Prelude.{◌≡◌, ◌==◌, Some, IfSome};
ghost use Rattle.std.specs.List.{find};
ghost use Rattle.clock_book.specs.Submits.{has_price, has_limit};
ghost use Rattle.order_book.specs.Judged.{made_order};
ghost use Rattle.order_book.specs.Resting.{is_live_at};
ghost use Rattle.clock_book.specs.Seen.{AreNumbered};

use crate::market::is_live;
use lean_fixed::Moment;
use lean_orders::{Kind, Order, OrderState, Request};

// The order of an id, if there is one.
pub(crate) fn order_of(orders: &[Order], id: u32) -> Option<Order>
    requires numbered { AreNumbered 1 orders.now }
    ensures value { result ≡ find (λ order. order.id == id) orders.now }
    ensures itself { IfSome result
        (λ order. find (λ other. other.id == order.id) orders.now ≡ Some order) }
{
    if id == 0 {
        return None;
    }
    orders.get(id as usize - 1).copied()
}

// Whether an order stands at a place and is live.
pub(crate) fn is_live_at(orders: &[Order], place: u32) -> bool
    ensures { result ≡ is_live_at orders.now place }
{
    match orders.get(place as usize) {
        Some(order) => is_live(order.state),
        None => false,
    }
}

// The order that a request makes.
pub(crate) fn made_order(
    id: u32,
    at: Moment,
    request: &Request,
    kind: Kind,
    state: OrderState,
) -> Order
    ensures { result ≡ made_order id at request.now kind state }
{
    Order {
        id,
        symbol: request.symbol,
        kind,
        quantity: request.quantity,
        price: if has_price(kind) { request.price } else { None },
        limit: if has_limit(kind) { request.limit } else { None },
        placed: at,
        state,
        triggered: false,
    }
}

// Whether orders of a kind rest at a price of their own.
pub(crate) fn has_price(kind: Kind) -> bool
    ensures { result ≡ has_price kind }
{
    match kind {
        Kind::Limit | Kind::Stop | Kind::StopLimit => true,
        Kind::Market | Kind::AtOpen => false,
    }
}

// Whether they have a limit beside it.
pub(crate) fn has_limit(kind: Kind) -> bool
    ensures { result ≡ has_limit kind }
{
    match kind {
        Kind::StopLimit => true,
        Kind::Market | Kind::Limit | Kind::Stop | Kind::AtOpen => false,
    }
}
