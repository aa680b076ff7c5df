//! What is said of orders and commands.
ghost use Rattle.std.specs.Prelude.{◌≡◌, ◌+◌, ◌≤◌, [], ◌∷◌, ◌++◌, length, None, OnOk, OnErr};
ghost use Rattle.std.specs.Vec.{vec_len, vec_capacity};
ghost use Rattle.lean_orders.specs.declared.desk.Reply.TheVariants.{Done, Event};
ghost use Rattle.lean_orders.specs.declared.event.Cause.TheVariants as cause;
ghost use Rattle.lean_orders.specs.declared.event.What.TheVariants as what;
ghost use Rattle.clock_book.specs.Handled.{said};

use lean_fixed::{Moment, NoMemory, Symbol};
use lean_orders::{Cause, Order, OrderEvent, Reply, What};

// What happened to an order.
pub(crate) fn said(at: Moment, id: u32, symbol: Symbol, what: What) -> Reply
    ensures { result ≡ said at id symbol what }
{
    Reply::Event(OrderEvent {
        at,
        id,
        symbol: Some(symbol),
        what,
    })
}

// Says some things. There is room for them.
pub(crate) fn say(replies: &[Reply], out: &mut Vec<Reply>)
    requires { vec_len out.old + length replies.now ≤ vec_capacity out.old }
    ensures items { out.new.items ≡ out.old.items ++ replies.now }
    ensures len { vec_len out.new ≡ vec_len out.old + length replies.now }
    ensures capacity { vec_capacity out.old ≤ vec_capacity out.new }
{
    match out.extend_from_slice(replies) {
        Ok(()) => (),
        Err(_) => unreachable!(),
    }
}

// Says one thing, and that the command is handled.
pub(crate) fn answer(reply: Reply, out: &mut Vec<Reply>) -> Result<(), NoMemory>
    ensures ok { OnOk result (out.new.items ≡ out.old.items ++ reply ∷ Done ∷ []) }
    ensures err { OnErr result (out.new.items ≡ out.old.items) }
{
    out.extend_from_slice(&[reply, Reply::Done])?;
    Ok(())
}

// What an update or a cancel of an id is answered that was not given out.
pub(crate) fn unknown(at: Moment, id: u32) -> Reply
    ensures { result
        ≡ Event (record { at = at; id = id; symbol = None; what = what.Invalid cause.Unknown }) }
{
    Reply::Event(OrderEvent {
        at,
        id,
        symbol: None,
        what: What::Invalid(Cause::Unknown),
    })
}

// What an update or a cancel of an order is answered where something is against it.
pub(crate) fn refused(at: Moment, order: &Order, cause: Cause) -> Reply
    ensures { result ≡ said at order.now.id order.now.symbol (what.Invalid cause) }
{
    said(at, order.id, order.symbol, What::Invalid(cause))
}
