ghost use Rattle.std.specs.Prelude.{◌≡◌, length};
ghost use Rattle.feed_queue.specs.Lanes.{sent_of};

use crate::unheard::Unheard;
use feed_queue::{Reader, Writer};
use lean_orders::{Command, Reply};
use order_book::Book;

/// A book, and the ends of the two lanes by which a thread serves it.
#[derive(Drop)]
pub struct Server<G> {
    pub(crate) book: Book,
    pub(crate) gate: G,
    pub(crate) commands: Reader<Command>,
    pub(crate) replies: Writer<Reply>,
    // The replies to the last command that are not sent yet.
    pub(crate) pending: Unheard,
    // How many replies were sent.
    pub(crate) sent: u64,
    ghost counted: { length (sent_of replies) ≡ sent },
}
