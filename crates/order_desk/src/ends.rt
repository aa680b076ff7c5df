use crate::unheard::Unheard;
use feed_queue::{Reader, Writer};
use lean_orders::{Command, Reply};
use std::sync::Arc;
use std::sync::atomic::AtomicBool;

/// A desk's ends of the two lanes, and the thread's stop flag.
#[derive(Drop)]
pub struct Ends<R> {
    pub(crate) rt: R,
    pub(crate) commands: Writer<Command>,
    pub(crate) replies: Reader<Reply>,
    // The replies that were taken and are not heard yet.
    pub(crate) queue: Unheard,
    // Raised by the thread at want of memory, and by the desk at its end.
    pub(crate) stop: Arc<AtomicBool>,
}
