use crate::lane_desk::LaneDesk;
use crate::serial_desk::SerialDesk;

/// A desk whose book is served by a thread, between a lane of 128 commands and a lane of 128 replies.
#[derive(Drop)]
pub enum ThreadDesk<G, R> {
    /// The book is in a thread.
    There(LaneDesk<G, R>),
    /// No thread was to be had: the caller does its work, and passes the gate itself.
    Here(SerialDesk, G),
}
