/// How the rows of a tape end.
#[derive(Clone, Copy)]
pub enum Ending {
    /// All rows were printed: their number.
    Whole(u64),
    /// The security at this place says no more: a malformed line, or a failed read.
    Stopped(usize),
}
