/// How a tape ended.
#[derive(Clone, Copy, Debug, PartialEq, Eq)]
pub enum Ended {
    /// It is whole.
    Done,
    /// It names a malformed line.
    BadRow,
    /// A read failed; the lines of whole days or moments were printed.
    ReadFault,
}
