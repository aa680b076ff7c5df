/// How a run ended.
#[derive(Clone, Copy, Debug, PartialEq, Eq)]
pub enum Ended {
    /// The report is whole.
    Done,
    /// The report names a malformed line that is due.
    BadRow,
    /// A read failed. The lines of whole moments were written.
    ReadFault,
    /// A write failed. A front of the report was written.
    WriteFault,
    /// There is no memory. A front of the report was written.
    NoMemory,
    /// The report names a limit that is met.
    Limit,
}
