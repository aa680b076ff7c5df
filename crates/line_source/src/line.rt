/// What the next line of a file is.
#[derive(Clone, Copy, Debug, PartialEq, Eq)]
pub enum Line {
    /// A line with a text, which is not empty.
    Text,
    /// A line with more than 256 bytes before its LF or the file's end.
    Long,
    /// A line past the 10,000,000th.
    Many,
    /// The file has no further line, or only blank ones.
    End,
    /// A read failed.
    Faulted,
}
