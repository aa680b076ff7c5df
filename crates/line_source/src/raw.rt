/// What stands before the next LF.
pub enum Raw {
    /// The bytes of a line.
    Line,
    /// More bytes than a line may have.
    Long,
    /// Nothing: the file has no further line.
    End,
}
