/// What is told of a pool of feeds at its end.
#[derive(Clone, Copy, Debug, PartialEq, Eq)]
pub struct Finished {
    /// The number of feeds that were ever added.
    pub feeds: u64,
}
