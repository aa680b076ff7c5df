/// The length of the bars of a file, after LEAN's topic "Resolutions".
#[derive(Clone, Copy, Debug, PartialEq, Eq)]
pub enum Resolution {
    /// Bars of one minute; a security has a file for each day.
    Minute,
    /// Bars of 60 minutes that start at whole hours; a security has one file.
    Hour,
    /// A bar for each day, which ends at the close of its session; a security has one file.
    Daily,
}
