use lean_items::Bar;

/// What was read of the rows and not given yet. A malformed line or a failed read is given at once.
#[derive(Clone, Copy)]
pub enum Ahead {
    /// Nothing.
    Nothing,
    /// The next row.
    Row(Bar),
    /// That there is no further row.
    Over,
}
