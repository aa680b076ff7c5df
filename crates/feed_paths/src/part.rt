use lean_fixed::Symbol;

/// A part of a path.
#[derive(Clone, Copy)]
pub enum Part {
    Text(&'static str),
    /// In lower case.
    Name(Symbol),
    /// A day, from 0 to the last one, by its eight digits.
    Date(u32),
}
