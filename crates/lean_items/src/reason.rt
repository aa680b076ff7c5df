ghost use Rattle.std.specs.Prelude.{◌≡◌};
ghost use Rattle.lean_items.specs.Reasons.{reason_text};

/// Why a line of a data file gives no row. Of several reasons of one line the first in this order counts.
#[derive(Clone, Copy, Debug, PartialEq, Eq)]
pub enum Reason {
    /// The file has more lines or rows than are read of it.
    Many,
    /// The line has more bytes than are read of it.
    Long,
    /// The line has too few fields.
    Fields,
    /// The time of the row is not of its form.
    Time,
    /// A price is no number or out of its range.
    Price,
    /// The volume is no number or out of its range.
    Volume,
    /// The opening or the closing price does not lie from the low to the high.
    Range,
    /// The row does not start after the row before it.
    Order,
}

impl Reason {
    /// The word that a report gives for the reason.
    pub fn word(self) -> &'static str
        ensures { result.now ≡ reason_text self }
    {
        match self {
            Reason::Many => "many",
            Reason::Long => "long",
            Reason::Fields => "fields",
            Reason::Time => "time",
            Reason::Price => "price",
            Reason::Volume => "volume",
            Reason::Range => "range",
            Reason::Order => "order",
        }
    }
}
