use lean_fixed::Moment;

/// The regular session of a day.
#[derive(Clone, Copy)]
pub struct Session {
    /// The first moment at which the exchange is open.
    pub opens: Moment,
    /// The moment at which the session ends, at the latest 24:00 of the day. The exchange is closed from then on, unless
    /// the session of the next day opens at that moment.
    pub closes: Moment,
}
