/// A part of each day of one weekday. Its minutes are counted from 00:00.
#[derive(Clone, Copy)]
pub struct Segment {
    /// 0 for Sunday to 6 for Saturday.
    pub weekday: u8,
    /// Whether its state is `market`: only then is the exchange open.
    pub is_market: bool,
    pub start: u16,
    pub end: u16,
}

/// A day on which the exchange closes early.
#[derive(Clone, Copy)]
pub struct EarlyClose {
    /// Days since 1970-01-01.
    pub day: u32,
    /// The minute of the closing, counted from 00:00 of the day.
    pub minute: u16,
}
