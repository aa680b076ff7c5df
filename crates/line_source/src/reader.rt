ghost use Rattle.std.specs.Prelude.{◌≤◌};

/// The most bytes of a line before its LF.
pub(crate) const MOST_BYTES: usize = 256;

/// The lines of the open file of a hand. It keeps the bytes that were read and not given yet, and the text of the last
/// line that was given.
#[derive(Drop)]
pub struct Lines<H> {
    pub(crate) hand: H,
    pub(crate) buffer: [u8; MOST_BYTES],
    // the text of the last line that was given lies from `start` to `end`
    pub(crate) start: usize,
    pub(crate) end: usize,
    // what was read and not given yet lies from `from` to `to`
    pub(crate) from: usize,
    pub(crate) to: usize,
    pub(crate) number: u32,
    ghost spans: { start ≤ end },
    ghost ends: { end ≤ from },
    ghost order: { from ≤ to },
    ghost within: { to ≤ 256 },
}
