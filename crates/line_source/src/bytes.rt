//! Bytes in a buffer: where a line ends, where its text does, and a read behind them.
ghost use Rattle.std.specs.Prelude.{◌≡◌, ◌+◌, ◌≤◌, true, false, Some, length, take, drop, IfOk, OnOk, OnErr};
ghost use Rattle.lean_io.specs.Told.{Files, Reads, Rose};
ghost use Rattle.line_source.specs.Lines.{without_cr};
ghost use Rattle.line_source.specs.Raw.{FindsLf};

use lean_io::{Failed, Hand};
use memchr::memchr;

/// The place of the first LF.
pub fn find_lf(bytes: &[u8]) -> Option<usize>
    ensures { FindsLf bytes.now result }
{
    memchr(b'\n', bytes)
}

/// How many bytes of a line are its text: all but one CR at its end.
pub fn text_len(line: &[u8]) -> usize
    ensures within { result ≤ length line.now }
    ensures text { take result line.now ≡ without_cr line.now }
{
    match line.split_last() {
        Some((last, text)) => {
            if *last == b'\r' {
                text.len()
            } else {
                line.len()
            }
        }
        None => 0,
    }
}

/// Reads bytes of the hand's open file into a buffer from a place on, and gives their number.
pub fn read_behind<H: Hand>(hand: &mut H, buffer: &mut [u8], known: usize) -> Result<usize, Failed>
    requires opened { H.is_open hand.old ≡ true }
    requires within { known ≤ length buffer.old }
    ensures front { take known buffer.new ≡ take known buffer.old }
    ensures told { IfOk result (λ n. (f : Files) → H.files hand.old ≡ Some f
        → Reads n (H.rest hand.old) (H.rest hand.new) (drop known buffer.new)) }
    ensures count { IfOk result (λ n. known + n ≤ length buffer.new) }
    ensures opened { OnOk result (H.is_open hand.new ≡ true) }
    ensures closed { OnErr result (H.is_open hand.new ≡ false) }
    ensures rose { OnErr result (Rose (H.faults hand.old) (H.faults hand.new)) }
    ensures kept { H.files hand.new ≡ H.files hand.old }
    ensures grows { H.faults hand.old ≤ H.faults hand.new }
{
    hand.read(&mut buffer[known..])
}
