ghost use Rattle.std.specs.Prelude.{◌≡◌, ◌≤◌, true, false, None, Some, if◌then◌else◌, option_map, IfOk, OnOk, OnErr};
ghost use Rattle.lean_io.specs.Told.{Files, Rose};
ghost use Rattle.line_source.specs.Lines.{lines};
ghost use Rattle.line_source.specs.Reader.{hand_of, number_of, text_of, lines_left, GivesLine, HasCause, StaysOpen, GoesOn};

use crate::bytes::text_len;
use crate::line::Line;
use crate::raw::Raw;
use crate::reader::{Lines, MOST_BYTES};
use lean_io::{Failed, Hand};

/// The most lines of a file.
const MOST_LINES: u32 = 10_000_000;

impl<H: Hand> Lines<H> {
    /// A reader over a hand, with nothing read.
    pub fn new(hand: H) -> Lines<H>
        ensures hand { hand_of result ≡ hand }
        ensures number { number_of result ≡ 0 }
    {
        Lines {
            hand,
            buffer: [0; MOST_BYTES],
            start: 0,
            end: 0,
            from: 0,
            to: 0,
            number: 0,
        }
    }

    /// Opens the file at a path and begins with its first line. False: there is no such file, and then no file is open.
    /// `Failed`: a fault, and then no file is open.
    pub fn open_file(&mut self, path: &str) -> Result<bool, Failed>
        ensures told { IfOk result (λ found. (f : Files) → H.files (hand_of self.old) ≡ Some f
            → option_map lines (f path.now)
            ≡ (if found then Some (lines_left H.rest self.new) else None)) }
        ensures opened { IfOk result (λ found. H.is_open (hand_of self.new) ≡ found) }
        ensures number { OnOk result (number_of self.new ≡ 0) }
        ensures closed { OnErr result (H.is_open (hand_of self.new) ≡ false) }
        ensures rose { OnErr result (Rose (H.faults (hand_of self.old)) (H.faults (hand_of self.new))) }
        ensures kept { H.files (hand_of self.new) ≡ H.files (hand_of self.old) }
        ensures grows { H.faults (hand_of self.old) ≤ H.faults (hand_of self.new) }
    {
        self.start = 0;
        self.end = 0;
        self.from = 0;
        self.to = 0;
        self.number = 0;
        self.hand.open_file(path)
    }

    /// Goes to the next line that is not blank, and says what it is. After `Text` its text and number can be asked, and
    /// after `Long` and `Many` its number. `Faulted`: a read failed, and then no file is open.
    pub fn next(&mut self) -> Line
        requires open { H.is_open (hand_of self.old) ≡ true }
        requires few { number_of self.old ≤ 10_000_000 }
        ensures gives { (f : Files) → H.files (hand_of self.old) ≡ Some f
            → GivesLine (lines_left H.rest self.old) (lines_left H.rest self.new) (number_of self.new) (text_of self.new) result }
        ensures open { StaysOpen (H.is_open (hand_of self.new)) result }
        ensures later { GoesOn (number_of self.old) (number_of self.new) result }
        ensures rose { HasCause (H.faults (hand_of self.old)) (H.faults (hand_of self.new)) result }
        ensures kept { H.files (hand_of self.new) ≡ H.files (hand_of self.old) }
        ensures grows { H.faults (hand_of self.old) ≤ H.faults (hand_of self.new) }
    {
        'lines: loop {
            match self.raw_line() {
                Ok(Raw::Line) => {
                    self.number += 1;
                    if self.number > MOST_LINES {
                        return Line::Many;
                    }
                    self.end = self.start + text_len(&self.buffer[self.start..self.end]);
                    if self.start < self.end {
                        return Line::Text;
                    }
                }
                Ok(Raw::Long) => {
                    self.number += 1;
                    return if self.number > MOST_LINES {
                        Line::Many
                    } else {
                        Line::Long
                    };
                }
                Ok(Raw::End) => return Line::End,
                Err(Failed) => return Line::Faulted,
            }
        }
    }

    /// The text of the last line that was given, after `Text`: its bytes without the LF and without one CR at its end.
    pub fn text(&self) -> &[u8]
        ensures { result.now ≡ text_of self.now }
    {
        &self.buffer[self.start..self.end]
    }

    /// The number of the last line that was given, counted from 1.
    pub fn number(&self) -> u32
        ensures { result ≡ number_of self.now }
    {
        self.number
    }

    /// The hand, whatever is open.
    pub fn into_hand(self) -> H
        ensures { result ≡ hand_of self }
    {
        self.hand
    }
}
