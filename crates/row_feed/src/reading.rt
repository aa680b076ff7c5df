//! The lines of the file that is open.

use crate::reader::Reader;
use lean_io::{Failed, Hand};
use line_source::{Line, Lines};

impl<H: Hand> Reader<H> {
    ghost use Rattle.std.specs.Prelude.{◌≡◌, ◌<◌, ◌≤◌, true, false, Some, None, if◌then◌else◌, option_map, IfOk, OnErr};
    ghost use Rattle.lean_io.specs.Told.{Files, Rose};
    ghost use Rattle.line_source.specs.Lines.{lines};
    ghost use Rattle.line_source.specs.Reader.{GivesLine, HasCause};
    ghost use Rattle.row_feed.specs.Reader.{hand_of, number_of, text_of, is_open, lines_left, room_of, is_text};

    /// A reader with no file open.
    pub fn new(hand: H) -> Reader<H>
        ensures hand { hand_of result ≡ hand }
        ensures closed { is_open result ≡ false }
    {
        Reader {
            lines: Lines::new(hand),
            opened: false,
        }
    }

    /// Whether a file is open that was not read to its end.
    pub fn is_open(&self) -> bool
        ensures { result ≡ is_open self.now }
    {
        self.opened
    }

    /// Opens the file at a path. False: there is none. `Failed`: a fault, and no file is open.
    pub fn open(&mut self, path: &str) -> Result<bool, Failed>
        ensures told { IfOk result (λ found. (f : Files) → H.files (hand_of self.old) ≡ Some f
            → option_map lines (f path.now)
            ≡ (if found then Some (lines_left H.rest self.new) else None)) }
        ensures opened { IfOk result (λ found. is_open self.new ≡ found) }
        ensures room { room_of self.new ≤ 10_000_001 }
        ensures rose { OnErr result (Rose (H.faults (hand_of self.old)) (H.faults (hand_of self.new))) }
        ensures kept { H.files (hand_of self.new) ≡ H.files (hand_of self.old) }
        ensures grows { H.faults (hand_of self.old) ≤ H.faults (hand_of self.new) }
    {
        self.opened = false;
        match self.lines.open_file(path) {
            Ok(found) => {
                self.opened = found;
                Ok(found)
            }
            Err(Failed) => Err(Failed),
        }
    }

    /// Goes to the next line that is not blank. Behind the file's end, a line that is too long or one too many, or a failed
    /// read no file is open.
    pub fn next(&mut self) -> Line
        requires open { is_open self.old ≡ true }
        ensures gives { (f : Files) → H.files (hand_of self.old) ≡ Some f
            → GivesLine (lines_left H.rest self.old) (lines_left H.rest self.new) (number_of self.new) (text_of self.new) result }
        ensures open { is_open self.new ≡ is_text result }
        ensures fewer { room_of self.new < room_of self.old }
        ensures rose { HasCause (H.faults (hand_of self.old)) (H.faults (hand_of self.new)) result }
        ensures kept { H.files (hand_of self.new) ≡ H.files (hand_of self.old) }
        ensures grows { H.faults (hand_of self.old) ≤ H.faults (hand_of self.new) }
    {
        self.opened = false;
        match self.lines.next() {
            Line::Text => {
                self.opened = true;
                Line::Text
            }
            last => last,
        }
    }

    /// The text of the last line, after `Text`.
    pub fn text(&self) -> &[u8]
        ensures { result.now ≡ text_of self.now }
    {
        self.lines.text()
    }

    /// The number of the last line.
    pub fn number(&self) -> u32
        ensures { result ≡ number_of self.now }
    {
        self.lines.number()
    }

    /// The hand, whatever is open.
    pub fn into_hand(self) -> H
        ensures { result ≡ hand_of self }
    {
        self.lines.into_hand()
    }
}
